// Reads a sheet file from standard input and prints its plan, or why there is none, in one line.
#![tactic(auto)]

use planning::{MOST_BYTES, plan};
use sheet::SheetRoom;
use std::io::Read;

fn main(rt: HostRuntime) -> anyhow::Result<()> {
    let mut buffer = [0u8; MOST_BYTES];
    let mut filled = 0;
    // a buffer of zero bytes filled from standard input, as asked for; each piece has at least a byte
    for _ in 0..MOST_BYTES {
        let count = rt.stdin().read(&mut buffer[filled..])?;
        if count == 0 {
            break;
        }
        filled += count;
    }
    let room = SheetRoom::reserve(rt.alloc())?;
    let answer = plan(room, &buffer[..filled]);
    // taken apart by let else, as asked for
    let Ok(planned) = answer else {
        let failure = answer.unwrap_err();
        println!(rt; "{failure}")?;
        return Ok(());
    };
    println!(rt; "{planned}")?;
    Ok(())
}
