// Answers many sheet files, one to a line of standard input: a name, a tab, and the file's bytes in hexadecimal.
#![tactic(auto)]

use planning::{MOST_BYTES, plan};
use sheet::SheetRoom;
use std::alloc::{AllocError, Global};

// Any other byte counts as 0, a capital too: the library's decoding would take a capital, and refuse the rest.
fn digit(byte: u8) -> u8 {
    match byte {
        b'0'..=b'9' => byte - b'0',
        b'a'..=b'f' => byte - b'a' + 10,
        _ => 0,
    }
}

// The bytes of the digits, as many as the console program reads.
fn decode(heap: Global, digits: &str) -> Result<Vec<u8>, AllocError> {
    let mut file = Vec::new(heap);
    for pair in digits.as_bytes().chunks_exact(2).take(MOST_BYTES) {
        if let [high, low] = pair {
            file.push((digit(*high) << 4) | digit(*low))?;
        }
    }
    Ok(file)
}

fn main(rt: HostRuntime) -> anyhow::Result<()> {
    let heap = rt.alloc();
    for line in rt.lines(heap) {
        let line = line?;
        let digits = line.split_once('\t').map_or("", |(_, digits)| digits);
        let file = decode(heap, digits)?;
        let room = SheetRoom::reserve(heap)?;
        match plan(room, file.as_slice()) {
            Ok(planned) => println!(rt; "{planned}")?,
            Err(failure) => println!(rt; "{failure}")?,
        }
    }
    Ok(())
}
