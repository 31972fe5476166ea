// All sheets of up to five lanes that are taken one after the other from a table of six.
use crate::cases::Taken;
use crate::layouts::{LANES, Layout};
use crate::sheets::open;
use bounds::Bound;
use network::{Lane, Mark};
use sheet::Sheet;
use std::alloc::{AllocError, AllocGlobal, Global};
use std::iter;
use std::test::*;

// The ways to take up to five lanes from six, repetitions and order counted.
const WAYS: u32 = 9331;

const TABLE: u32 = 6;

// The ends, the chance and the cost, with equal costs, equal lanes and a cost of 0; the last is struck.
const ON_TWO: [(u8, u8, u16, u32); 6] = [
    (0, 1, 9, 5),
    (1, 0, 9, 5),
    (0, 1, 5, 0),
    (1, 0, 10, 7),
    (0, 1, 2, 1),
    (0, 1, 10, 0),
];

const ON_THREE: [(u8, u8, u16, u32); 6] = [
    (0, 1, 9, 4),
    (1, 2, 9, 5),
    (0, 2, 8, 7),
    (2, 1, 10, 5),
    (1, 0, 4, 0),
    (0, 2, 10, 0),
];

const ON_FOUR: [(u8, u8, u16, u32); 6] = [
    (0, 1, 9, 4),
    (1, 2, 10, 5),
    (2, 3, 8, 2),
    (3, 0, 9, 4),
    (0, 2, 7, 0),
    (3, 1, 10, 0),
];

fn lane_at(depots: u8, place: u32) -> Lane {
    let table = match depots {
        2 => ON_TWO,
        3 => ON_THREE,
        _ => ON_FOUR,
    };
    let (left, right, chance, cost) = table[(place % TABLE) as usize];
    let mark = if place % TABLE == 5 {
        Mark::Struck
    } else {
        Mark::Standing
    };
    Lane {
        left,
        right,
        chance,
        cost,
        mark,
    }
}

// Each way has one number: its digits run from one to six, and the first lane's comes last.
fn take_lanes(heap: Global, depots: u8, way: u32) -> Result<Vec<Lane>, AllocError> {
    iter::successors(way.checked_sub(1), |rest| (rest / TABLE).checked_sub(1))
        .take(LANES)
        .map(|rest| lane_at(depots, rest))
        .collect(heap)
}

// Struck lanes are offered first, as any other.
fn offer_all<B: Bound>(sheet: &mut Sheet<B>, lanes: &[Lane]) -> Result<(), Fail> {
    for (number, lane) in (0..u8::MAX).zip(lanes) {
        sheet.offer(lane.left, lane.right, lane.chance, lane.cost)?;
        if !lane.mark.stands() {
            sheet.strike(number)?;
        }
    }
    Ok(())
}

// Calls the comparison with the lanes of each way.
pub fn each_way<F: Fn(Taken) -> Result<(), Fail>>(
    rt: &impl AllocGlobal,
    depots: u8,
    compare: F,
) -> Result<(), Fail>
    requires { F.IsAlwaysCallable compare }
{
    for way in 0..WAYS {
        let lanes = take_lanes(rt.alloc(), depots, way)?;
        let layout = Layout {
            depots,
            lanes: lanes.as_slice(),
        };
        compare(Taken { way, layout })?;
    }
    Ok(())
}

// A sheet with these lanes, and without a goal.
pub fn offered<B: Bound + Drop>(
    rt: &impl AllocGlobal,
    most: u8,
    bound: B,
    layout: Layout,
) -> Result<Sheet<B>, Fail> {
    let mut sheet = open(rt, most, layout.depots, bound)?;
    offer_all(&mut sheet, layout.lanes)?;
    Ok(sheet)
}
