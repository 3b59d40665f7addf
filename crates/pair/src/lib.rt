// The planner and the second planner on one room: replies and buffers compared.
#![tactic(auto)]

ghost use Rattle.std.specs.Prelude.{ℕ, ◌<◌, ◌≡◌, length, get_or, T};
ghost use Rattle.pair.specs.Same.{Agree};

use paper::{Numbers, Room};
use reply::Told;
pub use second::TooLarge;

// What a table holds before a call, in each number; and a plan buffer, in each slot.
const FOUND: u64 = 0x5555555555555555;

const UNPLANNED: u16 = 0xffff;

// The numbers of the planner's reply, those of the second planner's, and whether all that was compared is equal. Where the room is too
// large for the second planner nothing is compared.
#[derive(Clone, Copy)]
pub struct Compared {
    pub first: Numbers,
    pub second: Result<Numbers, TooLarge>,
    pub same: bool,
}

// Whether a table holds one number throughout.
fn holds_only(table: &[u64], number: u64) -> bool
    ensures { T result → (k : ℕ) → k < length table.now → get_or table.now k 0 ≡ number }
{
    table.iter().all(|x| *x == number)
}

// Whether a filled table is what the paper asks after a call with this code: as found for 3 to 9,
// else all zeros.
fn table_fits(code: u8, table: &[u64]) -> bool {
    holds_only(table, if 3 <= code && code <= 9 { FOUND } else { 0 })
}

// What came back from both; whether the table is as it should be, and whether the plan buffers are
// the same.
fn both_of(first: Numbers, second: Result<Numbers, TooLarge>, table: bool, plan: bool) -> Compared
    ensures { (result.first ≡ first) × (result.second ≡ second) × (T result.same → Agree result.first result.second (T plan)) }
{
    let same = match second {
        Ok(numbers) => table && plan && first == numbers,
        Err(TooLarge) => true,
    };
    Compared {
        first,
        second,
        same,
    }
}

// The check of a room by both.
pub fn check_both(room: Room) -> Compared {
    let first = planner::check(room).numbers();
    let second = second::check(room).numbers();
    both_of(first, Ok(second), true, true)
}

// The plan of a room by both, the planner's in `plan` and the second planner's in `other`, in buffers that are filled first.
pub fn plan_both(room: Room, table: &mut [u64], plan: &mut [u16], other: &mut [u16]) -> Compared
    ensures { T result.same → Agree result.first result.second (plan.new ≡ other.new) }
{
    table.fill(FOUND);
    plan.fill(UNPLANNED);
    other.fill(UNPLANNED);
    let first = planner::plan(room, table, plan).numbers();
    let second = second::plan(room, table.len() / 4, other).map(|planned| planned.numbers());
    let fits = table_fits(first.code, &table[..]);
    let same = plan[..] == other[..];
    both_of(first, second, fits, same)
}

// A past judged by both, in a table that is filled first.
pub fn judge_both(room: Room, table: &mut [u64], past: &[u16]) -> Compared {
    table.fill(FOUND);
    let first = planner::judge(room, table, past).numbers();
    let second = second::judge(room, table.len() / 4, past).map(|judged| judged.numbers());
    let fits = table_fits(first.code, &table[..]);
    both_of(first, second, fits, true)
}
