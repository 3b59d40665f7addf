// Made rooms and their pasts through both planners.
ghost use Rattle.std.specs.Prelude.{◌≤◌};

use super::chance::{byte_of, seed_of};
use super::made::room_of;
use super::pasts::{any_masks, change_slot, follow_plan, wander};
use super::report::Report;
use pair::{judge_both, plan_both};
use paper::{Numbers, Room};
use std::io;

// How many rooms are made.
const ROOMS: u64 = 4000;

// How many numbers of the table are lent: for 512 configurations, and in every eighth case for 0 to
// 31 and a rest.
fn lent_numbers(seed: u64) -> usize
    ensures { result ≤ 2048 }
{
    if byte_of(seed, 0) % 8 != 0 {
        return 2048;
    }
    usize::from(byte_of(seed, 1) % 128)
}

// How many slots of the plan buffer are lent: all 512, and in every eighth case 0 to 7.
fn lent_slots(seed: u64) -> usize
    ensures { result ≤ 512 }
{
    if byte_of(seed, 2) % 8 != 0 {
        return 512;
    }
    usize::from(byte_of(seed, 3) % 8)
}

// Four pasts of a room, of 0 to 24 slots: its plan followed, the same with one slot changed, any masks, and any that the planner
// accepts one after the other.
fn try_pasts(
    report: &mut Report,
    n: u64,
    room: Room,
    table: &mut [u64],
    plan: &[u16],
    numbers: Numbers,
) -> io::Result<()> {
    let mut masks = [0; 24];
    let length = usize::from(byte_of(n, 5) % 25);
    let past = &mut masks[..length];
    follow_plan(plan, numbers.prefix, numbers.cycle, past);
    report.past(n, judge_both(room, table, past))?;
    change_slot(room.jobs, seed_of(n, 2), past);
    report.past(n, judge_both(room, table, past))?;
    any_masks(room.jobs, seed_of(n, 3), past);
    report.past(n, judge_both(room, table, past))?;
    wander(room, table, seed_of(n, 4), past);
    report.past(n, judge_both(room, table, past))
}

// Room number n through both planners, with buffers as long as chance has it, and four pasts where the second planner knows the
// room.
fn try_room(report: &mut Report, n: u64) -> io::Result<()> {
    let mut table = [0; 2048];
    let mut plan = [0; 512];
    let mut other = [0; 512];
    let seed = seed_of(n, 1);
    let slots = lent_slots(seed);
    let table = &mut table[..lent_numbers(seed)];
    let plan = &mut plan[..slots];
    let room = room_of(seed_of(n, 0));
    let both = plan_both(room, table, plan, &mut other[..slots]);
    report.plan(n, both)?;
    match both.second {
        Ok(_) => try_pasts(report, n, room, table, plan, both.first),
        Err(_) => Ok(()),
    }
}

// All rooms of the generator.
pub fn all_rooms(report: &mut Report) -> io::Result<()> {
    for n in 0..ROOMS {
        try_room(report, n)?;
    }
    Ok(())
}
