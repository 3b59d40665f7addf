// A second planner and judge, written from the paper alone in the plainest way, to compare the
// planner with. Every mask is tested against every rule; the configurations found stand in a list
// that is searched from its front; the centre is what is left when looking for lost configurations
// finds no more. Proved safe and ending; no contract says that its answers are right.
// It knows at most 512 configurations.
#![tactic(auto)]

use paper::{Judged, Planned, Refusal, Room, Undecided};

mod room; // a room: its entries, the ranges of each part, R and H
mod rules; // one slot: the rules, each by itself, and the configuration after the slot
mod centre; // which configurations are found, and which of them are lost
mod walk; // the plan's slots, and a past judged slot by slot

use centre::{Centre, Full, MOST};
use room::clock_of;

// A room has more configurations than this planner knows.
#[derive(Clone, Copy)]
pub struct TooLarge;

// The refusals 3 to 8, in the order of the numbers.
pub fn check(room: Room) -> Result<(), Refusal> {
    clock_of(&room)?;
    Ok(())
}

// The centre of a room within the limits and within w configurations.
fn decide(room: Room, w: usize) -> Result<Result<Centre, Undecided>, TooLarge> {
    let clock = match clock_of(&room) {
        Ok(clock) => clock,
        Err(refusal) => return Ok(Err(Undecided::Refused(refusal))),
    };
    match Centre::of(room, clock, w.min(MOST)) {
        Ok(centre) => Ok(Ok(centre)),
        Err(Full) if w <= MOST => Ok(Err(Undecided::Room)),
        Err(Full) => Err(TooLarge),
    }
}

// The plan of a room, for a table that holds w configurations. The plan buffer is written only
// where the answer is Good.
pub fn plan(
    room: Room,
    w: usize,
    plan: &mut [u16],
) -> Result<Result<Planned, Undecided>, TooLarge> {
    Ok(decide(room, w)?.map(|centre| centre.plan(plan)))
}

// Whether a past is in the centre, for a table that holds w configurations.
pub fn judge(room: Room, w: usize, past: &[u16]) -> Result<Result<Judged, Undecided>, TooLarge> {
    Ok(decide(room, w)?.map(|centre| centre.judge(past)))
}
