// Pasts made from a seed: a plan followed, a plan with one slot changed, any masks, and masks that the
// planner accepts one after the other.
use super::chance::{byte_of, mask_of, seed_of};
use paper::{Judged, Room};

// The slot of a plan that stands for a slot, its cycle repeated without end.
fn turned(prefix: usize, cycle: usize, slot: usize) -> usize {
    if slot < prefix || cycle == 0 {
        return slot;
    }
    prefix + (slot - prefix) % cycle
}

// The mask that a plan has in a slot; where the buffer has no such slot, no job runs.
fn planned(plan: &[u16], prefix: usize, cycle: usize, slot: usize) -> u16 {
    plan.get(turned(prefix, cycle, slot)).copied().unwrap_or(0)
}

// Any mask of so many jobs.
fn any_mask(jobs: u8, seed: u64) -> u16 {
    let mask = mask_of(seed, 0) & mask_of(seed, 1);
    if jobs < 1 || 16 < jobs {
        return mask;
    }
    mask >> (16 - jobs)
}

// Follows the plan in all slots of the past.
pub fn follow_plan(plan: &[u16], prefix: usize, cycle: usize, past: &mut [u16]) {
    for (slot, mask) in past.iter_mut().enumerate() {
        *mask = planned(plan, prefix, cycle, slot);
    }
}

// Replaces the mask of one slot, by any or by the same with one job more or less.
pub fn change_slot(jobs: u8, seed: u64, past: &mut [u16]) {
    let slot = usize::from(byte_of(seed, 0) % 16);
    if let Some(mask) = past.get_mut(slot) {
        if byte_of(seed, 1) % 2 == 0 {
            *mask = any_mask(jobs, seed_of(seed, 2));
        } else {
            *mask ^= 1 << (byte_of(seed, 3) % 6);
        }
    }
}

// Any masks in all slots of the past.
pub fn any_masks(jobs: u8, seed: u64, past: &mut [u16]) {
    for (slot, mask) in past.iter_mut().enumerate() {
        *mask = any_mask(jobs, seed_of(seed, slot as u64));
    }
}

// Whether the planner accepts a past.
fn accepts(room: Room, table: &mut [u64], past: &[u16]) -> bool {
    matches!(planner::judge(room, table, past), Ok(Judged::Good { .. }))
}

// Puts into the last slot of a past the first of four masks that the planner accepts there, or the last of them; whether there is one.
fn wander_slot(room: Room, table: &mut [u64], seed: u64, past: &mut [u16]) -> bool {
    for k in 0..4 {
        if let Some(mask) = past.last_mut() {
            *mask = any_mask(room.jobs, seed_of(seed, k));
        }
        if accepts(room, table, past) {
            return true;
        }
    }
    false
}

// Any masks that the planner accepts, until there is a slot for which none was found.
pub fn wander(room: Room, table: &mut [u64], seed: u64, past: &mut [u16]) {
    for slot in 0..past.len() {
        if !wander_slot(room, table, seed_of(seed, slot as u64), &mut past[..=slot]) {
            return;
        }
    }
}
