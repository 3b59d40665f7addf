// A room: its entries, the ranges of each part, and R and H.
ghost use Rattle.std.specs.Prelude.{◌≤◌, length, IfSome, IfOk};

use paper::{Job, Link, Refusal, Room, Section};

// The jobs of a room, as many as there are entries at most.
pub fn jobs(room: &Room) -> &[Job]
    ensures { length result.now ≤ 16 }
{
    &room.job[..usize::from(room.jobs).min(16)]
}

// The sections of a room.
pub fn sections(room: &Room) -> &[Section] {
    &room.section[..usize::from(room.sections).min(32)]
}

// The links of a room.
pub fn links(room: &Room) -> &[Link] {
    &room.link[..usize::from(room.links).min(16)]
}

// 1 <= C <= D <= T <= 64; a first slot is any byte.
fn good_job(j: &Job) -> bool {
    1 <= j.load && j.load <= j.deadline && j.deadline <= j.period && j.period <= 64
}

// Block 0 to 7; first < after <= C of that job.
fn good_section(room: &Room, s: &Section) -> bool {
    match jobs(room).get(usize::from(s.job)) {
        Some(j) => s.block <= 7 && s.first < s.after && s.after <= j.load,
        None => false,
    }
}

// Two different jobs with equal r and equal T.
fn good_link(room: &Room, k: &Link) -> bool {
    let jobs = jobs(room);
    match (
        jobs.get(usize::from(k.sender)),
        jobs.get(usize::from(k.receiver)),
    ) {
        (Some(a), Some(b)) => k.sender != k.receiver && a.first == b.first && a.period == b.period,
        _ => false,
    }
}

// The least common multiple of the periods of some jobs: the least number from 1 to 4,096 that is a multiple of all.
fn least_multiple(jobs: &[Job]) -> Option<u16>
    ensures { IfSome result (λ h. (1 ≤ h) × (h ≤ 4096)) }
{
    (1u16..4097).find(|&h| jobs.iter().all(|j| h.is_multiple_of(u16::from(j.period))))
}

// The least common multiple of all periods; or the job at which that of the jobs 0 to it first passes 4,096.
fn multiple_of(jobs: &[Job]) -> Result<u16, Refusal>
    ensures { IfOk result (λ h. (1 ≤ h) × (h ≤ 4096)) }
{
    let mut h = 1;
    for place in 0..jobs.len() {
        h = least_multiple(&jobs[..=place]).ok_or(Refusal::Long { place })?;
    }
    Ok(h)
}

// The time positions are 0 to `last`, R + H - 1, and after `last` comes `back`, R.
#[derive(Clone, Copy)]
pub struct Clock {
    pub back: u16,
    pub last: u16,
}

// The time positions of a room within the limits; else its refusal, in the order of the numbers.
pub fn clock_of(room: &Room) -> Result<Clock, Refusal> {
    within_limits(room)?;
    let jobs = jobs(room);
    let h = multiple_of(jobs)?;
    let greatest = jobs.iter().map(|j| j.first).max().unwrap_or(0);
    let back = u16::from(greatest);
    Ok(Clock {
        back,
        last: back + h - 1,
    })
}

// The refusals 3 to 7, in the order of the numbers.
fn within_limits(room: &Room) -> Result<(), Refusal> {
    if room.engines < 1 || 8 < room.engines {
        return Err(Refusal::Engines);
    }
    if room.jobs < 1 || 16 < room.jobs {
        return Err(Refusal::Jobs);
    }
    if let Some(place) = jobs(room).iter().position(|j| !good_job(j)) {
        return Err(Refusal::Job { place });
    }
    if 32 < room.sections {
        return Err(Refusal::Section { place: 32 });
    }
    if let Some(place) = sections(room).iter().position(|s| !good_section(room, s)) {
        return Err(Refusal::Section { place });
    }
    if 16 < room.links {
        return Err(Refusal::Link { place: 16 });
    }
    if let Some(place) = links(room).iter().position(|k| !good_link(room, k)) {
        return Err(Refusal::Link { place });
    }
    Ok(())
}
