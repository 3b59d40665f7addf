// Rooms made from a seed: small ones within the limits, and some of these with numbers replaced.
use super::chance::{below, byte_of, seed_of};
use paper::{Job, Link, Room, Section};

// Job i of a room.
fn job_at(room: &Room, i: u8) -> Option<Job> {
    room.job.get(usize::from(i)).copied()
}

// A period: once, twice or three times the base of a room, 1 to 4, so that the common multiple stays
// small.
fn period_of(room: u64, seed: u64) -> u8 {
    let base = 1 + byte_of(room, 0) % 4;
    match byte_of(seed, 0) % 4 {
        2 => base * 2,
        3 => base * 3,
        _ => base,
    }
}

// A first slot: 0 in half of the cases, else 0 to 3.
fn first_of(seed: u64) -> u8 {
    if byte_of(seed, 1) % 2 == 0 {
        return 0;
    }
    byte_of(seed, 2) % 4
}

// A deadline: the period in half of the cases, else from the load to before the period.
fn deadline_of(load: u8, period: u8, seed: u64) -> u8 {
    if byte_of(seed, 3) % 2 == 0 || period < load {
        return period;
    }
    load + below(period - load, seed, 4)
}

// A job of a room: first slot and period come from the seed `clock`, load and deadline from `seed`. The
// load is at most half of the period, or 1.
fn job_of(room: u64, clock: u64, seed: u64) -> Job {
    let period = period_of(room, clock);
    let load = 1 + below(period / 2, seed, 5);
    Job {
        first: first_of(clock),
        load,
        deadline: deadline_of(load, period, seed),
        period,
    }
}

// The jobs of a room. In every third room all have one first slot and one period.
fn jobs_of(room: u64) -> [Job; 16] {
    let alike = byte_of(room, 7) % 3 == 0;
    let mut job = [Job::default(); 16];
    for i in 0..6 {
        let seed = seed_of(room, 8 + i as u64);
        job[i] = job_of(room, if alike { room } else { seed }, seed);
    }
    job
}

// Adds a section, where there is a place for it.
fn add_section(room: &mut Room, seed: u64) {
    let i = below(room.jobs, seed, 0);
    let Some(job) = job_at(room, i) else {
        return;
    };
    if let Some(section) = room.section.get_mut(usize::from(room.sections)) {
        let first = below(job.load, seed, 1);
        *section = Section {
            job: i,
            block: byte_of(seed, 2) % 3,
            first,
            after: first + 1 + below(job.load - first, seed, 3),
        };
        room.sections += 1;
    }
}

// Whether two jobs may be linked.
fn may_link(room: &Room, sender: u8, receiver: u8) -> bool {
    match (job_at(room, sender), job_at(room, receiver)) {
        (Some(from), Some(to)) => {
            sender != receiver && from.first == to.first && from.period == to.period
        }
        _ => false,
    }
}

// Adds a link, where there is a place for it and two jobs that are drawn may be linked.
fn add_link(room: &mut Room, seed: u64) {
    let sender = below(room.jobs, seed, 0);
    let receiver = below(room.jobs, seed, 1);
    if !may_link(room, sender, receiver) {
        return;
    }
    if let Some(link) = room.link.get_mut(usize::from(room.links)) {
        *link = Link { sender, receiver };
        room.links += 1;
    }
}

// Adds a part to a room at most n times.
fn add_parts<F: Fn(&mut Room, u64)>(room: &mut Room, n: u8, seed: u64, add: F)
    requires { F.IsAlwaysCallable add }
{
    for q in 0..n {
        add(room, seed_of(seed, u64::from(q)));
    }
}

// A room within the limits: one to three engines, one to six jobs, up to three sections and links.
fn good_room(seed: u64) -> Room {
    let mut room = Room {
        engines: 1 + byte_of(seed, 1) % 3,
        jobs: 1 + byte_of(seed, 2) % 6,
        job: jobs_of(seed_of(seed, 0)),
        ..Room::default()
    };
    add_parts(
        &mut room,
        byte_of(seed, 3) % 4,
        seed_of(seed, 4),
        add_section,
    );
    add_parts(&mut room, byte_of(seed, 5) % 4, seed_of(seed, 6), add_link);
    room
}

// Replaces the load, deadline or period of a job by any byte.
// A match, here and in the two below: each arm replaces another part.
fn spoil_job(job: &mut Job, seed: u64) {
    let number = byte_of(seed, 1);
    match byte_of(seed, 0) % 3 {
        0 => job.load = number,
        1 => job.deadline = number,
        _ => job.period = number,
    }
}

// Replaces one of the numbers of a section by one from 0 to 15.
fn spoil_section(section: &mut Section, seed: u64) {
    let number = byte_of(seed, 1) % 16;
    match byte_of(seed, 0) % 4 {
        0 => section.job = number,
        1 => section.block = number,
        2 => section.first = number,
        _ => section.after = number,
    }
}

// Adds a section, and replaces a number of one of the first four.
fn spoil_sections(room: &mut Room, seed: u64) {
    add_section(room, seed_of(seed, 0));
    let q = usize::from(byte_of(seed, 1) % 4);
    spoil_section(&mut room.section[q], seed_of(seed, 2));
}

// Adds a link between any two numbers from 0 to 7.
fn spoil_links(room: &mut Room, seed: u64) {
    if let Some(link) = room.link.get_mut(usize::from(room.links)) {
        *link = Link {
            sender: byte_of(seed, 0) % 8,
            receiver: byte_of(seed, 1) % 8,
        };
        room.links += 1;
    }
}

// Replaces the periods by some from 57 to 64.
fn lengthen(room: &mut Room, seed: u64) {
    for i in 0..6 {
        room.job[i].period = 57 + byte_of(seed, i as u64) % 8;
    }
}

// Replaces one of a room's numbers, or one of its parts: most such rooms are bad.
fn spoil(room: &mut Room, seed: u64) {
    let number = byte_of(seed, 1);
    match byte_of(seed, 0) % 8 {
        0 => room.engines = number,
        1 => room.jobs = number,
        2 => room.sections = number,
        3 => room.links = number,
        4 => spoil_sections(room, seed),
        5 => spoil_links(room, seed),
        6 => lengthen(room, seed),
        _ => {
            let i = usize::from(byte_of(seed, 0) % 6);
            spoil_job(&mut room.job[i], seed_of(seed, 1));
        }
    }
}

// A room: within the limits, and in every fifth case spoiled.
pub fn room_of(seed: u64) -> Room {
    let mut room = good_room(seed);
    if byte_of(seed, 7) % 5 == 0 {
        spoil(&mut room, seed_of(seed, 8));
    }
    room
}
