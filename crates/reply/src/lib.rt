// The numbers of each call's answer, as the paper tells them.
#![tactic(auto)]

ghost use Rattle.std.specs.Prelude.{◌<◌, ◌^◌, ◌≡◌};
ghost use Rattle.paper.specs.declared.Numbers.{Numbers};
ghost use Rattle.paper.specs.Reply.{named, refusal_numbers, undecided_numbers, checked_numbers, planned_numbers, judged_numbers, reading_numbers, writing_numbers};

use paper::{BadLine, Judged, Numbers, Planned, Refusal, Room, Undecided, Unwritten};

// An answer, or a part of one, that is told by its numbers.
pub trait Told {
    ghost numbers_of: { Self → Numbers };

    fn numbers(self) -> Numbers
        ensures { result ≡ numbers_of self };
}

// Code, count and place; the rest is 0.
fn named(code: u8, count: usize, place: usize) -> Numbers
    ensures { result ≡ named code count place }
{
    Numbers {
        code,
        count,
        place,
        prefix: 0,
        cycle: 0,
    }
}

impl Told for Refusal {
    ghost numbers_of = { refusal_numbers };

    fn numbers(self) -> Numbers {
        match self {
            Refusal::Engines => named(3, 0, 0),
            Refusal::Jobs => named(4, 0, 0),
            Refusal::Job { place } => named(5, 0, place),
            Refusal::Section { place } => named(6, 0, place),
            Refusal::Link { place } => named(7, 0, place),
            Refusal::Long { place } => named(8, 0, place),
        }
    }
}

impl Told for Undecided {
    ghost numbers_of = { undecided_numbers };

    fn numbers(self) -> Numbers {
        match self {
            Undecided::Refused(refusal) => refusal.numbers(),
            Undecided::Table => named(9, 0, 0),
            Undecided::Room => named(10, 0, 0),
        }
    }
}

// A room checked.
impl Told for Result<(), Refusal> {
    ghost numbers_of = { checked_numbers };

    fn numbers(self) -> Numbers {
        match self {
            Ok(()) => named(0, 0, 0),
            Err(refusal) => refusal.numbers(),
        }
    }
}

// A room planned.
impl Told for Result<Planned, Undecided> {
    ghost numbers_of = { planned_numbers };

    fn numbers(self) -> Numbers {
        match self {
            Ok(
                Planned::Good {
                    count,
                    prefix,
                    cycle,
                },
            ) => Numbers {
                code: 0,
                count,
                place: 0,
                prefix,
                cycle,
            },
            Ok(Planned::None { count }) => named(1, count, 0),
            Ok(Planned::Short { place }) => named(11, 0, place),
            Err(undecided) => undecided.numbers(),
        }
    }
}

// A past judged.
impl Told for Result<Judged, Undecided> {
    ghost numbers_of = { judged_numbers };

    fn numbers(self) -> Numbers {
        match self {
            Ok(Judged::Good { count }) => named(0, count, 0),
            Ok(Judged::Out { count, place }) => named(12, count, place),
            Err(undecided) => undecided.numbers(),
        }
    }
}

// A text read.
impl Told for Result<Room, BadLine> {
    ghost numbers_of = { reading_numbers };

    fn numbers(self) -> Numbers {
        match self {
            Ok(_) => named(0, 0, 0),
            Err(bad) => named(2, 0, bad.place),
        }
    }
}

// A text written.
impl Told for Result<usize, Unwritten> {
    ghost numbers_of = { writing_numbers };

    fn numbers(self) -> Numbers {
        match self {
            Ok(length) => named(0, 0, length),
            Err(Unwritten::Refused(refusal)) => refusal.numbers(),
            Err(Unwritten::Short { place }) => named(11, 0, place),
        }
    }
}
