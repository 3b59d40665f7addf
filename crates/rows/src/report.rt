// What is written, and how often each reply came.
use super::words::{Masks, NAMES, Reply, Second};
use pair::{Compared, TooLarge};
use std::fmt::{Display, Formatter, Write};
use std::io::Stdout;
use std::{fmt, io};

// How often each code came, and a room that was too large for the second planner.
#[derive(Clone, Copy, Default)]
struct Counts {
    codes: [u64; 13],
    too_large: u64,
}

impl Counts {
    // Counts a comparison.
    fn add(&mut self, both: Compared) {
        match both.second {
            Ok(_) => {
                if let Some(n) = self.codes.get_mut(usize::from(both.first.code)) {
                    *n = n.wrapping_add(1);
                }
            }
            Err(TooLarge) => self.too_large = self.too_large.wrapping_add(1),
        }
    }

    // The sum of the counts.
    fn total(&self) -> u64 {
        self.codes
            .iter()
            .fold(self.too_large, |sum, n| sum.wrapping_add(*n))
    }
}

// How many there are, and what became of them.
impl Display for Counts {
    fn fmt<W: Write>(&self, f: &mut Formatter<W>) -> fmt::Result {
        write!(f, "{}:", self.total())?;
        for (name, n) in NAMES.iter().zip(&self.codes) {
            if *n != 0 {
                write!(f, " {name} {n}")?;
            }
        }
        if self.too_large != 0 {
            write!(f, " too large {}", self.too_large)?;
        }
        Ok(())
    }
}

// Where all is written, what became of the plans and of the pasts, and the number of differences.
#[derive(Drop)]
pub struct Report {
    out: Stdout,
    plans: Counts,
    pasts: Counts,
    differences: u64,
}

impl Report {
    // Nothing is counted yet.
    pub fn new(out: Stdout) -> Report {
        Report {
            out,
            plans: Counts::default(),
            pasts: Counts::default(),
            differences: 0,
        }
    }

    // Writes a row: its name, the planner's reply, and the plan where there is one, which stands at the start of its buffer.
    pub fn row(&mut self, name: &str, both: Compared, buffer: &[u16]) -> io::Result<()> {
        let first = both.first;
        let slots = first.prefix.saturating_add(first.cycle);
        let plan = buffer.get(..slots).unwrap_or(buffer);
        println!(self.out; "{name}: {}{}", Reply(first), Masks(plan))?;
        self.compare(name, both)
    }

    // Counts the plan of a made room.
    pub fn plan(&mut self, n: u64, both: Compared) -> io::Result<()> {
        self.plans.add(both);
        self.compare(format_args!("plan of room {n}"), both)
    }

    // Counts a past of a made room.
    pub fn past(&mut self, n: u64, both: Compared) -> io::Result<()> {
        self.pasts.add(both);
        self.compare(format_args!("past of room {n}"), both)
    }

    // Where the two replies or their buffers differ, counts it, and writes them after what was asked.
    fn compare<D: Display + Drop>(&mut self, asked: D, both: Compared) -> io::Result<()> {
        if both.same {
            return Ok(());
        }
        self.differences = self.differences.wrapping_add(1);
        println!(self.out;
            "{asked}: difference: planner {}; second planner {}",
            Reply(both.first),
            Second(both.second)
        )
    }

    // Writes how often each reply came, and the number of differences.
    pub fn close(&self) -> io::Result<()> {
        println!(self.out;
            "rooms {}; pasts {}; differences {}",
            self.plans, self.pasts, self.differences
        )
    }
}
