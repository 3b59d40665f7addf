// Replies and plans in words.
use pair::TooLarge;
use paper::Numbers;
use std::fmt;
use std::fmt::{Display, Formatter, Write};

// The paper's name of each code.
pub const NAMES: [&str; 13] = [
    "GOOD", "NONE", "TEXT", "ENGINES", "JOBS", "JOB", "SECTION", "LINK", "LONG", "TABLE", "ROOM",
    "SHORT", "OUT",
];

// Whether the paper names a place for a code.
fn has_place(code: u8) -> bool {
    matches!(code, 2 | 5..=8 | 11..=12)
}

// A reply: its code by name and the fields that the paper names. A count is never 0, nor is a cycle.
#[derive(Clone, Copy)]
pub struct Reply(pub Numbers);

impl Display for Reply {
    fn fmt<W: Write>(&self, f: &mut Formatter<W>) -> fmt::Result {
        let numbers = self.0;
        match NAMES.get(usize::from(numbers.code)) {
            Some(name) => write!(f, "{name}")?,
            None => write!(f, "code {}", numbers.code)?,
        }
        if numbers.count != 0 {
            write!(f, " count {}", numbers.count)?;
        }
        if has_place(numbers.code) {
            write!(f, " place {}", numbers.place)?;
        }
        if numbers.cycle != 0 {
            write!(f, " prefix {} cycle {}", numbers.prefix, numbers.cycle)?;
        }
        Ok(())
    }
}

// What the second planner says.
#[derive(Clone, Copy)]
pub struct Second(pub Result<Numbers, TooLarge>);

impl Display for Second {
    fn fmt<W: Write>(&self, f: &mut Formatter<W>) -> fmt::Result {
        match self.0 {
            Ok(numbers) => write!(f, "{}", Reply(numbers)),
            Err(TooLarge) => write!(f, "too large"),
        }
    }
}

// The masks of a plan, where there is one.
#[derive(Clone, Copy)]
pub struct Masks<'a>(pub &'a [u16]);

impl<'a> Display for Masks<'a> {
    fn fmt<W: Write>(&self, f: &mut Formatter<W>) -> fmt::Result {
        if !self.0.is_empty() {
            write!(f, ":")?;
        }
        for mask in self.0 {
            write!(f, " {mask}")?;
        }
        Ok(())
    }
}
