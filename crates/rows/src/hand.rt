// The rows of the paper: rooms worked by hand, the traps, and a room for each refusal.
use super::report::Report;
use pair::{check_both, judge_both, plan_both};
use paper::Room;
use std::io;

// Room A.
const A: &str = "a001\na100010202\na100010202\nff\n";

// Rooms that are planned, each a name and a text: those with no links and no sections, and those with some.
const ROOMS: [(&str, &str); 9] = [
    ("A: p 1, (0,1,2,2) twice", A),
    (
        "p 1, (0,1,2,2) three times",
        "a001\na100010202\na100010202\na100010202\nff\n",
    ),
    (
        "same with p 2",
        "a002\na100010202\na100010202\na100010202\nff\n",
    ),
    ("p 1, (1,1,1,2)", "a001\na101010102\nff\n"),
    (
        "p 1, (0,1,1,2), (1,1,1,2)",
        "a001\na100010102\na101010102\nff\n",
    ),
    ("p 1, (0,1,1,2) twice", "a001\na100010102\na100010102\nff\n"),
    (
        "A with p 2, link 0 to 1",
        "a002\na100010202\na100010202\na30001\nff\n",
    ),
    (
        "that with link 1 to 0 too",
        "a002\na100010202\na100010202\na30001\na30100\nff\n",
    ),
    (
        "B: p 2, (0,2,3,4), (1,1,1,4), block 0: job 0 units 0,1, job 1 unit 0",
        "a002\na100020304\na101010104\na200000002\na201000001\nff\n",
    ),
];

// Pasts of room A.
const PASTS: [(&str, &[u16]); 8] = [
    ("A, past empty", &[]),
    ("A, past 2,1", &[2, 1]),
    ("A, past 1,2,2,1", &[1, 2, 2, 1]),
    ("A, past 0", &[0]),
    ("A, past 3", &[3]),
    ("A, past 4", &[4]),
    ("A, past 2,2", &[2, 2]),
    ("A, past 1,2,0", &[1, 2, 0]),
];

// Rooms at the ends of the common multiple, traps, and a room for each refusal that rests on the room alone and that a text can have.
const MORE_ROOMS: [(&str, &str); 10] = [
    (
        "periods 64,63: p 1, (0,1,1,64), (0,1,1,63)",
        "a001\na100010140\na10001013f\nff\n",
    ),
    (
        "periods 64,63,5: p 1, (0,1,1,64), (0,1,1,63), (0,1,1,5)",
        "a001\na100010140\na10001013f\na100010105\nff\n",
    ),
    (
        "earliest deadline first loses: p 2, (0,1,2,4) twice, (0,3,3,4)",
        "a002\na100010204\na100010204\na100030304\nff\n",
    ),
    (
        "slot R + H is no return to slot R: p 1, (2,1,1,2), (0,2,4,4)",
        "a001\na102010102\na100020404\nff\n",
    ),
    ("p 0", "a000\na100010202\nff\n"),
    ("p 9 and no job", "a009\nff\n"),
    ("p 8 and no job", "a008\nff\n"),
    ("(0,1,2,2), (0,3,2,3)", "a001\na100010202\na100030203\nff\n"),
    (
        "(0,1,2,2), sections on blocks 7 and 8",
        "a001\na100010202\na200070001\na200080001\nff\n",
    ),
    (
        "(0,1,2,2), (0,1,2,4), link 0 to 1",
        "a001\na100010202\na100010204\na30001\nff\n",
    ),
];

// The room of a text; all zeros, which is refused, where the text is none.
fn room_of(text: &str) -> Room {
    text::read(text.as_bytes()).unwrap_or_default()
}

// A room planned by both, with a table for w configurations, 128 at most, and a plan buffer of so many slots, 16 at most.
fn plan_row(report: &mut Report, name: &str, text: &str, w: usize, slots: usize) -> io::Result<()> {
    let mut table = [0; 512];
    let mut plan = [0; 16];
    let mut other = [0; 16];
    let table = &mut table[..w.min(128) * 4];
    let plan = &mut plan[..slots.min(16)];
    let other = &mut other[..slots.min(16)];
    let both = plan_both(room_of(text), table, plan, other);
    report.row(name, both, plan)
}

// Rooms planned by both, with a table and a plan buffer that are long enough.
fn room_rows(report: &mut Report, rooms: &[(&str, &str)]) -> io::Result<()> {
    for (name, text) in rooms {
        plan_row(report, name, text, 128, 16)?;
    }
    Ok(())
}

// The pasts, judged by both.
fn past_rows(report: &mut Report) -> io::Result<()> {
    for (name, past) in PASTS {
        let both = judge_both(room_of(A), &mut [0; 512], past);
        report.row(name, both, &[])?;
    }
    Ok(())
}

// The lent table and the plan buffer just long enough, and one too short; periods whose least common multiple is near the limit, only checked.
fn limit_rows(report: &mut Report) -> io::Result<()> {
    plan_row(report, "A, W 4", A, 4, 16)?;
    plan_row(report, "A, W 3", A, 3, 16)?;
    plan_row(report, "A, plan buffer 2", A, 128, 2)?;
    plan_row(report, "A, plan buffer 1", A, 128, 1)?;
    report.row(
        "periods 64,63: p 2, (0,1,1,64), (0,1,1,63), only checked",
        check_both(room_of("a002\na100010140\na10001013f\nff\n")),
        &[],
    )
}

// All rows.
pub fn all_rows(report: &mut Report) -> io::Result<()> {
    room_rows(report, &ROOMS)?;
    past_rows(report)?;
    limit_rows(report)?;
    room_rows(report, &MORE_ROOMS)
}
