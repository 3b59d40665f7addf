// The calls for C and Rust. A room comes as its text, or as its 228 bytes; a reply goes back as its code and as five numbers.
#![tactic(auto)]

ghost use Rattle.std.specs.Prelude.{◌+◌, ◌*◌, ◌/◌, ◌%◌, ◌<◌, ◌≤◌, ◌≡◌, [], ℕ, length, take, drop, slice_index};
ghost use Rattle.std.specs.List.{slice_index_or};
ghost use Rattle.answer.specs.Calls.{CheckOfText, PlanOfText, JudgeOfText};
ghost use Rattle.export.specs.Calls.{Tells, Told};
ghost use Rattle.export.specs.Bytes.{size, ByteAt, Holds, room_of, ReadOfText, WriteOfBytes};

use paper::{Numbers, Room};
use reply::Told;
use text::Entry;

// The bytes of a room: four counts, 16 jobs, 32 sections and 16 links.
const SIZE: usize = 228;

// Checks the room of a text.
#[unsafe(no_mangle)]
pub extern "C" fn stoerwjok_check(text: &[u8], numbers: &mut [u64; 5]) -> u64
    ensures { Told (CheckOfText text.now) result numbers.new }
{
    tell(answer::check_of(text), numbers)
}

// Plans the room of a text.
#[unsafe(no_mangle)]
pub extern "C" fn stoerwjok_plan(
    text: &[u8],
    table: &mut [u64],
    plan: &mut [u16],
    numbers: &mut [u64; 5],
) -> u64
    ensures { Told (PlanOfText text.now table.old plan.old table.new plan.new)
        result numbers.new }
{
    tell(answer::plan_of(text, table, plan), numbers)
}

// Judges a past of the room of a text.
#[unsafe(no_mangle)]
pub extern "C" fn stoerwjok_judge(
    text: &[u8],
    table: &mut [u64],
    past: &[u16],
    numbers: &mut [u64; 5],
) -> u64
    ensures { Told (JudgeOfText text.now past.now table.old table.new) result numbers.new }
{
    tell(answer::judge_of(text, table, past), numbers)
}

// Reads a room text into the 228 bytes of a room, all zeros on TEXT.
#[unsafe(no_mangle)]
pub extern "C" fn stoerwjok_read(text: &[u8], room: &mut [u8; SIZE], numbers: &mut [u64; 5]) -> u64
    ensures { Told (ReadOfText text.now room.new) result numbers.new }
{
    let read = text::read(text);
    *room = bytes_of(read.unwrap_or_default());
    tell(read.numbers(), numbers)
}

// Writes the 228 bytes of a room as its text.
#[unsafe(no_mangle)]
pub extern "C" fn stoerwjok_write(room: &[u8; SIZE], text: &mut [u8], numbers: &mut [u64; 5]) -> u64
    ensures { Told (WriteOfBytes room.now text.old text.new) result numbers.new }
{
    tell(text::write(room_of(room), text).numbers(), numbers)
}

// Hands back the code of a reply, and its numbers.
fn tell(reply: Numbers, numbers: &mut [u64; 5]) -> u64
    ensures { Tells reply result numbers.new }
{
    let code = u64::from(reply.code);
    *numbers = [
        code,
        reply.count as u64,
        reply.place as u64,
        reply.prefix as u64,
        reply.cycle as u64,
    ];
    code
}

// The bytes of a room.
fn bytes_of(room: Room) -> [u8; SIZE]
    ensures { Holds result room }
{
    std::array::from_fn(|k| byte_of(room, k))
}

// Byte `k` of a room.
fn byte_of(room: Room, k: usize) -> u8
    requires { k < size }
    ensures { ByteAt room k result }
{
    match k {
        0..4 => [room.engines, room.jobs, room.sections, room.links][k],
        4..68 => entry_byte(&room.job, k - 4),
        68..196 => entry_byte(&room.section, k - 68),
        _ => entry_byte(&room.link, k - 196),
    }
}

// Byte `k` of entries that stand one after another, N bytes each.
fn entry_byte<const N: usize, E: Entry<N>>(entries: &[E], k: usize) -> u8
    requires { (0 < N) × (N ≤ 4) × (k < N * length entries.now) }
    ensures { (d : E) → result ≡ slice_index (E.bytes_of (slice_index_or entries.now (k / N) d)) (k % N) }
{
    entries[k / N].bytes()[k % N]
}

// The room in 228 bytes.
fn room_of(bytes: &[u8; SIZE]) -> Room
    ensures { result ≡ room_of bytes.now }
{
    Room {
        engines: bytes[0],
        jobs: bytes[1],
        sections: bytes[2],
        links: bytes[3],
        job: entries_of(&bytes[4..68]),
        section: entries_of(&bytes[68..196]),
        link: entries_of(&bytes[196..]),
    }
}

// The entries that stand one after another, N bytes each.
fn entries_of<const N: usize, const M: usize, E: Entry<N>>(bytes: &[u8]) -> [E; M]
    requires { (0 < N) × (N ≤ 4) × (length bytes.now ≡ N * M) }
    ensures long { length result ≡ M }
    ensures bytes { (d : E) (i : ℕ) → i < M → E.bytes_of (slice_index_or result i d) ≡ take N (drop (N * i) bytes.now) }
{
    let (parts, _) = bytes.as_chunks::<N>();
    std::array::from_fn(
        |i| -> E
            requires { i < length parts.now }
            ensures { E.bytes_of result ≡ slice_index_or parts.exit.now i [] }
        { E::of(&parts[i]) },
    )
}
