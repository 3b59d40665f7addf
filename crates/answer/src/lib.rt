// The answer to a room text: the numbers of the planner's reply, and the lines that the program prints for it.
#![tactic(auto)]

ghost use Rattle.std.specs.Prelude.{◌+◌, ◌*◌, ◌≤◌, ◌≡◌, length, take};
ghost use Rattle.paper.specs.Answer.{four_bytes, answer_frame, slot_frame, answer};
ghost use Rattle.digits.specs.Digits.{Puts};
ghost use Rattle.answer.specs.Calls.{CheckOfText, PlanOfText, JudgeOfText};
ghost use Rattle.answer.specs.Lines.{plan_slots, two, slot_lines, Answered, TextAnswered, InputAnswered};

use paper::Numbers;
use reply::Told;

// The first bytes of an input that tell its answer: no room text is longer than 648.
pub const INPUT: usize = 649;

// The numbers of a table of 1,536 configurations, and the slots of the plan buffer.
const TABLE: usize = 6144;

const SLOTS: usize = 1536;

// The bytes of the longest answer: 29 for the first line, 7 for each slot, 3 for `ff`.
pub const LINES: usize = 10784;

// The reply to checking the room of a text. This and the two below differ in the memory that they are lent.
pub fn check_of(text: &[u8]) -> Numbers
    ensures { CheckOfText text.now result }
{
    let read = text::read(text);
    let Ok(room) = read else {
        return read.numbers();
    };
    planner::check(room).numbers()
}

// The reply to planning the room of a text.
pub fn plan_of(text: &[u8], table: &mut [u64], plan: &mut [u16]) -> Numbers
    ensures { PlanOfText text.now table.old plan.old table.new plan.new result }
{
    let read = text::read(text);
    let Ok(room) = read else {
        return read.numbers();
    };
    planner::plan(room, table, plan).numbers()
}

// The reply to judging a past of the room of a text.
pub fn judge_of(text: &[u8], table: &mut [u64], past: &[u16]) -> Numbers
    ensures { JudgeOfText text.now past.now table.old table.new result }
{
    let read = text::read(text);
    let Ok(room) = read else {
        return read.numbers();
    };
    planner::judge(room, table, past).numbers()
}

// The answer to an input, of which the first 649 bytes count: its lines, and how many bytes they take.
pub fn answer_input(input: &[u8], lines: &mut [u8; LINES]) -> usize
    ensures answered { InputAnswered input.now lines.old result lines.new }
    ensures within { result ≤ length lines.new }
{
    answer_text(&input[..INPUT.min(input.len())], lines)
}

// The answer to a room text, with a table of 1,536 configurations and a plan buffer of 1,536 slots: its lines, and how many
// bytes they take.
pub fn answer_text(text: &[u8], lines: &mut [u8; LINES]) -> usize
    ensures answered { TextAnswered text.now lines.old result lines.new }
    ensures within { result ≤ length lines.new }
{
    let mut table = [0u64; TABLE];
    let mut plan = [0u16; SLOTS];
    put_answer(text, &mut table, &mut plan, lines).unwrap()
}

// Plans the room of a text, and puts the lines of the answer at the start of a buffer, if they fit: how many bytes they take.
pub fn put_answer(
    text: &[u8],
    table: &mut [u64],
    plan: &mut [u16],
    lines: &mut [u8],
) -> Option<usize>
    ensures { Answered text.now table.old plan.old lines.old result
        table.new plan.new lines.new }
{
    let numbers = plan_of(text, table, plan);
    let slots = slots_of(numbers, plan);
    if lines.len() < 32 || (lines.len() - 32) / 7 < slots.len() {
        return None;
    }
    Some(put_parts(numbers, slots, lines))
}

// The slots of the plan of a reply, in the buffer that it left.
fn slots_of(numbers: Numbers, plan: &[u16]) -> &[u16]
    requires { plan_slots numbers ≤ length plan.now }
    ensures { result.now ≡ take (plan_slots numbers) plan.now }
{
    &plan[..numbers.prefix + numbers.cycle]
}

// Puts the lines of an answer at the start of a buffer: the first line, those of the plan's slots, and `ff`. Gives how many
// bytes they take.
fn put_parts(numbers: Numbers, slots: &[u16], lines: &mut [u8]) -> usize
    requires { 32 + 7 * length slots.now ≤ length lines.old }
    ensures { Puts lines.old 0 (answer numbers slots.now) result lines.new }
{
    let at = digits::put_line(lines, 0, &head_of(numbers));
    let at = put_slots(lines, at, slots);
    digits::put_ending(lines, at)
}

// The frame of the first line: `f0`, code, count and two numbers.
fn head_of(numbers: Numbers) -> [u8; 14]
    ensures { result ≡ answer_frame numbers }
{
    let [second, third] = two_of(numbers);
    let [a, b, c, d] = four(numbers.count);
    let [e, f, g, h] = four(second);
    let [i, j, k, l] = four(third);
    [0xf0, numbers.code, a, b, c, d, e, f, g, h, i, j, k, l]
}

// The two numbers after the count: prefix and cycle on code 0, else place and 0.
fn two_of(numbers: Numbers) -> [usize; 2]
    ensures { result ≡ two numbers }
{
    if numbers.code == 0 {
        [numbers.prefix, numbers.cycle]
    } else {
        [numbers.place, 0]
    }
}

// A number in four bytes, highest byte first.
#[tactic(auto, unfolding(paper::specs::Answer::four_bytes, paper::specs::Answer::two_bytes))]
fn four(x: usize) -> [u8; 4]
    ensures { result ≡ four_bytes x }
{
    let [.., a, b, c, d] = x.to_be_bytes();
    [a, b, c, d]
}

// Puts the lines of a plan's slots at a place of a buffer, and gives the place after them. The loop is not that of crate text
// over entries, since a number can have a trait of that crate only there.
fn put_slots(lines: &mut [u8], at: usize, slots: &[u16]) -> usize
    requires { at + 7 * length slots.now ≤ length lines.old }
    ensures { Puts lines.old at (slot_lines slots.now) result lines.new }
{
    let mut next = at;
    for mask in slots {
        next = digits::put_line(lines, next, &slot_of(*mask));
    }
    next
}

// The frame of a plan slot: `f1` and its mask.
#[tactic(auto, unfolding(paper::specs::Answer::slot_frame, paper::specs::Answer::two_bytes))]
fn slot_of(mask: u16) -> [u8; 3]
    ensures { result ≡ slot_frame mask }
{
    let [high, low] = mask.to_be_bytes();
    [0xf1, high, low]
}
