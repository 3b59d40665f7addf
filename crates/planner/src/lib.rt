// The public calls: check a room, plan it, judge a past.
#![tactic(auto)]

ghost use Rattle.std.specs.Prelude.{◌≡◌};
ghost use Rattle.paper.specs.Reply.{zeros, CheckReply, PlanReply, JudgeReply};
ghost use Rattle.explore.specs.Exploring.{Cleared};
ghost use Rattle.follow.specs.Pasts.{Given};
ghost use Rattle.planner.specs.Calls.{Admits, Settles, PlanAnswers, JudgeAnswers, Plans, Judges};

use paper::{Judged, Planned, Refusal, Room, Undecided};
use room::good::TimedRoom;
use table::Table;

// The longest table: a longer one is refused.
const MOST: usize = 4194304;

// Check a room.
pub fn check(room: Room) -> Result<(), Refusal>
    ensures { CheckReply room result }
{
    room::check(room)
}

// Plan a room: its plan in the lent buffer, or why there is none.
pub fn plan(room: Room, table: &mut [u64], plan: &mut [u16]) -> Result<Planned, Undecided>
    ensures { PlanReply room table.old plan.old result table.new plan.new }
{
    let room = admit(room, table)?;
    let planned = plan_in(&room, &mut Table::new(table), plan);
    leave(table);
    planned
}

// Judge a recorded past: whether it can go on without end, or where it was lost.
pub fn judge(room: Room, table: &mut [u64], past: &[u16]) -> Result<Judged, Undecided>
    ensures { JudgeReply room past.now table.old result table.new }
{
    let room = admit(room, table)?;
    let judged = judge_in(&room, &mut Table::new(table), past);
    leave(table);
    judged
}

// A room that passes the tests before ROOM, 3 to 8 and then TABLE; or the first that it does not.
fn admit(room: Room, table: &[u64]) -> Result<TimedRoom, Undecided>
    ensures { Admits room table.now result }
{
    let good = room::good::admit(room)?;
    if MOST < table.len() {
        return Err(Undecided::Table);
    }
    Ok(TimedRoom::of(good))
}

// Every exit after TABLE: the lent table all zeros.
fn leave(lent: &mut [u64])
    ensures { lent.new ≡ zeros lent.old }
{
    table::clear(lent);
}

// Plan a room in an empty table.
fn plan_in(room: &TimedRoom, table: &mut Table<'_>, plan: &mut [u16]) -> Result<Planned, Undecided>
    requires { Cleared table.old }
    ensures { Plans room.now.room table.old plan.old result plan.new }
{
    settle(room, table)?;
    Ok(answer_plan(room, table, plan))
}

// Judge a past of a room in an empty table.
fn judge_in(room: &TimedRoom, table: &mut Table<'_>, past: &[u16]) -> Result<Judged, Undecided>
    requires { Cleared table.old }
    ensures { Judges room.now.room past.now table.old result }
{
    settle(room, table)?;
    Ok(answer_past(room, table, past))
}

// Explore a room in an empty table and prune that; or ROOM.
fn settle(room: &TimedRoom, table: &mut Table<'_>) -> Result<(), Undecided>
    requires { Cleared table.old }
    ensures { Settles room.now table.old result table.new }
{
    explore::explore(room, table)?;
    prune::prune(room, table);
    Ok(())
}

// The plan of a decided room: NONE, SHORT, or the plan in its buffer.
fn answer_plan(room: &TimedRoom, table: &mut Table<'_>, plan: &mut [u16]) -> Planned
    requires { Given room.now.room room.now.times table.old }
    ensures { PlanAnswers room.now.room table.old.found plan.old result plan.new }
{
    let count = table.found();
    if !states::lives(table, 0) {
        return Planned::None { count };
    }
    let turn = follow::find_turn(table);
    if plan.len() < turn.length {
        return Planned::Short { place: turn.length };
    }
    follow::lay_out(table, plan, turn.length);
    Planned::Good {
        count,
        prefix: turn.prefix,
        cycle: turn.length - turn.prefix,
    }
}

// The verdict on a past of a decided room.
fn answer_past(room: &TimedRoom, table: &Table<'_>, past: &[u16]) -> Judged
    requires { Given room.now.room room.now.times table.now }
    ensures { JudgeAnswers room.now.room table.now.found past.now result }
{
    let count = table.found();
    match follow::follow(room, table, past) {
        Ok(()) => Judged::Good { count },
        Err(lost) => Judged::Out {
            count,
            place: lost.beginning,
        },
    }
}
