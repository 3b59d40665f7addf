// Runs the paper's rows, and then rooms and pasts made by a fixed generator, through the planner and
// the second planner. It writes each row's name and reply, every difference, and how often each reply
// came.
#![tactic(auto)]

mod words; // replies and plans in words
mod report; // what is written, and how often each reply came
mod hand; // the rows of the paper
mod chance; // numbers that look like chance
mod made; // rooms made from them
mod pasts; // pasts made from them
mod trial; // a made room and its pasts through both planners

use report::Report;
use std::io;

fn main(rt: HostRuntime) -> io::Result<()> {
    let mut report = Report::new(rt.stdout());
    hand::all_rows(&mut report)?;
    trial::all_rooms(&mut report)?;
    report.close()
}
