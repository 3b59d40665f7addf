// Rooms that the check lets through: a room within the limits, and one with its R and H.
ghost use Rattle.std.specs.Prelude.{◌≡◌};
ghost use Rattle.paper.specs.Room.{Limits, Clock};
ghost use Rattle.room.specs.Good.{Timed, Admits};

use crate::{check, clock};
use paper::{Refusal, Room, Times};
use std::marker::Model;
use std::ops::Deref;

// A room within the limits.
#[derive(Clone, Copy)]
pub struct GoodRoom {
    room: Room,
}

impl Model for GoodRoom {
    ghost use Rattle.paper.specs.declared.Room.{Room};
    ghost use Rattle.paper.specs.Room.{Limits};

    ghost Value = { Room };

    ghost view = { λ a. a.room };

    ghost invariant = { λ a. Limits a.room };

    ghost inverse = { λ room. record { room = room } };
}

impl Deref for GoodRoom {
    type Target = Room;

    ghost deref_gives = { λ good room. (room ≡ good) × Limits good };

    fn deref(&self) -> &Room {
        &self.room
    }
}

impl GoodRoom {
    // A room that is within the limits.
    pub fn of(room: Room) -> GoodRoom
        requires { Limits room }
        ensures { result ≡ room }
    {
        GoodRoom { room }
    }
}

// The room, if none of the refusals 3 to 8 applies; else the first that does.
pub fn admit(room: Room) -> Result<GoodRoom, Refusal>
    ensures { Admits room result }
{
    check(room)?;
    Ok(GoodRoom { room })
}

// A room within the limits, and its R and H.
#[derive(Clone, Copy)]
pub struct TimedRoom {
    room: GoodRoom,
    times: Times,
}

impl Model for TimedRoom {
    ghost use Rattle.paper.specs.Room.{Limits, Clock};
    ghost use Rattle.room.specs.Good.{Timed};

    ghost Value = { Timed };

    ghost view = { λ a. record { room = a.room; times = a.times } };

    ghost invariant = { λ a. Limits a.room × Clock a.room a.times };

    ghost inverse = { λ timed. record { room = timed.room; times = timed.times } };
}

impl TimedRoom {
    // A room within the limits with its R and H.
    pub fn of(room: GoodRoom) -> TimedRoom
        ensures room { result.room ≡ room }
        ensures limits { Limits result.room }
        ensures clock { Clock result.room result.times }
    {
        let times = clock(*room);
        TimedRoom { room, times }
    }

    // A room within the limits, with R and H that are its own.
    pub fn with(room: GoodRoom, times: Times) -> TimedRoom
        requires { Clock room times }
        ensures { (result.room ≡ room) × (result.times ≡ times) }
    {
        TimedRoom { room, times }
    }

    // The room.
    pub fn room(&self) -> &GoodRoom
        ensures room { result.now ≡ self.now.room }
        ensures limits { Limits self.now.room }
        ensures clock { Clock self.now.room self.now.times }
    {
        &self.room
    }

    // Its R and H.
    pub fn times(&self) -> Times
        ensures times { result ≡ self.now.times }
        ensures clock { Clock self.now.room result }
    {
        self.times
    }
}
