// An input, as the standard one, read into a lent room, and why a program that reads and prints breaks off. A library, since more than one
// program does it.
//
// Which bytes a system call moves is assumed; that they lie within the room is proved.
#![tactic(auto)]

ghost use Rattle.std.specs.Prelude.{◌≡◌, ◌≤◌, length, MatchResult};
ghost use Rattle.input.specs.declared.Broken.TheVariants.{Unread};

use std::fmt;
use std::io::Read;

// Room for 65,535 records of 12 bytes and one byte more, to see that input is left.
pub const FILE_ROOM: usize = 786421;

// A read failed: how much was read before.
#[derive(Clone, Copy, PartialEq, Eq, Debug)]
pub struct Failed {
    pub size: usize,
}

// Reads until the room is full, the input ends or a read fails: how much was read.
pub fn read_all<R: Read>(source: &mut R, room: &mut [u8]) -> Result<usize, Failed>
    ensures { MatchResult result (λ size. size ≤ length room.new) (λ failed. failed.size ≤ length room.new) }
{
    let mut done: usize = 0;
    // No `for`: `done` counts the bytes that came, and a turn brings as many as the source gives.
    while done < room.len() {
        let more = source
            .read(&mut room[done..])
            .map_err(|_| Failed { size: done })?;
        if more == 0 {
            break;
        }
        done += more;
    }
    Ok(done)
}

// Why a program breaks off: a read failed, or a write did.
#[derive(Clone, Copy, PartialEq, Eq, Debug)]
pub enum Broken {
    Unread,
    Unwritten,
}

impl fmt::Display for Broken {
    ghost use Rattle.std.specs.Prelude.{Some};
    ghost use Rattle.input.specs.Messages.{message};

    ghost output = { λ broken. Some (message broken) };

    fn fmt<W: fmt::Write>(&self, f: &mut fmt::Formatter<W>) -> fmt::Result {
        match self {
            Broken::Unread => f.write_str("standard input cannot be read"),
            Broken::Unwritten => f.write_str("standard output cannot be written"),
        }
    }
}

impl From<Failed> for Broken {
    ghost from_gives = { λ _ broken. broken ≡ Unread };

    fn from(_failed: Failed) -> Broken {
        Broken::Unread
    }
}

// So many zeros, for what moves much data.
pub fn zeros<const N: usize>() -> [u8; N]
    ensures { N ≡ length result }
{
    [0; N]
}
