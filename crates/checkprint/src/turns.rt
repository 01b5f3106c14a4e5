// One piece after another, and their lines into a buffer that is written when it is full.
ghost use Rattle.std.specs.Prelude.{◌≡◌, ◌+◌, ◌≤◌, ◌<◌, length, List, ℕ, MatchResult};
ghost use Rattle.paper.specs.Padding.{WellFormed};
ghost use Rattle.checkprint.specs.Checked.{IsPiece, line_room, most_bytes, most_pieces, ActsIn};
ghost use Rattle.checkprint.specs.Standing.{SpareIs, Stands, Turned, Ended};

use crate::lines::wire_line;
use crate::pieces::{left_over, read_piece, stop_for};
use crate::{Done, Last, Place, write};
use feed::feed_sound;
use input::{Broken, zeros};
use paper::{Board, LEAST_SLICE};
use sheet::start;
use std::io::{Read, Write};

// The room that a line is lent. A line has 28 bytes at most: a number of 5 digits, two of 10 after a space, and its end.
const LINE_ROOM: usize = 32;

// A piece has 512 bytes at most: a letter, a count and 255 numbers.
const MOST_BYTES: usize = 512;

const MOST_PIECES: u32 = 65535;

// ---- one piece

// A record is fed to the board, with 50 numbers lent; a drawn wire gets its line, from the start of the buffer.
fn step(piece: &[u8], wires: u32, board: Board, line: &mut [u8]) -> Done
    requires { IsPiece piece.now × (wires < most_pieces) × (line_room ≤ length line.old) × WellFormed board }
    ensures { ActsIn board wires piece.now line.old line.new result }
{
    if piece[0] == b'r' {
        let mut answer = [0u16; LEAST_SLICE];
        let reply = feed_sound(board, &piece[1..], &mut answer);
        return Done {
            written: 0,
            wires,
            board: reply.board,
        };
    }
    let written = wire_line(&piece[2..], wires + 1, board, line);
    Done {
        written,
        wires: wires + 1,
        board,
    }
}

// ---- the lines

// Where the next line begins: after those that wait, or, where it has no room there, at the buffer's start, once they are written.
fn line_start<W: Write>(sink: &mut W, out: &[u8], waiting: &mut usize) -> Result<(), Broken>
    requires { (waiting.old ≤ length out.now) × (line_room ≤ length out.now) }
    ensures { SpareIs (length out.now) waiting.old waiting.new result }
{
    let full = *waiting;
    if out.len() - full >= LINE_ROOM {
        return Ok(());
    }
    *waiting = 0;
    write(sink, &out[..full])
}

// The piece's line goes after those that wait, once there is room for it.
fn put_piece<W: Write>(
    sink: &mut W,
    place: &mut Place,
    piece: &[u8],
    out: &mut [u8],
) -> Result<(), Broken>
    requires { Stands place.old out.old × (place.old.pieces < most_pieces) × IsPiece piece.now × (line_room ≤ length out.old) }
    ensures stands { Stands place.new out.new }
    ensures counts { MatchResult result (λ _. place.new.pieces ≡ place.old.pieces + 1) (λ _. place.new.pieces ≡ place.old.pieces) }
{
    line_start(sink, out, &mut place.waiting)?;
    let done = step(piece, place.wires, place.board, &mut out[place.waiting..]);
    *place = Place {
        pieces: place.pieces + 1,
        wires: done.wires,
        waiting: place.waiting + done.written,
        board: done.board,
    };
    Ok(())
}

// One piece more, or the last word: nothing was read, or no piece.
fn take_turn<R: Read, W: Write>(
    source: &mut R,
    sink: &mut W,
    place: &mut Place,
    room: &mut [u8],
    out: &mut [u8],
) -> Result<Option<Last>, Broken>
    requires { Stands place.old out.old × (place.old.pieces < most_pieces) × (length room.old ≡ most_bytes) × (line_room ≤ length out.old) }
    ensures { Turned place.old place.new result out.new }
{
    let size = read_piece(source, room)?;
    let last = stop_for(&room[..size]);
    if last.is_none() {
        put_piece(sink, place, &room[..size], out)?;
    }
    Ok(last)
}

// Before any piece.
pub(crate) fn start_place() -> Place
    ensures { ((buffer : List ℕ) → Stands result buffer) × (result.pieces ≡ 0) }
{
    Place {
        pieces: 0,
        wires: 0,
        waiting: 0,
        board: start(),
    }
}

// All pieces, and a line for each drawn wire; the last of them wait in the buffer. Then the last word.
pub(crate) fn print<R: Read, W: Write>(
    source: &mut R,
    sink: &mut W,
    place: &mut Place,
    out: &mut [u8],
) -> Result<Last, Broken>
    requires { Stands place.old out.old × (place.old.pieces ≡ 0) × (line_room ≤ length out.old) }
    ensures { Ended place.new result out.new }
{
    let mut room = zeros::<MOST_BYTES>();
    for _piece in 0..MOST_PIECES {
        if let Some(last) = take_turn(source, sink, place, &mut room, out)? {
            return Ok(last);
        }
    }
    left_over(source, &mut room)
}
