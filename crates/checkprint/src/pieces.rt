// The pieces of standard input, read one by one.
ghost use Rattle.std.specs.Prelude.{◌≡◌, ◌≤◌, length, IfSome, IfOk};
ghost use Rattle.checkprint.specs.Checked.{most_bytes, most_pieces, SizeFor, StopFor, StopAfter};
ghost use Rattle.checkprint.specs.Standing.{EndsAt};

use crate::Last;
use input::{Broken, read_all};
use std::io::Read;

// How many bytes a piece has, by its letter and the byte after it.
fn piece_size(letter: u8, next: u8) -> Option<usize>
    ensures { SizeFor letter next result × IfSome result (λ size. size ≤ most_bytes) }
{
    match letter {
        b'r' => Some(13),
        b'w' => Some(2 + 2 * usize::from(next)),
        _ => None,
    }
}

// Reads a piece into the room's start, or what there is of it: how many bytes.
pub(crate) fn read_piece<R: Read>(source: &mut R, room: &mut [u8]) -> Result<usize, Broken>
    requires { length room.old ≡ most_bytes }
    ensures { IfOk result (λ size. size ≤ length room.new) }
{
    let head = read_all(source, &mut room[..2])?;
    if head < 2 {
        return Ok(head);
    }
    let Some(size) = piece_size(room[0], room[1]) else {
        return Ok(head);
    };
    let rest = read_all(source, &mut room[2..size])?;
    Ok(2 + rest)
}

// The last word, by the bytes that were read for a piece; none where they are one.
pub(crate) fn stop_for(bytes: &[u8]) -> Option<Last>
    ensures { StopFor bytes.now result }
{
    match bytes {
        [] => Some(Last::End),
        [letter, next, ..] if piece_size(*letter, *next) == Some(bytes.len()) => None,
        _ => Some(Last::Bad),
    }
}

// The last word, by the bytes that were read after the last piece: a single one is input left.
fn stop_after(bytes: &[u8]) -> Last
    ensures { StopAfter bytes.now result }
{
    if bytes.is_empty() {
        Last::End
    } else {
        Last::Cut
    }
}

// The last word once 65,535 pieces are read.
pub(crate) fn left_over<R: Read>(source: &mut R, room: &mut [u8]) -> Result<Last, Broken>
    requires { length room.old ≡ most_bytes }
    ensures { EndsAt result most_pieces }
{
    let size = read_all(source, &mut room[..1])?;
    Ok(stop_after(&room[..size]))
}
