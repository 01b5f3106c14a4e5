// The sheet: a line for each record of a file, written into a lent buffer.
#![tactic(auto)]

ghost use Rattle.std.specs.Prelude.{◌≡◌, [], ◌∷◌, ◌+◌, ◌-◌, ◌*◌, ◌≤◌, ◌<◌, min, length, take};
ghost use Rattle.text.specs.Text.{Part.number, Part.byte, Writes};
ghost use Rattle.sheet.specs.Sheet.{corners_in, wire_in, blame_in, line_of, last_line, line_room, StepsIn};
ghost use Rattle.paper.specs.Layout.{fresh};
ghost use Rattle.paper.specs.Padding.{board_of, WellFormed};

use feed::feed_sound;
use items::begin;
use paper::{Board, LEAST_SLICE, Reply, Size};
use text::{put_byte, put_next, put_number, put_word};

// The room that a line is lent: a number of 5 digits, a code of 3, a pin of 3 and an id of 5, a length and a detour of 10, 25 corners of
// 11, a space before each but the first, and its end are 342 bytes. The rest is for `put_number`, which asks for 10 places.
pub const LINE_ROOM: usize = 346;

// ---- a line

// A space, and a corner as x:y.
fn put_corner(buffer: &mut [u8], at: usize, x: u16, y: u16) -> usize
    requires { at + 17 ≤ length buffer.old }
    ensures { Writes (corners_in (x ∷ y ∷ [])) buffer.old at buffer.new result × (result ≤ at + 12) }
{
    let across = put_next(buffer, at, u32::from(x));
    let parted = put_byte(buffer, across, b':');
    put_number(buffer, parted, u32::from(y))
}

// The corners, x and y of each.
fn put_corners(buffer: &mut [u8], at: usize, corners: &[u16]) -> usize
    requires { at + 6 * length corners.now + 5 ≤ length buffer.old }
    ensures { Writes (corners_in corners.now) buffer.old at buffer.new result × (result ≤ at + 6 * length corners.now) }
{
    let mut next = at;
    for k in 0..corners.len() / 2 {
        next = put_corner(buffer, next, corners[k + k], corners[k + k + 1]);
    }
    next
}

// Length, detour and corners; nothing where there are no corners.
fn put_wire(buffer: &mut [u8], at: usize, long: u32, away: u32, corners: &[u16]) -> usize
    requires { (length corners.now ≤ 50) × (at + 327 ≤ length buffer.old) }
    ensures { Writes (wire_in long away corners.now) buffer.old at buffer.new result × (result ≤ at + 322) }
{
    if corners.is_empty() {
        return at;
    }
    let told = put_next(buffer, at, long);
    let next = put_next(buffer, told, away);
    put_corners(buffer, next, corners)
}

// The pin and the item's id; nothing where no pin is named.
fn put_blame(buffer: &mut [u8], at: usize, pin: u8, id: u16) -> usize
    requires { at + 15 ≤ length buffer.old }
    ensures { Writes (blame_in pin id) buffer.old at buffer.new result × (result ≤ at + 10) }
{
    if pin == 0 {
        return at;
    }
    let named = put_next(buffer, at, u32::from(pin));
    put_next(buffer, named, u32::from(id))
}

// The line of the record with the number n, from the buffer's start: how many bytes it has.
fn put_line(buffer: &mut [u8], n: u32, reply: &Reply, answer: &[u16]) -> usize
    requires { (n ≤ 65535) × (reply.now.corners ≤ 25) × (reply.now.corners + reply.now.corners ≤ length answer.now) × (line_room ≤ length buffer.old) }
    ensures { Writes (line_of n reply.now answer.now) buffer.old 0 buffer.new result }
{
    let corners = &answer[..reply.corners + reply.corners];
    let first = put_number(buffer, 0, n);
    let coded = put_next(buffer, first, u32::from(reply.code));
    let blamed = put_blame(buffer, coded, reply.pin, reply.id);
    let next = put_wire(buffer, blamed, reply.length, reply.detour, corners);
    put_byte(buffer, next, b'\n')
}

// ---- the last line

// The sheet's last line, from the buffer's start: how many bytes it has.
pub fn put_last(buffer: &mut [u8], left: bool) -> usize
    requires { 4 ≤ length buffer.old }
    ensures { Writes (last_line left) buffer.old 0 buffer.new result }
{
    if left {
        put_word(buffer, b"cut")
    } else {
        put_word(buffer, b"end")
    }
}

// ---- one step

// The board before any bounds, from which the steps go.
pub fn start() -> Board
    ensures { (result ≡ board_of fresh) × WellFormed result }
{
    begin(Size {
        w: 0,
        h: 0,
        clearance: 0,
    })
}

// What a record leaves: the place after it, how many bytes its line has, and the board.
#[derive(Clone, Copy, PartialEq, Eq, Debug)]
pub struct Printed {
    pub next: usize,
    pub written: usize,
    pub board: Board,
}

// The place after the record that begins at `at`: 12 bytes on, or the file's end.
pub fn after_record(size: usize, at: usize) -> usize
    requires { at < size }
    ensures { result ≡ at + min 12 (size - at) }
{
    at + (size - at).min(12)
}

// The record that begins at `at` is fed to the board, with 50 numbers lent, and its line written from the buffer's start.
pub fn step(file: &[u8], at: usize, n: u32, board: Board, line: &mut [u8]) -> Printed
    requires { (at < length file.now) × (n ≤ 65535) × (line_room ≤ length line.old) × WellFormed board }
    ensures { StepsIn file.now at n board line.old line.new result }
{
    let next = after_record(file.len(), at);
    let mut answer = [0u16; LEAST_SLICE];
    let reply = feed_sound(board, &file[at..next], &mut answer);
    let written = put_line(line, n, &reply, &answer);
    Printed {
        next,
        written,
        board: reply.board,
    }
}
