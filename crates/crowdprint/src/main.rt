// Reads records on standard input and prints the crowding sheet of the board that they leave.
//
// A line for each track, the upright ones first: `x` or `y`, where the track stands, how many of its edges are open, and how many of them in a
// row from its low end on. Before any bounds a line with the code 2 stands for them. The last line is `end`, or `cut` where input is left after
// 65,535 records.
//
// What stands in the buffer when it is written is proved (specs/Crowded.antt); which bytes a system call moves is assumed.
#![tactic(auto)]

ghost use Rattle.std.specs.Prelude.{◌≡◌, List, ℕ, ◌+◌, ◌*◌, ◌≤◌, ◌<◌, length};
ghost use Rattle.text.specs.Text.{Puts, Writes};
ghost use Rattle.sheet.specs.Sheet.{most_records};
ghost use Rattle.beside.specs.Beside.{Agrees};
ghost use Rattle.index.specs.Bits.{most_lines};
ghost use Rattle.crowdprint.specs.Crowded.{FedNext, Leaves, Over, line_in, lines_in, shown, CrowdingOf};

use beside::{Kept, crowd_sheet, feed_kept};
use crowding::of_board;
use index::{Crowding, Index};
use input::{Broken, FILE_ROOM, read_all, zeros};
use paper::{Board, LEAST_SLICE};
use sheet::{after_record, put_last, start};
use std::io::{Read, Write};
use text::{put_byte, put_next, put_number};

// ---- feeding

// What the records leave: how many they are, the board, and the index beside it.
#[derive(Clone, Copy)]
struct Left {
    records: usize,
    board: Board,
    index: Index,
}

// The record after so many others is fed, with 50 numbers lent.
fn feed_next(file: &[u8], records: usize, board: Board, index: Index) -> Kept
    requires { (12 * records < length file.now) × (records < most_records) × Agrees board index }
    ensures { FedNext file.now records board result.reply × Agrees result.reply.board result.index }
{
    let at = 12 * records;
    let next = after_record(file.len(), at);
    let mut answer = [0u16; LEAST_SLICE];
    feed_kept(board, index, &file[at..next], &mut answer)
}

// Every record of the file, up to 65,535 of them, is fed in turn.
fn feed_all(file: &[u8]) -> Left
    ensures { Leaves file.now result.records result.board × Over file.now result.records × Agrees result.board result.index }
{
    let records = file.len().div_ceil(12).min(65535);
    let mut board = start();
    let mut index = of_board(board);
    for k in 0..records {
        let kept = feed_next(file, k, board, index);
        board = kept.reply.board;
        index = kept.index;
    }
    Left {
        records,
        board,
        index,
    }
}

// ---- printing

// The letter and the three numbers of track k. A line has 35 bytes at most: each number is 10 digits at most, after a space.
fn put_line(out: &mut [u8], at: usize, letter: u8, sheet: Crowding, k: usize) -> usize
    requires { (k < most_lines) × (at + 35 ≤ length out.old) }
    ensures { Writes (line_in letter sheet k) out.old at out.new result × (result ≤ at + 35) }
{
    let named = put_byte(out, at, letter);
    let stands = put_next(out, named, u32::from(sheet.at[k]));
    let free = put_next(out, stands, u32::from(sheet.free[k]));
    let stretch = put_next(out, free, u32::from(sheet.stretch[k]));
    put_byte(out, stretch, b'\n')
}

// The lines of n tracks, the first of them `from`.
fn put_lines(out: &mut [u8], at: usize, letter: u8, sheet: Crowding, from: usize, n: usize) -> usize
    requires { (from + n ≤ most_lines) × (at + 35 * n ≤ length out.old) }
    ensures { Writes (lines_in letter sheet from n) out.old at out.new result × (result ≤ at + 35 * n) }
{
    let mut next = at;
    for k in 0..n {
        next = put_line(out, next, letter, sheet, from + k);
    }
    next
}

// The lines of a sheet, from the buffer's start; its code where it has none.
fn put_sheet(out: &mut [u8], sheet: Crowding) -> usize
    requires { (sheet.upright + sheet.level ≤ most_lines) × (6720 ≤ length out.old) }
    ensures { Writes (shown sheet) out.old 0 out.new result × (result ≤ 6720) }
{
    if sheet.code != 0 {
        let coded = put_number(out, 0, u32::from(sheet.code));
        return put_byte(out, coded, b'\n');
    }
    let next = put_lines(out, 0, b'x', sheet, 0, sheet.upright);
    put_lines(out, next, b'y', sheet, sheet.upright, sheet.level)
}

// The whole text, from the buffer's start: how many bytes it has. 192 lines and the last one, of 4 bytes, are 6,724 at most.
fn put_all(file: &[u8], out: &mut [u8]) -> usize
    requires { 6724 ≤ length out.old }
    ensures { (text : List ℕ) × CrowdingOf file.now text × Puts text out.old 0 out.new result }
{
    let left = feed_all(file);
    let next = put_sheet(out, crowd_sheet(left.board, left.index));
    let last = put_last(&mut out[next..], 12 * left.records < file.len());
    next + last
}

// ---- reading and writing

// The text of the records of an input.
fn print<R: Read, W: Write>(source: &mut R, sink: &mut W) -> Result<(), Broken> {
    let mut room = zeros::<FILE_ROOM>();
    let size = read_all(source, &mut room)?;
    let mut out = zeros::<65536>();
    let n = put_all(&room[..size], &mut out);
    sink.write_all(&out[..n]).map_err(|_| Broken::Unwritten)
}

// Where a read or a write fails, a line on standard error says so.
fn main(rt: HostRuntime) {
    let mut source = rt.stdin();
    let mut sink = rt.stdout();
    if let Err(broken) = print(&mut source, &mut sink) {
        let _ = eprintln!(rt; "crowdprint: {broken}");
    }
}
