// Prints the sheet of the records on standard input. A library, since more than one program does it.
//
// What stands in the buffer when it is written is proved (specs/Filled.antt, by the steps of crates/sheet); which bytes a system call moves is
// assumed.
#![tactic(auto)]

ghost use Rattle.std.specs.Prelude.{◌≡◌, ◌≤◌, length};
ghost use Rattle.printer.specs.Filled.{Within, Fills, AllPrinted, HoldsLast};

use input::{Broken, FILE_ROOM, read_all, zeros};
use paper::Board;
use sheet::{LINE_ROOM, put_last, start, step};
use std::io;
use std::io::{Read, Write};

// ---- printing

// Where the printing stands: the place in the file, the records before it, the bytes that wait in the buffer, and the board.
#[derive(Clone, Copy)]
struct Place {
    at: usize,
    records: u32,
    waiting: usize,
    board: Board,
}

// Lines are written into the buffer until it has no room for another or the records end.
fn fill(file: &[u8], from: Place, out: &mut [u8]) -> Place
    requires { Within file.now from.at from.records from.board }
    ensures { Fills file.now from out.old out.new result }
{
    let mut place = Place { waiting: 0, ..from };
    // No `for`: a turn goes on by a whole record in the file and by a whole line in the buffer, and no index is counted.
    while place.at < file.len() && place.records < 65535 && out.len() - place.waiting >= LINE_ROOM {
        let line = step(
            file,
            place.at,
            place.records + 1,
            place.board,
            &mut out[place.waiting..],
        );
        place = Place {
            at: line.next,
            records: place.records + 1,
            waiting: place.waiting + line.written,
            board: line.board,
        };
    }
    place
}

// The last line, by way of the buffer, once every record is printed and the place is `at`.
fn finish<W: Write>(sink: &mut W, file: &[u8], at: usize, out: &mut [u8]) -> io::Result<()>
    requires { AllPrinted file.now at × (4 ≤ length out.old) }
    ensures { HoldsLast file.now at out.old out.new }
{
    let n = put_last(out, at < file.len());
    sink.write_all(&out[..n])
}

// All lines, a buffer of them at a time.
fn print<W: Write>(sink: &mut W, file: &[u8]) -> io::Result<()> {
    let mut out = zeros::<65536>();
    let mut place = Place {
        at: 0,
        records: 0,
        waiting: 0,
        board: start(),
    };
    loop {
        let before = place.records;
        place = fill(file, place, &mut out);
        sink.write_all(&out[..place.waiting])?;
        if place.records == before {
            break;
        }
    }
    finish(sink, file, place.at, &mut out)
}

// All records of an input, printed.
fn print_input<R: Read, W: Write>(source: &mut R, sink: &mut W) -> Result<(), Broken> {
    let mut room = zeros::<FILE_ROOM>();
    let size = read_all(source, &mut room)?;
    print(sink, &room[..size]).map_err(|_| Broken::Unwritten)
}

// All records of standard input, printed on standard output. Where a read or a write fails, a line on standard error says so.
pub fn run<R: Read, W: Write>(source: &mut R, sink: &mut W, rt: &impl Eprint) {
    if let Err(broken) = print_input(source, sink) {
        let _ = eprintln!(rt; "sheet: {broken}");
    }
}
