// Reads records and drawn wires on standard input, and prints what is said of each wire.
//
// The input is pieces, one after another:
//   r and twelve bytes          a record, which is fed to the board
//   w, a byte n and n numbers   a drawn wire, by x and y of each corner; a number is two bytes, the low one first
// Each drawn wire gets a line: its number from 1, the code, then with 0 the excess, with 9, 20, 23 and 24 the run. The last line is `end`;
// `bad` where a piece is cut short or has another letter; `cut` where input is left after 65,535 pieces.
//
// What a piece does, which line it gets and which word comes last is proved; which bytes a system call moves is assumed.
#![tactic(auto)]

mod lines;
mod pieces;
mod turns;

use input::{Broken, zeros};
use lines::put_last;
use paper::Board;
use std::io::{Read, Write};
use turns::{print, start_place};

// The word of the last line.
#[derive(Clone, Copy, PartialEq, Eq, Debug)]
enum Last {
    End,
    Bad,
    Cut,
}

// What a piece leaves: how many bytes its line has, the drawn wires so far, and the board.
#[derive(Clone, Copy)]
struct Done {
    written: usize,
    wires: u32,
    board: Board,
}

// Where the printing stands: the pieces and the drawn wires so far, the bytes that wait in the buffer, and the board.
#[derive(Clone, Copy)]
struct Place {
    pieces: u32,
    wires: u32,
    waiting: usize,
    board: Board,
}

// Every line, then the last one.
fn run<R: Read, W: Write>(source: &mut R, sink: &mut W) -> Result<(), Broken> {
    let mut out = zeros::<65536>();
    let mut place = start_place();
    let ended = print(source, sink, &mut place, &mut out);
    write(sink, &out[..place.waiting])?;
    let n = put_last(&mut out, ended?);
    write(sink, &out[..n])
}

fn write<W: Write>(sink: &mut W, bytes: &[u8]) -> Result<(), Broken> {
    sink.write_all(bytes).map_err(|_| Broken::Unwritten)
}

fn main(rt: HostRuntime) {
    let mut source = rt.stdin();
    let mut sink = rt.stdout();
    if let Err(broken) = run(&mut source, &mut sink) {
        let _ = eprintln!(rt; "checkprint: {broken}");
    }
}
