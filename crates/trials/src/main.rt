// Feeds the records of a script to boards, damaged ones too, and prints what comes of each.
//
// A line of the script is a word, whose first letter counts, and numbers; what follows a '#' is for the reader.
//   = TITLE                    a trial begins: the line is printed, the board is one before any bounds, 50 numbers are lent
//   bounds W H C               the record is fed to the board; so are keepout ID X0 Y0 X1 Y1, lay ID SX SY TX TY, ask SX SY TX TY, takeout ID, undo
//   record KIND ID A B C D     the same of any six fields
//   piece BYTE..               the same of 0 to 24 bytes
//   wire X Y X Y ..           judged as a wire drawn by hand
//   slice N                    from here on N numbers are lent, at most 60
//   view                       prints the numbers that were lent last, as they stand now
//   display                    prints the board
//   index                      from here on an index is kept beside the board, at first one of all zeros, and records are fed to both
//   crowd                      prints the crowding sheet of the board and the index: its code, how many tracks, a line for each
//   Bit AXIS TRACK EDGE        turns a bit of the index over: AXIS 0 for upright tracks, 1 for level ones
//   Track AXIS PLACE V         writes where a track stands; past the last place, how many there are
//   mark, equal                remembers the board; prints whether the board is that one, number for number
//   Size W H C, Items N, Kept N, Put PLACE ID RUNS X:Y.., Change PLACE KIND ID RUNS X:Y..
//                              written into the board, as a caller may hand in any
// A record fed prints its number in the trial, code, the pin and the id if not both are 0, length, detour, how many corners, the corners, `same`
// or `changed` for the board, and `kept` if the numbers past the last corner are the marks that stood there before, else `touched`; where an
// index is kept, also `same` or `changed` for that. A drawn wire prints `drawn`, its code, run and excess.
#![tactic(auto)]

mod bytes;
mod crowd;
mod lent;
mod lossy;
mod numbers;
mod say;
mod words;

use beside::{Kept, feed_beside};
use crowd::{crowd_word, say_index};
use feed::feed;
use index::{Index, no_index};
use input::{read_all, zeros};
use items::begin;
use lent::marks;
use lossy::Lossy;
use numbers::numbers_of;
use paper::{Board, LEAST_SLICE, Size};
use say::say_reply;
use std::io;
use words::{look_word, record_word, write_word};

const MOST_LENT: usize = 60;

const MOST_BYTES: usize = 24;

const MOST_NUMBERS: usize = 64;

// ---- a trial

// `fed`: how many records so far; `slice`: what was lent last; `beside`: the index is kept.
#[derive(Clone, Copy)]
struct Trial {
    board: Board,
    marked: Board,
    index: Index,
    beside: bool,
    lent: usize,
    slice: [u16; MOST_LENT],
    fed: u32,
}

fn fresh() -> Board {
    begin(Size {
        w: 0,
        h: 0,
        clearance: 0,
    })
}

fn new_trial() -> Trial {
    Trial {
        board: fresh(),
        marked: fresh(),
        index: no_index(),
        beside: false,
        lent: LEAST_SLICE,
        slice: marks(),
        fed: 0,
    }
}

// The bytes are fed to the board, and to the index if one is kept.
fn fed(trial: &Trial, bytes: &[u8], answer: &mut [u16]) -> Kept {
    if trial.beside {
        return feed_beside(trial.board, trial.index, bytes, answer);
    }
    Kept {
        reply: feed(trial.board, bytes, answer),
        index: trial.index,
    }
}

// The bytes are fed, and what they leave is told.
fn feed_bytes(out: &impl Print, trial: &mut Trial, bytes: &[u8]) -> io::Result<()> {
    let lent = trial.lent.min(MOST_LENT);
    let mut slice = marks();
    let kept = fed(trial, bytes, &mut slice[..lent]);
    trial.fed = trial.fed.saturating_add(1);
    print!(out; "{}", trial.fed)?;
    say_reply(out, &kept.reply, &slice, kept.reply.board == trial.board)?;
    if trial.beside {
        say_index(out, trial.index, kept.index)?;
    }
    trial.board = kept.reply.board;
    trial.index = kept.index;
    trial.slice = slice;
    println!(out;)
}

// ---- the script

fn title(out: &impl Print, trial: &mut Trial, line: &[u8]) -> io::Result<()> {
    *trial = new_trial();
    out.write_all(line)?;
    println!(out;)
}

fn follow(out: &impl Print, trial: &mut Trial, line: &[u8]) -> io::Result<()> {
    let Some(&word) = line.first() else {
        return Ok(());
    };
    let n = numbers_of(line);
    match word {
        b'=' => title(out, trial, line),
        b'S' | b'I' | b'K' | b'P' | b'C' => {
            write_word(&mut trial.board, word, &n);
            Ok(())
        }
        b's' | b'v' | b'd' | b'm' | b'e' => look_word(out, trial, word, &n),
        b'i' | b'c' | b'B' | b'T' => crowd_word(out, trial, word, &n),
        _ => record_word(out, trial, word, &n),
    }
}

fn run(out: &impl Print, script: &[u8]) -> io::Result<()> {
    let mut trial = new_trial();
    for line in script.split(|byte| *byte == b'\n') {
        follow(out, &mut trial, line)?;
    }
    println!(out; "end")
}

fn main(rt: HostRuntime) {
    let mut room = zeros::<65536>();
    let mut source = rt.stdin();
    let size = read_all(&mut source, &mut room).unwrap_or_else(|failed| failed.size);
    let _ = run(&Lossy { out: &rt }, &room[..size]);
}
