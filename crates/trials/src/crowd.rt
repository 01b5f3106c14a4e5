// The index that is kept beside the board, and the crowding sheet.
ghost use Rattle.std.specs.Prelude.{◌≤◌};
ghost use Rattle.index.specs.Bits.{most_lines};

use crate::Trial;
use crate::numbers::Numbers;
use beside::crowd_sheet;
use index::{Crowding, Edges, Index, MOST_LINES, same_index};
use std::io;
use tracks::Tracks;

// Whether the index is as it was.
pub(crate) fn say_index(out: &impl Print, before: Index, after: Index) -> io::Result<()> {
    let index = if same_index(before, after) {
        "same"
    } else {
        "changed"
    };
    print!(out; " index {index}")
}

// ---- the sheet

// The lines from one place on, before another.
fn say_lines(
    out: &impl Print,
    letter: char,
    sheet: &Crowding,
    from: usize,
    to: usize,
) -> io::Result<()>
    requires { to ≤ most_lines }
{
    for k in from..to {
        println!(out;
            "{letter} {} {} {}",
            sheet.at[k], sheet.free[k], sheet.stretch[k]
        )?;
    }
    Ok(())
}

fn say_sheet(out: &impl Print, sheet: &Crowding) -> io::Result<()> {
    let upright = sheet.upright.min(MOST_LINES);
    let level = sheet.level.min(MOST_LINES - upright);
    println!(out; "crowd {} {} {}", sheet.code, sheet.upright, sheet.level)?;
    say_lines(out, 'x', sheet, 0, upright)?;
    say_lines(out, 'y', sheet, upright, upright + level)
}

// ---- a bit

fn flip(e: &mut Edges, edge: usize) {
    if edge < 64 {
        e.low ^= 1 << edge;
    } else {
        e.high ^= 1 << (edge % 64);
    }
}

fn flip_bit(index: &mut Index, axis: u16, track: usize, edge: usize) {
    let tracks = if axis == 0 {
        &mut index.upright
    } else {
        &mut index.level
    };
    if let Some(e) = tracks.get_mut(track) {
        flip(e, edge);
    }
}

// ---- a track

fn put_track(index: &mut Index, axis: u16, place: usize, v: u16) {
    let tracks: &mut Tracks = if axis == 0 {
        &mut index.x
    } else {
        &mut index.y
    };
    match tracks.at.get_mut(place) {
        Some(at) => *at = v,
        None => tracks.count = usize::from(v),
    }
}

// ---- the words

pub(crate) fn crowd_word(
    out: &impl Print,
    trial: &mut Trial,
    word: u8,
    n: &Numbers,
) -> io::Result<()> {
    let axis = n.at(0);
    let place = usize::from(n.at(1));
    match word {
        b'i' => trial.beside = true,
        b'c' => say_sheet(out, &crowd_sheet(trial.board, trial.index))?,
        b'B' => flip_bit(&mut trial.index, axis, place, usize::from(n.at(2))),
        b'T' => put_track(&mut trial.index, axis, place, n.at(2)),
        _ => {}
    }
    Ok(())
}
