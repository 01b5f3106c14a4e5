// Printing: a reply, a board, the numbers that were lent.
ghost use Rattle.std.specs.Prelude.{◌≤◌};

use crate::MOST_LENT;
use crate::lent::kept_from;
use paper::{Board, Item, Judged, MOST_BLOCKS, MOST_CORNERS, MOST_KEPT, MOST_RUNS, Reply};
use std::io;

fn say_corner(out: &impl Print, x: u16, y: u16) -> io::Result<()> {
    print!(out; " {x}:{y}")
}

pub(crate) fn say_reply(
    out: &impl Print,
    reply: &Reply,
    slice: &[u16; MOST_LENT],
    same: bool,
) -> io::Result<()> {
    let corners = reply.corners.min(MOST_CORNERS);
    print!(out; " {}", reply.code)?;
    // the pin and the item, where one is named
    if reply.pin != 0 || reply.id != 0 {
        print!(out; " pin {} id {}", reply.pin, reply.id)?;
    }
    print!(out; " {} {} {}", reply.length, reply.detour, reply.corners)?;
    for corner in slice[..2 * corners].chunks_exact(2) {
        say_corner(out, corner[0], corner[1])?;
    }
    let board = if same { "same" } else { "changed" };
    let rest = if kept_from(slice, 2 * corners) {
        "kept"
    } else {
        "touched"
    };
    print!(out; " {board} {rest}")
}

pub(crate) fn say_judged(out: &impl Print, r: &Judged) -> io::Result<()> {
    println!(out; "drawn {} {} {}", r.code, r.run, r.excess)
}

// A keep-out has two.
fn corners_of(runs: u8) -> usize
    ensures { result ≤ 25 }
{
    if runs == 0 {
        2
    } else {
        usize::from(runs).min(MOST_RUNS) + 1
    }
}

fn say_item(out: &impl Print, item: &Item) -> io::Result<()> {
    print!(out; " {} {}", item.id, item.runs)?;
    for k in 0..corners_of(item.runs) {
        say_corner(out, item.xs[k], item.ys[k])?;
    }
    println!(out;)
}

fn say_items(out: &impl Print, board: &Board) -> io::Result<()> {
    for item in &board.items[..board.count.min(MOST_BLOCKS)] {
        print!(out; "item")?;
        say_item(out, item)?;
    }
    Ok(())
}

fn say_changes(out: &impl Print, board: &Board) -> io::Result<()> {
    for change in &board.changes[..board.kept.min(MOST_KEPT)] {
        print!(out; "kept {}", change.kind)?;
        say_item(out, &change.item)?;
    }
    Ok(())
}

pub(crate) fn say_board(out: &impl Print, board: &Board) -> io::Result<()> {
    println!(out;
        "size {} {} {}",
        board.size.w, board.size.h, board.size.clearance
    )?;
    say_items(out, board)?;
    say_changes(out, board)
}

pub(crate) fn say_slice(out: &impl Print, slice: &[u16]) -> io::Result<()> {
    print!(out; "slice")?;
    for v in slice {
        print!(out; " {v}")?;
    }
    println!(out;)
}
