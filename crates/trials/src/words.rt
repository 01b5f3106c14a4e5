// The words of the script.
ghost use Rattle.std.specs.Prelude.{◌≤◌};

use crate::bytes::{bytes_of, low, record_of};
use crate::numbers::Numbers;
use crate::say::{say_board, say_judged, say_slice};
use crate::{MOST_BYTES, MOST_LENT, Trial, feed_bytes};
use drawn::judge;
use paper::{Board, Change, Item, MOST_CORNERS, Size};
use std::io;

pub(crate) fn record_word(
    out: &impl Print,
    trial: &mut Trial,
    word: u8,
    n: &Numbers,
) -> io::Result<()> {
    let first = n.at(0);
    let record = match word {
        b'b' => record_of(1, 0, n.four(0)),
        b'k' => record_of(2, first, n.four(1)),
        b'l' => record_of(3, first, n.four(1)),
        b'a' => record_of(4, 0, n.four(0)),
        b't' => record_of(5, first, n.four(1)),
        b'u' => record_of(6, 0, n.four(0)),
        b'r' => record_of(first, n.at(1), n.four(2)),
        _ => return other_word(out, trial, word, n),
    };
    feed_bytes(out, trial, &record)
}

fn other_word(out: &impl Print, trial: &mut Trial, word: u8, n: &Numbers) -> io::Result<()> {
    match word {
        b'p' => feed_bytes(out, trial, &bytes_of(n)[..n.count.min(MOST_BYTES)]),
        b'w' => say_judged(out, &judge(trial.board, n.told())),
        b'#' => Ok(()),
        _ => println!(out; "unknown word"),
    }
}

pub(crate) fn look_word(
    out: &impl Print,
    trial: &mut Trial,
    word: u8,
    n: &Numbers,
) -> io::Result<()> {
    match word {
        b's' => trial.lent = usize::from(n.at(0)),
        b'v' => say_slice(out, &trial.slice[..trial.lent.min(MOST_LENT)])?,
        b'd' => say_board(out, &trial.board)?,
        b'm' => trial.marked = trial.board,
        b'e' => {
            let boards = if trial.board == trial.marked {
                "equal"
            } else {
                "different"
            };
            println!(out; "{boards}")?;
        }
        _ => {}
    }
    Ok(())
}

// Every second number from a place on.
fn every_second(n: &Numbers, from: usize) -> [u16; MOST_CORNERS]
    requires { from ≤ 5 }
{
    let mut out = [0u16; MOST_CORNERS];
    for k in 0..MOST_CORNERS {
        out[k] = n.at(from + 2 * k);
    }
    out
}

fn item_at(n: &Numbers, from: usize) -> Item
    requires { from ≤ 2 }
{
    Item {
        id: n.at(from),
        runs: low(n.at(from + 1)),
        xs: every_second(n, from + 2),
        ys: every_second(n, from + 3),
    }
}

pub(crate) fn write_word(board: &mut Board, word: u8, n: &Numbers) {
    let first = usize::from(n.at(0));
    match word {
        b'S' => board.size = Size {
            w: n.at(0),
            h: n.at(1),
            clearance: n.at(2),
        },
        b'I' => board.count = first,
        b'K' => board.kept = first,
        b'P' => {
            if let Some(item) = board.items.get_mut(first) {
                *item = item_at(n, 1);
            }
        }
        b'C' => {
            if let Some(change) = board.changes.get_mut(first) {
                *change = Change {
                    kind: low(n.at(1)),
                    item: item_at(n, 2),
                };
            }
        }
        _ => {}
    }
}
