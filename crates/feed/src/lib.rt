// One record fed to one board: the codes in their order, and what an accepted record does.
#![tactic(auto)]

mod answers;
mod quiet;
mod tests;
mod wires;

ghost use Rattle.std.specs.Prelude.{◌≡◌, length, get_or};
ghost use Rattle.paper.specs.Codes.{code_of};
ghost use Rattle.paper.specs.Padding.{WellFormed};
ghost use Rattle.paper.specs.Answer.{plain, Fed};
ghost use Rattle.paper.specs.Laws.Feeds.{refusing};
ghost use Rattle.feed.specs.Feeding.{about_none, said_of, untold_of};

use answers::{ask, lay};
use paper::{Board, Refusal, Reply};
use quiet::{bounds, keep_out, take_out, undo_latest};
use records::read;
use router::{Untold, Wire};
use soundness::sound;

// ---- why a record is refused

// The reason; with a blocked pin which one it is, 1 or 2, and the id of the item that blocks it; else two zeros, as the reply and `Gives` have them.
#[derive(Clone, Copy, PartialEq, Eq, Debug)]
struct Blame {
    why: Refusal,
    pin: u8,
    id: u16,
}

// The reason, about no pin.
impl From<Refusal> for Blame {
    ghost from_gives = { λ why blame. blame ≡ about_none why };

    fn from(why: Refusal) -> Blame {
        Blame { why, pin: 0, id: 0 }
    }
}

// Why the router tells no wire.
impl From<Untold> for Blame {
    ghost from_gives = { λ untold blame. blame ≡ untold_of untold };

    fn from(untold: Untold) -> Blame {
        match untold {
            Untold::NoWire => Blame::from(Refusal::NoWire),
            Untold::TooManyRuns(_) => Blame::from(Refusal::TooManyRuns),
        }
    }
}

// A wire that may be told, and how many blocks the board has.
#[derive(Clone, Copy, PartialEq, Eq, Debug)]
struct Wired {
    wire: Wire,
    blocks: usize,
}

// ---- replies without a wire

// The record is accepted, and this is the board then.
fn accepted(board: Board) -> Reply
    ensures { result ≡ refusing (plain 0) board }
{
    Reply {
        code: 0,
        pin: 0,
        id: 0,
        length: 0,
        detour: 0,
        corners: 0,
        board,
    }
}

// The record is refused, and the board stays.
fn blamed(board: Board, blame: Blame) -> Reply
    ensures { result ≡ refusing (said_of blame) board }
{
    Reply {
        code: u8::from(blame.why),
        pin: blame.pin,
        id: blame.id,
        length: 0,
        detour: 0,
        corners: 0,
        board,
    }
}

// The same about no pin.
fn refused(board: Board, why: Refusal) -> Reply
    ensures { result ≡ refusing (plain (code_of why)) board }
{
    blamed(board, Blame::from(why))
}

// ---- the whole

// The first byte, or 0 where there is none.
fn kind_of(bytes: &[u8]) -> u8
    ensures { result ≡ get_or bytes.now 0 0 }
{
    bytes.first().copied().unwrap_or(0)
}

// A record fed to a board that is well formed, for callers that keep the board themselves. That it is so stays a clause and is no type of its
// own: `Fed` speaks of the board as it is handed in and handed back. The kind is a number, for the match that document 01 names.
// Never inlined: where it is, each record's board is copied once more before its kind is looked at.
#[tactic(auto, using(crate::proofs::ByKind::case_read, crate::proofs::ByKind::fed_of_no_kind))]
#[inline(never)]
pub fn feed_sound(board: Board, bytes: &[u8], answer: &mut [u16]) -> Reply
    requires { WellFormed board }
    ensures { Fed board bytes.now answer.old answer.new result × WellFormed result.board }
{
    let rec = read(bytes);
    match kind_of(bytes) {
        1 => bounds(board, rec),
        2 => keep_out(board, rec),
        3 | 9 => lay(board, rec, answer),
        4 | 8 => ask(board, rec, answer),
        5 => take_out(board, rec),
        6 => undo_latest(board, rec),
        0 | 7 | 10..=255 => refused(board, Refusal::Malformed),
    }
}

// A record fed to any board, with any bytes and any slice lent.
#[tactic(auto, using(paper::specs::Laws::Feeds::fed_ill, paper::specs::Laws::Says::said, paper::specs::Laws::Says::said_not))]
pub fn feed(board: Board, bytes: &[u8], answer: &mut [u16]) -> Reply
    ensures { Fed board bytes.now answer.old answer.new result }
{
    if sound(board) {
        return feed_sound(board, bytes, answer);
    }
    refused(board, Refusal::IllFormed)
}
