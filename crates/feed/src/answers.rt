// The kinds that tell a wire: lay and ask.
ghost use Rattle.std.specs.Prelude.{◌≡◌, ◌+◌, ◌≤◌, length, take};
ghost use Rattle.paper.specs.Limits.{most_corners};
ghost use Rattle.paper.specs.Padding.{WellFormed};
ghost use Rattle.paper.specs.Answer.{plain, Gives, written, Replies};
ghost use Rattle.paper.specs.Laws.Back.{nodes, layout_of};
ghost use Rattle.feed.specs.Feeding.{CaseIs, said_code, lent_checks, AskGets, LayGets, wired_reply, wire_item, Laying, Lays};

use crate::tests::used;
use crate::wires::wire;
use crate::{Blame, Wired, blamed, refused};
use items::add_item;
use paper::{Board, Id, Item, LEAST_SLICE, MOST_BLOCKS, Question, Record, Refusal, Reply};
use router::Wire;

// x and y of the wire's corners, from the slice's start.
fn write(answer: &mut [u16], w: Wire)
    requires { (w.corners ≤ most_corners) × (w.corners + w.corners ≤ length answer.old) }
    ensures { answer.new ≡ written (take w.corners (nodes w.xs w.ys)) answer.old }
{
    for k in 0..w.corners {
        answer[k + k] = w.xs[k];
        answer[k + k + 1] = w.ys[k];
    }
}

// The reply that tells the wire, and leaves this board.
fn wire_reply(board: Board, w: Wire) -> Reply
    ensures { result ≡ wired_reply board w }
{
    Reply {
        code: 0,
        pin: 0,
        id: 0,
        length: w.length,
        detour: w.detour,
        corners: w.corners,
        board,
    }
}

// Why a lay or an ask is refused before its pins are looked at.
#[tactic(auto, unfolding(paper::specs::Answer::Gives, paper::specs::Laws::Back::layout_of))]
fn may_answer(board: Board, lent: usize) -> Result<(), Refusal>
    ensures { Gives (lent_checks (layout_of board) lent) (plain (said_code result)) }
{
    if board.size.w == 0 {
        return Err(Refusal::NoBounds);
    }
    if lent < LEAST_SLICE {
        return Err(Refusal::ShortSlice);
    }
    Ok(())
}

// ---- an ask

// What an ask gets: the wire, or why there is none to tell.
#[tactic(auto, using(crate::specs::Laws::Telling::bounded, crate::specs::Laws::Telling::ask_short, crate::specs::Laws::Telling::ask_wires))]
fn asked(board: Board, q: Question, lent: usize) -> Result<Wired, Blame>
    requires { WellFormed board }
    ensures { AskGets (layout_of board) q lent result }
{
    may_answer(board, lent)?;
    wire(board, q)
}

// Kinds 4 and 8.
#[tactic(auto, using(crate::specs::Laws::Telling::ask_refused, crate::specs::Laws::Telling::ask_room, crate::specs::Laws::Telling::ask_told))]
pub(crate) fn ask(board: Board, read: Record, answer: &mut [u16]) -> Reply
    requires { WellFormed board × CaseIs 3 read }
    ensures { Replies (layout_of board) read answer.old answer.new result }
{
    match read {
        Record::Ask(q) => match asked(board, q, answer.len()) {
            Ok(found) => {
                write(answer, found.wire);
                wire_reply(board, found.wire)
            }
            // returned here: as the value of both arms the board is copied once more
            Err(blame) => return blamed(board, blame),
        },
        _ => refused(board, Refusal::Malformed),
    }
}

// ---- a lay

// What a lay gets before it is asked whether there is room: the wire, or why there is none to lay.
#[tactic(auto, using(crate::specs::Laws::Telling::bounded, crate::specs::Laws::Telling::lay_short, crate::specs::Laws::Telling::lay_used, crate::specs::Laws::Telling::lay_wires, paper::specs::Laws::Says::said, paper::specs::Laws::Says::said_not))]
fn may_lay(board: Board, id: Id, q: Question, lent: usize) -> Result<Wired, Blame>
    requires { WellFormed board }
    ensures { LayGets (layout_of board) id q lent result }
{
    may_answer(board, lent)?;
    if used(board, id.number) {
        return Err(Blame::from(Refusal::IdInUse));
    }
    wire(board, q)
}

fn wire_item(id: Id, w: Wire) -> Item
    requires { (1 ≤ w.corners) × (w.corners ≤ most_corners) }
    ensures { result ≡ wire_item id.number w }
{
    let xs = w.xs;
    let ys = w.ys;
    Item {
        id: id.number,
        // at most 24: `try_from` would want an answer for more
        runs: (w.corners - 1) as u8,
        xs,
        ys,
    }
}

// The wire is put among the items, if there is room for its runs.
fn lay_wire(board: Board, id: Id, found: Wired, answer: &mut [u16]) -> Reply
    requires { Laying board id found answer.old }
    ensures { Lays board id found answer.old answer.new result }
{
    let w = found.wire;
    if found.blocks + w.corners > MOST_BLOCKS + 1 {
        return refused(board, Refusal::TooManyBlocks);
    }
    write(answer, w);
    let next = add_item(board, wire_item(id, w));
    wire_reply(next, w)
}

// Kinds 3 and 9.
#[tactic(auto, using(crate::specs::Laws::Telling::lay_refused, crate::specs::Laws::Telling::lay_asks, crate::specs::Laws::Telling::lay_done))]
pub(crate) fn lay(board: Board, read: Record, answer: &mut [u16]) -> Reply
    requires { WellFormed board × CaseIs 2 read }
    ensures { Replies (layout_of board) read answer.old answer.new result }
{
    match read {
        Record::Lay(id, q) => match may_lay(board, id, q, answer.len()) {
            Ok(found) => lay_wire(board, id, found, answer),
            // returned here too
            Err(blame) => return blamed(board, blame),
        },
        _ => refused(board, Refusal::Malformed),
    }
}
