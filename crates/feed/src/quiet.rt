// The kinds that tell no wire: bounds, keep-out, take out, undo.
ghost use Rattle.std.specs.Prelude.{◌≡◌};
ghost use Rattle.paper.specs.Layout.{keep_out};
ghost use Rattle.paper.specs.Padding.{item_of, WellFormed};
ghost use Rattle.paper.specs.Laws.Back.{layout_of};
ghost use Rattle.feed.specs.Feeding.{CaseIs, Quietly, said_code, KeepOutCode};

use crate::tests::used;
use crate::{accepted, refused};
use blocks::{Look, Place, hit, of_board};
use items::{add_item, begin, find, take_item, undo};
use paper::{Board, Id, Item, MOST_BLOCKS, MOST_CORNERS, Record, Rect, Refusal, Reply};
use seams::stopped;
use soundness::{in_range, rect_fits};

// Kind 1.
pub(crate) fn bounds(board: Board, read: Record) -> Reply
    requires { WellFormed board × CaseIs 0 read }
    ensures { Quietly (layout_of board) read result }
{
    match read {
        Record::Bounds(size) => {
            if in_range(size) {
                return accepted(begin(size));
            }
            refused(board, Refusal::OutOfRange)
        }
        _ => refused(board, Refusal::Malformed),
    }
}

// Whether a keep-out may be put on the board, or why it may not.
fn may_keep_out(board: Board, id: Id, rect: Rect) -> Result<(), Refusal>
    requires { WellFormed board }
    ensures { KeepOutCode (layout_of board) id rect (said_code result) }
{
    if board.size.w == 0 {
        return Err(Refusal::NoBounds);
    }
    if used(board, id.number) {
        return Err(Refusal::IdInUse);
    }
    if !rect_fits(board.size, rect) {
        return Err(Refusal::NoRectangle);
    }
    let held = of_board(board, false);
    let place = Place {
        x0: rect.x0,
        y0: rect.y0,
        x1: rect.x1,
        y1: rect.y1,
    };
    if hit(held, Look::KeepOuts, place) {
        return Err(Refusal::OnKeepOut);
    }
    if stopped(held, place) {
        return Err(Refusal::OnWire);
    }
    if held.first[held.items] >= MOST_BLOCKS {
        return Err(Refusal::TooManyBlocks);
    }
    Ok(())
}

#[tactic(auto, unfolding(paper::specs::Padding::item_of))]
fn rect_item(id: Id, r: Rect) -> Item
    ensures { result ≡ item_of (keep_out id.number r) }
{
    let mut xs = [0u16; MOST_CORNERS];
    let mut ys = [0u16; MOST_CORNERS];
    xs[0] = r.x0;
    ys[0] = r.y0;
    xs[1] = r.x1;
    ys[1] = r.y1;
    Item {
        id: id.number,
        runs: 0,
        xs,
        ys,
    }
}

// Kind 2.
pub(crate) fn keep_out(board: Board, read: Record) -> Reply
    requires { WellFormed board × CaseIs 1 read }
    ensures { Quietly (layout_of board) read result }
{
    match read {
        Record::KeepOut(id, rect) => match may_keep_out(board, id, rect) {
            Ok(()) => accepted(add_item(board, rect_item(id, rect))),
            // returned here: as the value of both arms the board is copied once more
            Err(why) => return refused(board, why),
        },
        _ => refused(board, Refusal::Malformed),
    }
}

// Kind 5.
#[tactic(auto, using(paper::specs::Laws::Standing::well_standing, crate::proofs::Taking::take_early, crate::proofs::Taking::take_asks, crate::proofs::Taking::taken, crate::proofs::Taking::none_taken))]
pub(crate) fn take_out(board: Board, read: Record) -> Reply
    requires { WellFormed board × CaseIs 4 read }
    ensures { Quietly (layout_of board) read result }
{
    match read {
        Record::TakeOut(id) => {
            if board.size.w == 0 {
                return refused(board, Refusal::NoBounds);
            }
            match find(board, id.number) {
                Some(at) => accepted(take_item(board, at)),
                None => refused(board, Refusal::IdNotInUse),
            }
        }
        _ => refused(board, Refusal::Malformed),
    }
}

// Kind 6.
pub(crate) fn undo_latest(board: Board, read: Record) -> Reply
    requires { WellFormed board × CaseIs 5 read }
    ensures { Quietly (layout_of board) read result }
{
    match read {
        Record::Undo => {
            if board.size.w == 0 {
                return refused(board, Refusal::NoBounds);
            }
            if board.kept == 0 {
                return refused(board, Refusal::NothingKept);
            }
            accepted(undo(board))
        }
        _ => refused(board, Refusal::Malformed),
    }
}
