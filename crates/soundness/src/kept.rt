// The kept changes, undone in turn.
ghost use Rattle.std.specs.Prelude.{◌≤◌};
ghost use Rattle.paper.specs.Layout.{ItemsApart, ItemsFit, Undoes};
ghost use Rattle.paper.specs.Laws.Back.{layout_of};
ghost use Rattle.paper.specs.Laws.Says.{Says};
ghost use Rattle.paper.specs.Laws.Standing.{Standing};
ghost use Rattle.soundness.specs.Undoing.{GoesBack};

use crate::several::{joins, seamless};
use items::TAKEN;
use paper::Board;

// The latest change can be undone, and leaves items that fit two by two: only what comes back is held against the others.
#[tactic(auto, using(crate::specs::Laws::Stands::count_few, crate::specs::Laws::Stands::kept_few), unfolding(items::specs::Items::IdAt))]
fn goes_back(board: Board) -> bool
    requires { Standing board × ItemsApart board.size (layout_of board).items × (1 ≤ board.kept) }
    ensures { GoesBack (layout_of board) result }
{
    let last = board.kept - 1;
    let change = board.changes[last];
    let others = &board.items[..board.count];
    match items::find(board, change.item.id) {
        Some(at) => change.kind != TAKEN && board.items[at] == change.item,
        None => change.kind == TAKEN && joins(board.size, others, change.item),
    }
}

// The kept changes can be undone in turn, and each time the items fit. The board that is left counts what is still kept: a `for` would count it twice.
pub(crate) fn undone_in_turn(board: Board) -> bool
    requires { Standing board × ItemsFit board.size (layout_of board).items }
    ensures { Says result (Undoes board.size (layout_of board).items (layout_of board).kept) }
{
    let mut left = board;
    while left.kept > 0 {
        if !goes_back(left) {
            return false;
        }
        let next = items::undo(left);
        if !seamless(next) {
            return false;
        }
        left = next;
    }
    true
}
