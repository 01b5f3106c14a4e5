// The shape of the struct: counts within their arrays, and nothing in unused places.
ghost use Rattle.std.specs.Prelude.{◌≤◌};
ghost use Rattle.paper.specs.Limits.{most_blocks, most_corners, most_kept};
ghost use Rattle.paper.specs.Padding.{item_of, no_item, change_of, no_change};
ghost use Rattle.paper.specs.Laws.Back.{thing_of, turn_of};
ghost use Rattle.paper.specs.Laws.Says.{Says};
ghost use Rattle.paper.specs.Laws.Standing.{Standing};
ghost use Rattle.items.specs.Items.{Whole, WholeChange};
ghost use Rattle.soundness.specs.Shape.{ZeroFrom, Slots};

use items::{NO_CHANGE, NO_ITEM, TAKEN, adding};
use paper::{Board, Change, Item, MOST_BLOCKS, MOST_CORNERS, MOST_KEPT, MOST_RUNS};

// Corners from k on are zeros.
fn zeros_from(item: Item, k: usize) -> bool
    requires { k ≤ most_corners }
    ensures { Says result (ZeroFrom k item.xs × ZeroFrom k item.ys) }
{
    item.xs[k..].iter().all(|x| *x == 0) && item.ys[k..].iter().all(|y| *y == 0)
}

// The item is as the struct holds it: a keep-out has two corners, a wire a corner more than runs.
fn whole(item: Item) -> bool
    ensures { Says result (Whole item) }
{
    let runs = usize::from(item.runs);
    if runs == 0 {
        zeros_from(item, 2)
    } else {
        runs <= MOST_RUNS && zeros_from(item, runs + 1)
    }
}

// The change is as the struct holds it: taken out, or added as what it is.
fn whole_change(change: Change) -> bool
    ensures { Says result (WholeChange change) }
{
    (change.kind == TAKEN || change.kind == adding(change.item.runs)) && whole(change.item)
}

// The array holds n items and nothing else.
fn items_stand(items: [Item; MOST_BLOCKS], n: usize) -> bool
    requires { n ≤ most_blocks }
    ensures { Says result (Slots item_of thing_of no_item most_blocks n items) }
{
    items[..n].iter().all(|item| whole(*item)) && items[n..].iter().all(|item| *item == NO_ITEM)
}

// The array holds n changes and nothing else.
// A function of its own: one for both arrays would take each test as a closure, and its contract would speak of their answers.
fn changes_stand(changes: [Change; MOST_KEPT], n: usize) -> bool
    requires { n ≤ most_kept }
    ensures { Says result (Slots change_of turn_of no_change most_kept n changes) }
{
    changes[..n].iter().all(|change| whole_change(*change))
        && changes[n..].iter().all(|change| *change == NO_CHANGE)
}

// The board is how the struct holds what is read back from it.
pub(crate) fn stands(board: Board) -> bool
    ensures { Says result (Standing board) }
{
    board.count <= MOST_BLOCKS
        && board.kept <= MOST_KEPT
        && items_stand(board.items, board.count)
        && changes_stand(board.changes, board.kept)
}
