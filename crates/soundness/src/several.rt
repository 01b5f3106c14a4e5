// Several items: each fits, by rising ids, apart from the others, few enough blocks, and no wire along a seam.
ghost use Rattle.std.specs.Prelude.{map, length, ◌≡◌, ◌*◌, ◌≤◌};
ghost use Rattle.paper.specs.Limits.{most_runs};
ghost use Rattle.paper.specs.Grid.{All};
ghost use Rattle.paper.specs.Layout.{block_count, Seamless, Apart, ItemsApart};
ghost use Rattle.paper.specs.Laws.Back.{thing_of, layout_of};
ghost use Rattle.paper.specs.Laws.Says.{Says};
ghost use Rattle.paper.specs.Laws.Standing.{Standing};
ghost use Rattle.blocks.specs.Meeting.{Placed};
ghost use Rattle.items.specs.Items.{Whole};
ghost use Rattle.soundness.specs.Joining.{AllPlaced, AllWhole, Joins};

use crate::single::fits;
use blocks::{block_number, meet, of_board};
use paper::{Board, Item, MOST_BLOCKS, Size};
use seams::crossed;

// How many blocks the items are.
fn total(items: &[Item]) -> usize
    requires { AllPlaced items.now }
    ensures value { result ≡ block_count (map thing_of items.now) }
    ensures few { result ≤ most_runs * length items.now }
{
    items.iter().map(|item| block_number(item.runs)).sum()
}

// The item meets none of the others.
fn apart_from(others: &[Item], item: Item, c: u16) -> bool
    requires { AllPlaced others.now × Placed item }
    ensures { Says result (All (Apart c (thing_of item)) (map thing_of others.now)) }
{
    others.iter().all(|other| !meet(item, *other, c))
}

// The item fits on a board of the size, beside the others and with them.
pub(crate) fn joins(size: Size, others: &[Item], item: Item) -> bool
    requires { AllPlaced others.now × Whole item }
    ensures { Says result (Joins size (map thing_of others.now) (thing_of item)) }
{
    fits(size, item)
        && total(others) + block_number(item.runs) <= MOST_BLOCKS
        && apart_from(others, item, size.clearance)
}

// The items fit on a board of the size, two by two. Each is held against those before it.
pub(crate) fn items_fit(size: Size, items: &[Item]) -> bool
    requires { AllWhole items.now }
    ensures { Says result (ItemsApart size (map thing_of items.now)) }
{
    let mut last: u16 = 0;
    for (i, item) in items.iter().enumerate() {
        if item.id <= last || !joins(size, &items[..i], *item) {
            return false;
        }
        last = item.id;
    }
    true
}

// No wire goes along a closed seam.
pub(crate) fn seamless(board: Board) -> bool
    requires { Standing board × ItemsApart board.size (layout_of board).items }
    ensures { Says result (Seamless (layout_of board).items) }
{
    !crossed(of_board(board, false))
}
