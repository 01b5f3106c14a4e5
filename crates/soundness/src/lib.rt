// Whether a board that is handed in is well formed: any value of the struct at all.
#![tactic(auto)]

mod kept;
mod several;
mod shape;
mod single;

ghost use Rattle.std.specs.Prelude.{◌≡◌, ◌≤◌};
ghost use Rattle.paper.specs.Layout.{RectFits, InRange, no_bounds, Laid};
ghost use Rattle.paper.specs.Padding.{WellFormed};
ghost use Rattle.paper.specs.Laws.Back.{layout_of};
ghost use Rattle.paper.specs.Laws.Says.{Says};
ghost use Rattle.paper.specs.Laws.Standing.{Standing};

use kept::undone_in_turn;
use paper::{Board, Rect, Size};
use several::{items_fit, seamless};
use shape::stands;

const NO_BOUNDS: Size = Size {
    w: 0,
    h: 0,
    clearance: 0,
};

const MOST_SIDE: u16 = 30000;

const MOST_CLEARANCE: u16 = 200;

// ---- size

// No bounds yet, and nothing there.
fn unused(board: Board) -> bool
    ensures { Says result ((board.size ≡ no_bounds) × (board.count ≡ 0) × (board.kept ≡ 0)) }
{
    board.size == NO_BOUNDS && board.count == 0 && board.kept == 0
}

fn within(x: u16, most: u16) -> bool
    ensures { Says result ((1 ≤ x) × (x ≤ most)) }
{
    (1..=most).contains(&x)
}

pub fn in_range(size: Size) -> bool
    ensures { Says result (InRange size) }
{
    within(size.w, MOST_SIDE) && within(size.h, MOST_SIDE) && within(size.clearance, MOST_CLEARANCE)
}

// ---- one item

pub fn rect_fits(size: Size, rect: Rect) -> bool
    ensures { Says result (RectFits size rect) }
{
    rect.x0 < rect.x1 && rect.x1 <= size.w && rect.y0 < rect.y1 && rect.y1 <= size.h
}

// ---- the whole board

// The layout on the board is one with bounds: its numbers, its items and its kept changes.
#[tactic(auto, using(crate::specs::Laws::Stands::count_few), unfolding(paper::specs::Laws::Back::layout_of))]
fn laid(board: Board) -> bool
    requires { Standing board }
    ensures { Says result (Laid (layout_of board)) }
{
    in_range(board.size)
        && items_fit(board.size, &board.items[..board.count])
        && seamless(board)
        && undone_in_turn(board)
}

// The board is well formed.
pub fn sound(board: Board) -> bool
    ensures { Says result (WellFormed board) }
{
    stands(board) && (unused(board) || laid(board))
}
