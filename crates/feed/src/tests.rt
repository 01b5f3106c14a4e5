// Tests of single things.
ghost use Rattle.std.specs.Prelude.{◌≡◌};
ghost use Rattle.paper.specs.Layout.{OnBoard, Used};
ghost use Rattle.paper.specs.Padding.{WellFormed};
ghost use Rattle.paper.specs.Answer.{source, target};
ghost use Rattle.paper.specs.Laws.Back.{layout_of};
ghost use Rattle.paper.specs.Laws.Says.{Says};

use items::find;
use paper::{Board, Pins, Size};
use shapes::on_board;

// Both pins lie on the board.
pub(crate) fn both_on_board(size: Size, p: Pins) -> bool
    ensures { Says result (OnBoard size (source p) × OnBoard size (target p)) }
{
    on_board(size, p.sx, p.sy) && on_board(size, p.tx, p.ty)
}

// Both pins are at one node.
pub(crate) fn one_node(p: Pins) -> bool
    ensures { Says result (source p ≡ target p) }
{
    p.sx == p.tx && p.sy == p.ty
}

// An item has the id.
#[tactic(auto, using(crate::proofs::Used::used_says, paper::specs::Laws::Standing::well_standing))]
pub(crate) fn used(board: Board, id: u16) -> bool
    requires { WellFormed board }
    ensures { Says result (Used (layout_of board).items id) }
{
    find(board, id).is_some()
}
