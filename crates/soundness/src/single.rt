// One item by itself.
ghost use Rattle.std.specs.Prelude.{◌≡◌};
ghost use Rattle.paper.specs.Layout.{ThingFits};
ghost use Rattle.paper.specs.Laws.Back.{thing_of};
ghost use Rattle.paper.specs.Laws.Says.{Says};
ghost use Rattle.items.specs.Items.{Whole};
ghost use Rattle.soundness.specs.Fitting.{rect_of};

use crate::rect_fits;
use paper::{Item, Rect, Size};
use shapes::wire_fits;

// The two corners that a keep-out has.
fn corners(item: Item) -> Rect
    ensures { result ≡ rect_of item }
{
    Rect {
        x0: item.xs[0],
        y0: item.ys[0],
        x1: item.xs[1],
        y1: item.ys[1],
    }
}

// The item fits on a board of the size.
pub(crate) fn fits(size: Size, item: Item) -> bool
    requires { Whole item }
    ensures { Says result (ThingFits size (thing_of item)) }
{
    let runs = usize::from(item.runs);
    if item.id == 0 {
        false
    } else if runs == 0 {
        rect_fits(size, corners(item))
    } else {
        wire_fits(size, item, runs)
    }
}
