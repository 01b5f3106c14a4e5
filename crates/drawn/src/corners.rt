// The corners of a drawn wire: an item of the numbers, and the length of its runs.
ghost use Rattle.std.specs.Prelude.{◌≡◌, ◌+◌, ◌<◌, ◌≤◌};
ghost use Rattle.paper.specs.Limits.{most_runs};
ghost use Rattle.paper.specs.Layout.{wire};
ghost use Rattle.paper.specs.Padding.{item_of};
ghost use Rattle.paper.specs.Drawn.{drawn, CountFits};
ghost use Rattle.drawn.specs.Drawing.{long_at, long_by};

use paper::{Item, MOST_CORNERS};

// The numbers as the corners of an item, without an id.
pub(crate) fn wire_of(numbers: &[u16]) -> Item
    requires { CountFits numbers.now }
    ensures { result ≡ item_of (wire 0 (drawn numbers.now)) }
{
    let n = numbers.len() / 2;
    let mut xs = [0u16; MOST_CORNERS];
    let mut ys = [0u16; MOST_CORNERS];
    for k in 0..n {
        xs[k] = numbers[k + k];
        ys[k] = numbers[k + k + 1];
    }
    Item {
        id: 0,
        // at most 24: `try_from` would want an answer for more
        runs: (n - 1) as u8,
        xs,
        ys,
    }
}

// ---- the length

// How long the run between corners k and k + 1 is.
#[tactic(auto, unfolding(paper::specs::Wire::manhattan, paper::specs::Wire::gap))]
fn run_long(item: Item, k: usize) -> u32
    requires { k < most_runs }
    ensures { (result ≡ long_at item k) × (result ≤ 131070) }
{
    let wide = item.xs[k].abs_diff(item.xs[k + 1]);
    let high = item.ys[k].abs_diff(item.ys[k + 1]);
    u32::from(wide) + u32::from(high)
}

// The length of the item's first n runs.
pub(crate) fn long(item: Item, n: usize) -> u32
    requires { n ≤ most_runs }
    ensures { result ≡ long_by item n }
{
    (0..n).map(|k| run_long(item, k)).sum()
}
