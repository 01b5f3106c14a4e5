// The shape of one wire, by the corners of its item: its ends, its runs along the axes and each across the one before.
#![tactic(auto)]

ghost use Rattle.std.specs.Prelude.{ℕ, ◌≡◌, ◌+◌, ◌<◌, ◌≤◌};
ghost use Rattle.paper.specs.Limits.{most_corners, most_runs};
ghost use Rattle.paper.specs.Wire.{runs};
ghost use Rattle.paper.specs.Layout.{OnBoard, Along, EndsDiffer, WireFits};
ghost use Rattle.paper.specs.Answer.{Gives};
ghost use Rattle.paper.specs.Drawn.{shape_checks, form_checks};
ghost use Rattle.paper.specs.Laws.Says.{Says};
ghost use Rattle.blocks.specs.Growing.{corner_at, stretch_at};
ghost use Rattle.shapes.specs.Corners.{axis_for, corners_of};
ghost use Rattle.shapes.specs.Faults.{fault_of, about_none, fault_at};

use blocks::stretch;
use paper::{Item, Refusal, Size};

// What is wrong with a wire, and the run that it is about, counted from 1; run 0 where it is about none, as `Judged` and `Gives` have it.
// Why it is wrong is a `Refusal`, or whatever else a caller tells it by, such as a number.
#[derive(Clone, Copy, PartialEq, Eq, Debug)]
pub struct Fault<W> {
    pub why: W,
    pub run: u8,
}

// The reason, about no run.
impl From<Refusal> for Fault<Refusal> {
    ghost from_gives = { λ why fault. fault ≡ about_none why };

    fn from(why: Refusal) -> Fault<Refusal> {
        Fault { why, run: 0 }
    }
}

// The reason, about the run at k.
pub fn fault_at<W>(why: W, k: usize) -> Fault<W>
    requires { k < most_runs }
    ensures { result ≡ fault_at why k }
{
    // at most 24: `try_from` would want an answer for more
    let run = (k + 1) as u8;
    Fault { why, run }
}

// ---- the ends and the runs

// Corners 0 and n differ.
#[tactic(auto, using(crate::specs::Laws::Corners::ends_x, crate::specs::Laws::Corners::ends_y))]
fn ends_differ(item: Item, n: usize) -> bool
    requires { n ≤ most_runs }
    ensures { Says result (EndsDiffer (corners_of item (n + 1))) }
{
    item.xs[0] != item.xs[n] || item.ys[0] != item.ys[n]
}

// On one axis a and b are the same, on the other p comes before q.
fn straight(a: u16, b: u16, p: u16, q: u16) -> bool
    ensures { Says result ((a ≡ b) × (p < q)) }
{
    a == b && p < q
}

// The run between corners k and k + 1 goes along the axis and is not empty.
#[tactic(auto, using(crate::specs::Laws::Corners::along_flat, crate::specs::Laws::Corners::along_up))]
fn along(item: Item, k: usize, level: bool) -> bool
    requires { k < most_runs }
    ensures { Says result (Along (axis_for level) (stretch_at item k)) }
{
    let run = stretch(item, k);
    if level {
        straight(run.y0, run.y1, run.x0, run.x1)
    } else {
        straight(run.x0, run.x1, run.y0, run.y1)
    }
}

// The first of the item's n runs that is empty or slanted, or goes along the axis of the one before.
#[tactic(auto, using(crate::specs::Laws::Bad::ahead_start, crate::specs::Laws::Bad::ahead_stop, crate::specs::Laws::Bad::ahead_next, crate::specs::Laws::Bad::ahead_end, paper::specs::Laws::Says::said, paper::specs::Laws::Says::said_not))]
fn bad_turn(item: Item, n: usize) -> Result<(), Fault<Refusal>>
    requires { n ≤ most_runs }
    ensures { Gives (shape_checks 1 (runs (corners_of item (n + 1)))) (fault_of result) }
{
    let mut flat = along(item, 0, true);
    for k in 0..n {
        if !along(item, k, flat) {
            return Err(fault_at(Refusal::BadRun, k));
        }
        flat = !flat;
    }
    Ok(())
}

// What is wrong with the shape of the item's n runs: equal ends, or the first bad run.
#[tactic(auto, unfolding(paper::specs::Answer::Gives))]
pub fn bad_shape(item: Item, n: usize) -> Result<(), Fault<Refusal>>
    requires { n ≤ most_runs }
    ensures { Gives (form_checks (corners_of item (n + 1))) (fault_of result) }
{
    if !ends_differ(item, n) {
        return Err(Fault::from(Refusal::OneNode));
    }
    bad_turn(item, n)
}

// ---- on a board

// The corner lies on the board.
pub fn on_board(size: Size, x: u16, y: u16) -> bool
    ensures { Says result (OnBoard size (record { x = x; y = y })) }
{
    x <= size.w && y <= size.h
}

// The item's first n corners lie on the board.
fn corners_on(size: Size, item: Item, n: usize) -> bool
    requires { n ≤ most_corners }
    ensures { Says result ((k : ℕ) → k < n → OnBoard size (corner_at item k)) }
{
    (0..n).all(|k| on_board(size, item.xs[k], item.ys[k]))
}

// The item's n runs are a wire that fits on a board of the size.
#[tactic(auto, using(crate::specs::Laws::Fits::fits_said, crate::specs::Laws::Fits::fits_not, paper::specs::Laws::Says::said, paper::specs::Laws::Says::said_not))]
pub fn wire_fits(size: Size, item: Item, n: usize) -> bool
    requires { (1 ≤ n) × (n ≤ most_runs) }
    ensures { Says result (WireFits size (corners_of item (n + 1))) }
{
    corners_on(size, item, n + 1) && bad_shape(item, n).is_ok()
}
