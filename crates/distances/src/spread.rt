// Lowering first only where something changed.
//
// Most of what a pass goes over has not changed since it was last lowered from. So each axis is lowered only from marked crossings: those that
// the other axis changed since. The marks only save time. Nothing is proved of them, and `settle` finds what they miss.
ghost use Rattle.std.specs.Prelude.{◌<◌, ◌≤◌};
ghost use Rattle.distances.specs.Lower.{Table, Chain, Change};
ghost use Rattle.distances.specs.Sweep.{Across};
ghost use Rattle.distances.specs.Settle.{Moved, Either};
ghost use Rattle.distances.specs.Spread.{Came};
ghost use Rattle.distances.specs.Axis.{side_of};

use crate::axis::{Axis, Slab};
use crate::cost;
use crate::cut::after;
use tracks::At;

// Crossings of a line, from `low` to before `high`. Bytes, so that the innermost loop finds a mark by its own index:
// `as` loses nothing of a number up to 96, and `try_from` would want an answer for when it does.
#[derive(Clone, Copy)]
struct Part {
    pub low: u8,
    pub high: u8,
}

impl Part {
    const NONE: Part = Part { low: 96, high: 0 };

    // With one crossing more, and what lies between.
    fn add(&mut self, k: usize)
        requires { k < 96 }
    {
        let k = k as u8;
        self.low = self.low.min(k);
        self.high = self.high.max(k + 1);
    }

    // With those of another part, and what lies between; all below `count`.
    fn join(self, other: Part, count: usize) -> Part
        requires { count ≤ 96 }
        ensures { result.high ≤ count }
    {
        Part {
            low: self.low.min(other.low),
            high: self.high.max(other.high).min(count as u8),
        }
    }
}

// What is marked on each line of an axis: a crossing too many does no harm.
type Marks = [Part; 96];

fn unmarked() -> Marks {
    [Part::NONE; 96]
}

// As `lower`, but only from the crossings of a part. What is lowered is marked for the other axis, and handed back. Each sweep has a loop of its
// own: in one for both, `settle` would keep marks at every step, and read them nowhere.
fn lower_part(
    d: &mut [u32; 9216],
    shut: &[u8; 9216],
    slab: &Slab,
    part: Part,
    other: &mut Marks,
    far: u32,
) -> Part
    requires { Table d.old × (part.high ≤ slab.now.count) }
    ensures { let s = slab.now in Came (Change shut.now s.from s.to s.edge s.step s.count s.width) d.old d.new }
{
    let mut lowered = Part::NONE;
    for k in usize::from(part.low)..usize::from(part.high) {
        let at = k * slab.step;
        let near = d[slab.from + at] + cost(shut[slab.edge + at], slab.width);
        if near < d[slab.to + at] && near < far {
            d[slab.to + at] = near;
            other[k].add(slab.line);
            lowered = Part {
                low: lowered.low.min(k as u8),
                high: k as u8 + 1,
            };
        }
    }
    lowered
}

// As `sweep`, from the marked crossings.
fn sweep_marked(
    d: &mut [u32; 9216],
    axis: &Axis,
    back: bool,
    marks: &Marks,
    other: &mut Marks,
    far: u32,
) -> bool
    requires { Table d.old }
    ensures { Came (Across axis.now.shut.now axis.now.at.now axis.now.lines back) d.old d.new }
{
    let mut changed = false;
    let mut lowered = Part::NONE;
    for k in 0..axis.lines.slabs {
        let slab = axis.slab(back, k);
        let part = marks[slab.near].join(lowered, slab.count);
        lowered = lower_part(d, axis.shut, &slab, part, other, far);
        changed |= lowered.high > 0;
    }
    changed
}

// As `both_ways`, from the marked crossings. What was lowered across a slab has nothing to give back across it, so the same marks serve
// both ways.
#[tactic(auto, using(crate::specs::Spread::came_ways))]
fn both_marked(d: &mut [u32; 9216], axis: &Axis, marks: &Marks, other: &mut Marks, far: u32) -> bool
    requires { Table d.old }
    ensures { Came (Moved (side_of axis.now)) d.old d.new }
{
    let forth = sweep_marked(d, axis, false, marks, other, far);
    let back = sweep_marked(d, axis, true, marks, other, far);
    forth || back
}

// Lowers from the crossing t on, the one axis and the other by turns, until a turn changes nothing, or 96 times.
#[tactic(auto, using(crate::specs::Spread::came_first, crate::specs::Spread::came_then, crate::specs::Spread::came_axes))]
pub(crate) fn spread(d: &mut [u32; 9216], x: &Axis, y: &Axis, t: At, s: usize)
    requires { Table d.old × (t.i < 96) × (t.j < 96) × (s < 9216) }
    ensures { Table d.new × Chain (Either (side_of x.now) (side_of y.now)) d.old d.new }
{
    let mut on_x = unmarked();
    let mut on_y = unmarked();
    on_x[t.i].add(t.j);
    on_y[t.j].add(t.i);
    for _turn in 0..96 {
        let far = after(d[s]);
        both_marked(d, x, &on_x, &mut on_y, far);
        on_x = unmarked();
        let far = after(d[s]);
        let changed = both_marked(d, y, &on_y, &mut on_x, far);
        on_y = unmarked();
        if !changed {
            break;
        }
    }
}
