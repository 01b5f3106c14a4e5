// Lowering every line by way of its neighbours, until nothing changes.
ghost use Rattle.distances.specs.Lower.{Table, Lowered};
ghost use Rattle.distances.specs.Sweep.{Swept};
ghost use Rattle.distances.specs.Settle.{Went, Passed, Settles};
ghost use Rattle.distances.specs.Axis.{side_of};

use crate::axis::{Axis, Slab};
use crate::cost;

// Lowers each number of a line by way of its neighbour across the slab.
fn lower(d: &mut [u32; 9216], shut: &[u8; 9216], slab: &Slab) -> bool
    requires { Table d.old }
    ensures { let s = slab.now in Lowered d.old d.new shut.now s.from s.to s.edge s.step s.count s.width result }
{
    let mut changed = false;
    for k in 0..slab.count {
        let at = k * slab.step;
        let near = d[slab.from + at] + cost(shut[slab.edge + at], slab.width);
        if near < d[slab.to + at] {
            d[slab.to + at] = near;
            changed = true;
        }
    }
    changed
}

// Lowers each line by way of its neighbour, one slab after another, forth or back.
fn sweep(d: &mut [u32; 9216], axis: &Axis, back: bool) -> bool
    requires { Table d.old }
    ensures { Swept d.old d.new axis.now.shut.now axis.now.at.now axis.now.lines back result }
{
    let mut changed = false;
    for k in 0..axis.lines.slabs {
        changed |= lower(d, axis.shut, &axis.slab(back, k));
    }
    changed
}

// Lowers all the lines of an axis, forth and back.
fn both_ways(d: &mut [u32; 9216], axis: &Axis) -> bool
    requires { Table d.old }
    ensures { Went (side_of axis.now) d.old d.new result }
{
    let forth = sweep(d, axis, false);
    let back = sweep(d, axis, true);
    forth || back
}

// Lowers all the lines of both axes.
fn pass(d: &mut [u32; 9216], x: &Axis, y: &Axis) -> bool
    requires { Table d.old }
    ensures { Passed (side_of x.now) (side_of y.now) d.old d.new result }
{
    let on_x = both_ways(d, x);
    let on_y = both_ways(d, y);
    on_x || on_y
}

// Lowers until nothing changes.
pub(crate) fn settle(d: &mut [u32; 9216], x: &Axis, y: &Axis)
    requires { Table d.old }
    ensures { Settles (side_of x.now) (side_of y.now) d.old d.new }
{
    let mut changed = true;
    while changed {
        changed = pass(d, x, y);
    }
}
