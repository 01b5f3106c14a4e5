// The distance still to go at each crossing: lowered from t on, found even or settled, and cut off where s lies.
#![tactic(auto)]

mod axis;
mod cut;
mod even;
mod settle;
mod spread;

ghost use Rattle.std.specs.Prelude.{◌≡◌, ◌-◌, get_or};
ghost use Prim.Native.Nat.{◌+◌, ◌*◌, ◌<◌, ◌≤◌};
ghost use Rattle.distances.specs.Lower.{none, cost_of, Table};
ghost use Rattle.distances.specs.Sweep.{width_of, Widths};
ghost use Rattle.distances.specs.Ways.{cell, map_of, Distances};
ghost use Rattle.distances.specs.Start.{Unreached};
ghost use Rattle.distances.specs.Found.{x_side, y_side, Ruled, Completes};
ghost use Rattle.distances.specs.Axis.{side_of};

use axis::Axis;
use cut::{after, cut};
use even::even;
use settle::settle;
use spread::spread;
use tracks::{At, Map};

// What stands where the search has not come: more than any length. A number and no Option, which would take twice the memory and a second
// comparison at each step of the search.
pub const NONE: u32 = 1000000000;

// What a step across a slab of this width costs.
fn cost(shut: u8, width: u32) -> u32
    requires { width ≤ 30000 }
    ensures { (result ≡ cost_of shut width) × (result ≤ none) }
{
    if shut == 0 { width } else { NONE }
}

// The lines of one axis: `slabs` + 1 of them, `along` apart, each with `count` crossings, `step` apart.
#[derive(Clone, Copy)]
struct Lines {
    pub slabs: usize,
    pub along: usize,
    pub step: usize,
    pub count: usize,
}

// The width of a slab.
pub fn width(at: &[u16; 96], i: usize) -> u32
    requires { (i < 95) × (get_or at.now i 0 ≤ get_or at.now (i + 1) 0) }
    ensures { result ≡ width_of at.now i }
{
    let low = u32::from(at[i]);
    let high = u32::from(at[i + 1]);
    high - low
}

// The upright tracks, and the level ways between them.
fn x_axis(map: &Map) -> Axis<'_>
    requires { Ruled (map_of map.now) }
    ensures { side_of result ≡ x_side (map_of map.now) }
{
    Axis {
        shut: &map.flat,
        at: &map.x.at,
        lines: Lines {
            slabs: map.x.count - 1,
            along: 1,
            step: 96,
            count: map.y.count,
        },
    }
}

// The level tracks, and the upright ways between them.
fn y_axis(map: &Map) -> Axis<'_>
    requires { Ruled (map_of map.now) }
    ensures { side_of result ≡ y_side (map_of map.now) }
{
    Axis {
        shut: &map.tall,
        at: &map.y.at,
        lines: Lines {
            slabs: map.y.count - 1,
            along: 96,
            step: 1,
            count: map.x.count,
        },
    }
}

// Nothing reached. A table is a plain array, as it is handed out: that none of its numbers is more than NONE stands in the contracts (`Table`).
#[tactic(auto, using(crate::specs::Start::unreached))]
fn unreached() -> [u32; 9216]
    ensures { Unreached result }
{
    [NONE; 9216]
}

// Settles the table, if it is not even as far as the crossing at s.
fn complete(d: &mut [u32; 9216], map: &Map, x: &Axis, y: &Axis, s: usize)
    requires { Table d.old × Ruled (map_of map.now) × (s < 9216) × (side_of x.now ≡ x_side (map_of map.now)) × (side_of y.now ≡ y_side (map_of map.now)) }
    ensures { Completes (map_of map.now) s d.old d.new }
{
    let far = after(d[s]);
    if !even(d, map, far) {
        settle(d, x, y);
    }
}

// The distance still to go to the crossing `to`, from each crossing that is no further than `from`. For those further on it is one more than
// for that crossing; NONE where there is no way.
pub fn distances(map: &Map, to: At, from: At) -> [u32; 9216]
    requires { (map.now.x.count ≤ 96) × (map.now.y.count ≤ 96) × (to.i < map.now.x.count) × (to.j < map.now.y.count) × (from.i < map.now.x.count) ×
        (from.j < map.now.y.count) × Widths map.now.x.at (map.now.x.count - 1) × Widths map.now.y.at (map.now.y.count - 1) }
    ensures { Distances (map_of map.now) to.i to.j (cell from.i from.j) result }
{
    let x = x_axis(map);
    let y = y_axis(map);
    let mut d = unreached();
    d[to.i + to.j * 96] = 0;
    let s = from.i + from.j * 96;
    spread(&mut d, &x, &y, to, s);
    complete(&mut d, map, &x, &y, s);
    let far = after(d[s]);
    cut(&mut d, map.x.count, map.y.count, far);
    d
}
