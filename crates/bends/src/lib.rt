// The turns that a wire still has to make, at each crossing where a shortest wire from s may come: found by recursion over ways that lead nearer.
#![tactic(auto)]

ghost use Rattle.std.specs.Prelude.{◌≡◌, ◌+◌, ◌*◌, ◌<◌, set};
ghost use Rattle.paper.specs.Grid.{level, upright};
ghost use Rattle.distances.specs.Ways.{map_of};
ghost use Rattle.trace.specs.Trail.{crossing, dir_of, slot};
ghost use Rattle.bends.specs.Table.{ByWay, Least, Visiting, Toward, Visited, Counting, Counted, Asked, Bends};

use trace::{Chart, Direction, next, noted, place};
use tracks::At;

// Writes both numbers of a crossing: for a wire that comes level, and for one that comes upright.
fn write(turns: &mut [u32; 18432], q: At, x: u32, y: u32)
    requires { (q.i < 96) × (q.j < 96) }
    ensures { turns.new ≡ set (set turns.old (slot level (crossing q)) x) (slot upright (crossing q)) y }
{
    let here = place(q);
    turns[here] = x;
    turns[here + 9216] = y;
}

// The lesser of `best` and what the table says by way of the direction, if it leads nearer.
fn by_way(chart: &Chart<'_>, turns: &[u32; 18432], q: At, dir: Direction, best: u32) -> u32
    requires { (q.i < chart.now.map.now.x.count) × (q.j < chart.now.map.now.y.count) }
    ensures { ByWay (map_of chart.now.map.now) chart.now.d.now turns.now (crossing q) (dir_of dir) best result }
{
    if chart.leads(q, dir) {
        noted(turns, next(q, dir), dir).min(best)
    } else {
        best
    }
}

// The least that the table says by ways of an axis. 2,000,000,000 where no way of it leads nearer: `None` would be the least of all.
fn least(chart: &Chart<'_>, turns: &[u32; 18432], q: At, up: bool) -> u32
    requires { (q.i < chart.now.map.now.x.count) × (q.j < chart.now.map.now.y.count) }
    ensures { Least (map_of chart.now.map.now) chart.now.d.now turns.now (crossing q) up result }
{
    if up {
        let north = by_way(chart, turns, q, Direction::North, 2000000000);
        by_way(chart, turns, q, Direction::South, north)
    } else {
        let east = by_way(chart, turns, q, Direction::East, 2000000000);
        by_way(chart, turns, q, Direction::West, east)
    }
}

// Writes the numbers of a crossing whose ways that lead nearer all go to crossings that have theirs.
fn count(chart: &Chart<'_>, turns: &mut [u32; 18432], q: At, g: At)
    requires { Counting (map_of chart.now.map.now) chart.now.d.now (crossing q) (crossing g) turns.old }
    ensures { Counted (map_of chart.now.map.now) chart.now.d.now (crossing q) (crossing g) turns.old turns.new }
{
    let h = least(chart, turns, q, false);
    let v = least(chart, turns, q, true);
    write(turns, q, h.min(v + 1), v.min(h + 1));
}

// Visits the neighbour in the direction, if that leads nearer.
#[cycle(toward_visit)]
fn toward(chart: &Chart<'_>, turns: &mut [u32; 18432], q: At, g: At, dir: Direction)
    requires { Visiting (map_of chart.now.map.now) chart.now.d.now (crossing q) (crossing g) turns.old }
    ensures { Toward (map_of chart.now.map.now) chart.now.d.now (crossing q) (crossing g) (dir_of dir) turns.old turns.new }
{
    if chart.leads(q, dir) {
        visit(chart, turns, next(q, dir), g);
    }
}

// Finds the numbers of a crossing, and of all that ways that lead nearer reach from it, each once.
#[cycle(toward_visit)]
fn visit(chart: &Chart<'_>, turns: &mut [u32; 18432], q: At, g: At)
    requires { Visiting (map_of chart.now.map.now) chart.now.d.now (crossing q) (crossing g) turns.old }
    ensures { Visited (map_of chart.now.map.now) chart.now.d.now (crossing q) (crossing g) turns.old turns.new }
{
    if turns[place(q)] != 0 {
        return;
    }
    if q == g {
        write(turns, q, 1, 1);
        return;
    }
    toward(chart, turns, q, g, Direction::East);
    toward(chart, turns, q, g, Direction::North);
    toward(chart, turns, q, g, Direction::West);
    toward(chart, turns, q, g, Direction::South);
    count(chart, turns, q, g);
}

// Fills the table, which holds no number but 0, for wires from s to g.
pub fn bends(chart: &Chart<'_>, turns: &mut [u32; 18432], s: At, g: At)
    requires { Asked (map_of chart.now.map.now) chart.now.d.now (crossing s) (crossing g) turns.old }
    ensures { Bends (map_of chart.now.map.now) chart.now.d.now (crossing s) (crossing g) turns.new }
{
    visit(chart, turns, s, g);
}
