// Whether a table is even: no open way lets one end be lowered, below a bound, by way of the other. Nothing is written.
//
// Rows are taken whole, both axes alike, so that the compiler may take several ways at once.
ghost use Rattle.std.specs.Prelude.{◌≡◌, ◌+◌, ◌-◌, ◌≤◌, ◌<◌, true, replicate};
ghost use Rattle.distances.specs.Lower.{Table};
ghost use Rattle.distances.specs.Sweep.{Widths};
ghost use Rattle.distances.specs.Ways.{map_of};
ghost use Rattle.distances.specs.Found.{Ruled};
ghost use Rattle.distances.specs.Even.{Slim, WidthsOf, EvenRow, LevelRow, EvenRows, UprightRow, EvenColumns, Even};

use crate::{cost, width};
use tracks::Map;

// The widths of the slabs between n tracks.
fn widths(at: &[u16; 96], n: usize) -> [u32; 96]
    requires { (1 ≤ n) × (n ≤ 96) × Widths at.now (n - 1) }
    ensures { WidthsOf at.now n result }
{
    let mut out = [0u32; 96];
    for k in 0..n - 1 {
        out[k] = width(at, k);
    }
    out
}

// One width for every way of a row.
fn alike(w: u32) -> [u32; 96]
    ensures { result ≡ replicate 96 w }
{
    [w; 96]
}

// Ways that are looked at together: their low ends stand from `low` on, one after the other, their high ends `apart` further.
#[derive(Clone, Copy)]
struct Ways {
    pub low: usize,
    pub apart: usize,
    pub count: usize,
}

// Whether a row of ways is even, looked at to its end: there is no early exit.
#[tactic(auto, using(crate::specs::Even::row_start, crate::specs::Even::slim_at, crate::specs::Even::row_more))]
fn row(d: &[u32; 9216], shut: &[u8; 9216], widths: &[u32; 96], ways: Ways, far: u32) -> bool
    requires { Table d.now × (ways.count ≤ 96) × (ways.low + ways.apart + ways.count ≤ 9216) × Slim widths.now ways.count }
    ensures { result ≡ true → EvenRow d.now shut.now widths.now ways.low ways.apart ways.count far }
{
    let mut even = true;
    for k in 0..ways.count {
        let a = d[ways.low + k];
        let b = d[ways.low + ways.apart + k];
        let w = cost(shut[ways.low + k], widths[k]);
        let up = b.min(far) <= a + w;
        let down = a.min(far) <= b + w;
        even = even & up & down;
    }
    even
}

// Whether the level ways of row j, whose widths are these, are even.
#[tactic(auto, using(crate::specs::Even::slim_widths, crate::specs::Even::level_row))]
fn level_row(d: &[u32; 9216], map: &Map, widths: &[u32; 96], j: usize, far: u32) -> bool
    requires { Table d.now × Ruled (map_of map.now) × WidthsOf map.now.x.at map.now.x.count widths.now × (j < map.now.y.count) }
    ensures { result ≡ true → LevelRow d.now map.now.flat map.now.x.at map.now.x.count far j }
{
    let ways = Ways {
        low: j * 96,
        apart: 1,
        count: map.x.count - 1,
    };
    row(d, &map.flat, widths, ways, far)
}

// Whether the upright ways from row j to the next are even.
fn upright_row(d: &[u32; 9216], map: &Map, j: usize, far: u32) -> bool
    requires { Table d.now × Ruled (map_of map.now) × (j < map.now.y.count - 1) }
    ensures { result ≡ true → UprightRow d.now map.now.tall map.now.y.at map.now.x.count far j }
{
    let widths = alike(width(&map.y.at, j));
    let ways = Ways {
        low: j * 96,
        apart: 96,
        count: map.x.count,
    };
    row(d, &map.tall, &widths, ways, far)
}

// Whether all level ways are even, row by row.
fn rows(d: &[u32; 9216], map: &Map, far: u32) -> bool
    requires { Table d.now × Ruled (map_of map.now) }
    ensures { result ≡ true → EvenRows d.now map.now.flat map.now.x.at map.now.x.count map.now.y.count far }
{
    let widths = widths(&map.x.at, map.x.count);
    (0..map.y.count).all(|j| level_row(d, map, &widths, j, far))
}

// Whether all upright ways are even, row by row.
fn columns(d: &[u32; 9216], map: &Map, far: u32) -> bool
    requires { Table d.now × Ruled (map_of map.now) }
    ensures { result ≡ true → EvenColumns d.now map.now.tall map.now.y.at map.now.x.count (map.now.y.count - 1) far }
{
    (0..map.y.count - 1).all(|j| upright_row(d, map, j, far))
}

// Whether the ways of both axes are even.
#[tactic(auto, using(crate::specs::Even::even_both))]
pub(crate) fn even(d: &[u32; 9216], map: &Map, far: u32) -> bool
    requires { Table d.now × Ruled (map_of map.now) }
    ensures { result ≡ true → Even (map_of map.now) d.now far }
{
    rows(d, map, far) && columns(d, map, far)
}
