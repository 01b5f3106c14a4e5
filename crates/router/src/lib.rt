// From blocks and two pins to the answered wire.
#![tactic(auto)]

ghost use Rattle.std.specs.Prelude.{◌≡◌, ◌<◌, ◌≤◌, get_or};
ghost use Rattle.paper.specs.Grid.{grid_with};
ghost use Rattle.paper.specs.Wire.{manhattan};
ghost use Rattle.paper.specs.Answer.{source, target};
ghost use Rattle.paper.specs.Laws.Joins.{joined};
ghost use Rattle.blocks.specs.Flat.{flat, Fits};
ghost use Rattle.distances.specs.Ways.{map_of};
ghost use Rattle.trace.specs.Trail.{toll_of};
ghost use Rattle.router.specs.Route.{AnswersIn, Asked};
ghost use Rattle.router.specs.Told.{Tells, Fewer, ToldIn, Ready, Stands, Tracked, detour_for};

use bends::bends;
use blocks::Blocks;
use distances::{NONE, distances};
use edges::edges;
use paper::{Mode, Pins, Size};
use trace::{Chart, Corners, Direction, left_at, trace, turns_at};
use tracks::{At, Map, Tracks, of_axis};

// The wire's length, its detour, how many corners it has and where they stand. Places past the last hold 0.
// Arrays of fixed size, as an item has them: memory is fixed.
#[derive(Clone, Copy, PartialEq, Eq, Debug)]
pub struct Wire {
    pub length: u32,
    pub detour: u32,
    pub corners: usize,
    pub xs: [u16; 25],
    pub ys: [u16; 25],
}

// Why there is no wire to tell; and how long one of too many runs is.
#[derive(Clone, Copy, PartialEq, Eq, Debug)]
pub enum Untold {
    NoWire,
    TooManyRuns(u32),
}

// Half of what the wire is longer than on a board without blocks.
#[tactic(auto, unfolding(paper::specs::Wire::manhattan, paper::specs::Wire::gap, crate::specs::Told::detour_for))]
fn detour(long: u32, p: Pins) -> u32
    requires { manhattan (source p) (target p) ≤ long }
    ensures { result ≡ detour_for long p }
{
    (long - u32::from(p.sx.abs_diff(p.tx)) - u32::from(p.sy.abs_diff(p.ty))) / 2
}

// From the table of distances to the answer.
#[tactic(auto, using(trace::specs::Hops::from_start))]
fn tell(
    chart: &Chart<'_>,
    turns: Option<&[u32]>,
    left: u32,
    s: At,
    t: At,
    p: Pins,
) -> Result<Wire, Untold>
    requires { Ready (map_of chart.now.map.now) chart.now.d.now s t p }
    ensures { Tells (map_of chart.now.map.now) chart.now.d.now (toll_of turns.entry) left s t p result }
{
    let long = left_at(chart.d, s);
    if long == NONE {
        return Err(Untold::NoWire);
    }
    let mut at = Corners {
        xs: [0; 25],
        ys: [0; 25],
    };
    let corners = trace(chart, &turns, s, t, None, long, left, &mut at, 0);
    if corners > 25 {
        return Err(Untold::TooManyRuns(long));
    }
    Ok(Wire {
        length: long,
        detour: detour(long, p),
        corners,
        xs: at.xs,
        ys: at.ys,
    })
}

// The same where a turn costs one: through the table of turns.
fn fewest(chart: &Chart<'_>, s: At, t: At, p: Pins) -> Result<Wire, Untold>
    requires { Ready (map_of chart.now.map.now) chart.now.d.now s t p }
    ensures { Fewer (map_of chart.now.map.now) chart.now.d.now s t p result }
{
    if left_at(chart.d, s) == NONE {
        return Err(Untold::NoWire);
    }
    let mut turns = [0; 18432];
    bends(chart, &mut turns, s, t);
    let left = turns_at(&turns, s, Direction::East).min(turns_at(&turns, s, Direction::North));
    tell(chart, Some(&turns[..]), left, s, t, p)
}

// By the mode.
fn by_mode(chart: &Chart<'_>, s: At, t: At, p: Pins, mode: Mode) -> Result<Wire, Untold>
    requires { Ready (map_of chart.now.map.now) chart.now.d.now s t p }
    ensures { ToldIn mode (map_of chart.now.map.now) chart.now.d.now s t p result }
{
    match mode {
        Mode::Plain => tell(chart, None, 0, s, t, p),
        Mode::Fewest => fewest(chart, s, t, p),
    }
}

// The number of the track that stands at v.
fn index_of(axis: &Tracks, v: u16) -> usize
    requires { (axis.now.count ≤ 96) × Stands axis.now.at axis.now.count v }
    ensures { (result < axis.now.count) × (get_or axis.now.at result 0 ≡ v) }
{
    (0..axis.count).find(|&i| axis.at[i] == v).unwrap()
}

// The crossing that stands at (x, y).
fn crossing_at(map: &Map, x: u16, y: u16) -> At
    requires few { (map.now.x.count ≤ 96) × (map.now.y.count ≤ 96) }
    requires stands { Stands map.now.x.at map.now.x.count x × Stands map.now.y.at map.now.y.count y }
    ensures upright_track { (result.i < map.now.x.count) × (get_or map.now.x.at result.i 0 ≡ x) }
    ensures level_track { (result.j < map.now.y.count) × (get_or map.now.y.at result.j 0 ≡ y) }
{
    At {
        i: index_of(&map.x, x),
        j: index_of(&map.y, y),
    }
}

// On the tracks of both axes: the ways that are shut, the distances, the answer.
fn on_tracks(
    size: Size,
    x: Tracks,
    y: Tracks,
    held: &Blocks,
    p: Pins,
    mode: Mode,
) -> Result<Wire, Untold>
    requires { Tracked size held.now p x y }
    ensures { AnswersIn mode (grid_with size.w size.h (joined (flat held.now))) (source p) (target p) result }
{
    // Not by `edges::open_map`, whose map would be copied once more.
    let mut map = Map {
        x,
        y,
        flat: [0; 9216],
        tall: [0; 9216],
    };
    edges(&mut map, held);
    let s = crossing_at(&map, p.sx, p.sy);
    let t = crossing_at(&map, p.tx, p.ty);
    let d = distances(&map, t, s);
    by_mode(&Chart { map: &map, d: &d }, s, t, p, mode)
}

// The answered wire between two pins in a mode, or why there is none to tell.
pub fn find_wire(size: Size, held: Blocks, p: Pins, mode: Mode) -> Result<Wire, Untold>
    requires { Fits held × Asked size (flat held) p }
    ensures { AnswersIn mode (grid_with size.w size.h (joined (flat held))) (source p) (target p) result }
{
    let n = held.first[held.items];
    let x = of_axis(&held.x0, &held.x1, &held.c, n, size.w, &[p.sx, p.tx]);
    let y = of_axis(&held.y0, &held.y1, &held.c, n, size.h, &[p.sy, p.ty]);
    on_tracks(size, x, y, &held, p, mode)
}
