// The wire, traced by recursion from s: at each crossing the first of E, N, W, S that is open, nearer by the way and costs what is left for turns.
#![tactic(auto)]

ghost use Rattle.std.specs.Prelude.{◌≡◌, ◌+◌, ◌-◌, ◌*◌, ◌<◌, ◌≤◌, get_or, [], ◌∷◌};
ghost use Rattle.paper.specs.Grid.{step};
ghost use Rattle.paper.specs.Laws.Says.{Says};
ghost use Rattle.paper.specs.Laws.Steps.{axis_of};
ghost use Rattle.distances.specs.Ways.{cell, map_of};
ghost use Rattle.trace.specs.Trail.{Nearer, Along, OnAxis, Leads, Fits, FirstWay, Charted, Room, Tracing, Traces, crossing, dir_of, numbered, way_of, distance, over, toll_of, noted, turns_in, dues, bend_from, axis_by};

use distances::width;
use tracks::{At, Map, Tracks};

// The four ways on from a crossing.
#[derive(Clone, Copy, PartialEq, Eq, Debug)]
pub enum Direction {
    East,
    North,
    West,
    South,
}

// By number: 0 is east, 1 north, 2 west, and every other south.
impl From<u8> for Direction {
    ghost from_gives = { λ n dir. dir_of dir ≡ numbered n };

    fn from(n: u8) -> Direction {
        match n {
            0 => Direction::East,
            1 => Direction::North,
            2 => Direction::West,
            3..=255 => Direction::South,
        }
    }
}

// In the order in which they are tried.
const WAYS: [Direction; 4] = [
    Direction::East,
    Direction::North,
    Direction::West,
    Direction::South,
];

impl Direction {
    // Whether it is upright.
    pub fn upright(self) -> bool
        ensures { axis_of (dir_of self) ≡ axis_by result }
    {
        match self {
            Direction::East | Direction::West => false,
            Direction::North | Direction::South => true,
        }
    }
}

// A map, and the distance still to go at each crossing.
#[derive(Clone, Copy)]
pub struct Chart<'a> {
    pub map: &'a Map,
    pub d: &'a [u32; 9216],
    ghost charted: { Charted (map_of map.now) d.now },
}

// Where the corners of a wire stand. Places past the last hold what they held.
#[derive(Clone, Copy, PartialEq, Eq, Debug)]
pub struct Corners {
    pub xs: [u16; 25],
    pub ys: [u16; 25],
}

impl Corners {
    // Writes where the crossing stands, if there is room.
    #[tactic(auto, using(crate::specs::Over::over_one, crate::specs::Over::over_past))]
    fn write(&mut self, at: usize, map: &Map, q: At)
        requires { (q.i < 96) × (q.j < 96) }
        ensures xs { self.new.xs ≡ over at (get_or map.now.x.at q.i 0 ∷ []) self.old.xs }
        ensures ys { self.new.ys ≡ over at (get_or map.now.y.at q.j 0 ∷ []) self.old.ys }
    {
        if at < 25 {
            self.xs[at] = map.x.at[q.i];
            self.ys[at] = map.y.at[q.j];
        }
    }
}

// The place of a crossing in a table.
pub fn place(q: At) -> usize
    requires { (q.i < 96) × (q.j < 96) }
    ensures { result ≡ cell q.i q.j }
{
    q.i + q.j * 96
}

// Whether a way is open, and leads from `here` to what is nearer by its width.
fn nearer(d: &[u32; 9216], shut: u8, next: usize, here: usize, wide: u32) -> bool
    requires { (next < 9216) × (here < 9216) × (get_or d.now next 0 ≤ 1000000000) × (wide ≤ 30000) }
    ensures { Says result (Nearer d.now shut next here wide) }
{
    shut == 0 && d[next] + wide == d[here]
}

// The same on one axis, forth or back: u is the number of the track that `here` stands on, and neighbours stand `step` apart in the table.
// Seven parameters: a map keeps the tracks of an axis apart from its marks, and a struct of both would be made for each way that is looked at.
#[tactic(auto, using(crate::specs::Leading::along_forth, crate::specs::Leading::along_end, crate::specs::Leading::along_back, crate::specs::Leading::along_start))]
fn along(
    d: &[u32; 9216],
    shut: &[u8; 9216],
    axis: &Tracks,
    u: usize,
    here: usize,
    step: usize,
    forth: bool,
) -> bool
    requires { OnAxis d.now axis.now.at axis.now.count u here step }
    ensures { Says result (Along d.now shut.now axis.now.at axis.now.count u here step forth) }
{
    if forth {
        u + 1 < axis.count && nearer(d, shut[here], here + step, here, width(&axis.at, u))
    } else {
        u > 0
            && nearer(
                d,
                shut[here - step],
                here - step,
                here,
                width(&axis.at, u - 1),
            )
    }
}

// The neighbour in a direction that leads somewhere.
#[tactic(auto, unfolding(crate::specs::Trail::Room, paper::specs::Grid::step))]
pub fn next(q: At, dir: Direction) -> At
    requires { Room q (dir_of dir) }
    ensures { crossing result ≡ step (dir_of dir) (crossing q) }
{
    match dir {
        Direction::East => At { i: q.i + 1, j: q.j },
        Direction::North => At { i: q.i, j: q.j + 1 },
        Direction::West => At { i: q.i - 1, j: q.j },
        Direction::South => At { i: q.i, j: q.j - 1 },
    }
}

// What the table of turns says of a crossing, come to it by the direction: one more than the turns still to make, or 0 where it was not seen.
// Not an `Option`, which would make the table twice as large.
pub fn noted(turns: &[u32], q: At, dir: Direction) -> u32
    requires { (q.i < 96) × (q.j < 96) }
    ensures { result ≡ noted turns.now (axis_of (dir_of dir)) (crossing q) }
{
    let here = place(q);
    let at = if dir.upright() { here + 9216 } else { here };
    turns.get(at).copied().unwrap_or(0)
}

// The turns still to make, come to the crossing by the direction: none where it was not seen.
pub fn turns_at(turns: &[u32], q: At, dir: Direction) -> u32
    requires { (q.i < 96) × (q.j < 96) }
    ensures { (result ≡ turns_in turns.now (axis_of (dir_of dir)) (crossing q)) × (result < 4294967295) }
{
    noted(turns, q, dir).saturating_sub(1)
}

// What is left for turns, come to the crossing by the direction: nothing where they cost nothing.
fn due(turns: Option<&[u32]>, q: At, dir: Direction) -> u32
    requires { (q.i < 96) × (q.j < 96) }
    ensures { let o = toll_of turns.entry in result ≡ dues o.price o.table (axis_of (dir_of dir)) (crossing q) }
{
    match turns {
        Some(table) => turns_at(table, q, dir),
        None => 0,
    }
}

// What a turn costs going on in the direction, come by `came`: nothing straight on, nor where the wire begins.
fn bend(came: Option<Direction>, dir: Direction) -> u32
    ensures { result ≡ bend_from 1 (way_of came) (axis_of (dir_of dir)) }
{
    match came {
        Some(from) => u32::from(from.upright() != dir.upright()),
        None => 0,
    }
}

// The distance still to go from a crossing.
pub fn left_at(d: &[u32; 9216], q: At) -> u32
    requires { (q.i < 96) × (q.j < 96) }
    ensures { result ≡ distance d.now (crossing q) }
{
    d[place(q)]
}

impl Chart<'_> {
    // Whether the way in the direction is open and leads nearer by its length.
    pub fn leads(&self, q: At, dir: Direction) -> bool
        requires { (q.i < self.now.map.now.x.count) × (q.j < self.now.map.now.y.count) }
        ensures { Says result (Leads (map_of self.now.map.now) self.now.d.now (crossing q) (dir_of dir)) }
    {
        let map = self.map;
        let here = place(q);
        match dir {
            Direction::East => along(self.d, &map.flat, &map.x, q.i, here, 1, true),
            Direction::North => along(self.d, &map.tall, &map.y, q.j, here, 96, true),
            Direction::West => along(self.d, &map.flat, &map.x, q.i, here, 1, false),
            Direction::South => along(self.d, &map.tall, &map.y, q.j, here, 96, false),
        }
    }

    // Whether the way in the direction is open, leads nearer by its length, and costs what is left for turns.
    fn fits(
        &self,
        turns: Option<&[u32]>,
        came: Option<Direction>,
        left: u32,
        q: At,
        dir: Direction,
    ) -> bool
        requires { (q.i < self.now.map.now.x.count) × (q.j < self.now.map.now.y.count) }
        ensures { Says result (Fits (map_of self.now.map.now)
            self.now.d.now (toll_of turns.entry) (way_of came) left (crossing q) (dir_of dir)) }
    {
        self.leads(q, dir)
            && match turns {
                Some(table) => turns_at(table, next(q, dir), dir) + bend(came, dir) == left,
                None => left == 0,
            }
    }

    // The first direction that fits.
    fn first_way(
        &self,
        turns: Option<&[u32]>,
        came: Option<Direction>,
        left: u32,
        q: At,
    ) -> Option<Direction>
        requires { (q.i < self.now.map.now.x.count) × (q.j < self.now.map.now.y.count) }
        ensures { FirstWay (map_of self.now.map.now)
            self.now.d.now (toll_of turns.entry) (way_of came) left (crossing q) (way_of result) }
    {
        WAYS.iter()
            .find(|&&dir| self.fits(turns, came, left, q, dir))
            .copied()
    }
}

// Writes the corners of the wire from q to g from the place `at` on, as far as there is room, and gives the place after the last.
// The wire has come to q by the direction `came`, or begins there; `remaining` is the distance still to go, `left` what is left for turns.
// `turns` is the table of turns still to make; without one they cost nothing. By reference, as `chart`: the same in every call, it needs no place in
// the calls' frames, and a call that is the last thing done is a jump.
// Nine parameters: what changes from call to call changes all at once, so a struct of it would be taken apart and made anew in each.
pub fn trace(
    chart: &Chart<'_>,
    turns: &Option<&[u32]>,
    q: At,
    g: At,
    came: Option<Direction>,
    remaining: u32,
    left: u32,
    corners: &mut Corners,
    at: usize,
) -> usize
    requires { Tracing (map_of chart.now.map.now) chart.now.d.now q g remaining at }
    ensures { Traces (map_of chart.now.map.now) chart.now.d.now (toll_of turns.now) (crossing g) (crossing q) (way_of came)
        left at corners.old.xs corners.new.xs corners.old.ys corners.new.ys result }
{
    if q == g {
        corners.write(at, chart.map, q);
        return at + 1;
    }
    let Some(dir) = chart.first_way(*turns, came, left, q) else {
        return at;
    };
    let to = next(q, dir);
    let ahead = left_at(chart.d, to);
    let rest = due(*turns, to, dir);
    if came == Some(dir) {
        return trace(chart, turns, to, g, came, ahead, rest, corners, at);
    }
    corners.write(at, chart.map, q);
    trace(chart, turns, to, g, Some(dir), ahead, rest, corners, at + 1)
}
