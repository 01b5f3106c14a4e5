// The index of a board's items: the tracks, and which of their edges are open.
#![tactic(auto)]

ghost use Rattle.std.specs.Prelude.{◌≡◌, ◌+◌, ◌-◌, ◌<◌, ◌≤◌};
ghost use Rattle.blocks.specs.Flat.{listed, flat};
ghost use Rattle.paper.specs.Grid.{grid_with};
ghost use Rattle.paper.specs.Padding.{WellFormed};
ghost use Rattle.paper.specs.Laws.Back.{layout_of};
ghost use Rattle.paper.specs.Laws.Joins.{joined};
ghost use Rattle.index.specs.Bits.{digit, number, words_of};
ghost use Rattle.crowding.specs.Crowding.{BuiltOn, IndexOf};
ghost use Rattle.crowding.specs.Filling.{cell_of, is_clear, bits_of, Filled, OnTracks};

use blocks::Blocks;
use edges::{edges, open_map};
use index::{Edges, Index, no_index};
use paper::{Board, Size};
use tracks::{MOST_TRACKS, Tracks, of_axis};

// ---- from marks to words

// Where the mark of edge t of the upright or level track k stands.
fn place(upright: bool, k: usize, t: usize) -> usize
    requires { (k < 96) × (t < 96) }
    ensures { result ≡ cell_of upright k t }
{
    if upright { k + t * 96 } else { t + k * 96 }
}

// 1 if there is no mark.
#[tactic(auto, using(crate::specs::Laws::Marking::digit_is), unfolding(crate::specs::Filling::is_clear))]
fn bit(shut: &[u8; 9216], upright: bool, k: usize, t: usize) -> u64
    requires { (k < 96) × (t < 96) }
    ensures { result ≡ digit (is_clear upright shut.now k t) }
{
    u64::from(shut[place(upright, k, t)] == 0)
}

// The edges from a on, before b, as a number, the first lowest.
#[tactic(auto, using(crate::specs::Laws::Marking::number_none, crate::specs::Laws::Marking::number_room, crate::specs::Laws::Marking::number_down, crate::specs::Laws::Marking::digit_le))]
fn word(shut: &[u8; 9216], upright: bool, k: usize, a: usize, b: usize) -> u64
    requires { (k < 96) × (a ≤ b) × (b ≤ 96) × (b ≤ a + 64) }
    ensures { result ≡ number (listed (is_clear upright shut.now k) a (b - a)) }
{
    let mut w = 0;
    for t in (a..b).rev() {
        w = bit(shut, upright, k, t) + 2 * w;
    }
    w
}

// The first n edges of track k.
#[tactic(auto, using(crate::specs::Laws::Marking::words_both))]
fn edges_of(shut: &[u8; 9216], upright: bool, k: usize, n: usize) -> Edges
    requires { (k < 96) × (n ≤ 96) }
    ensures { result ≡ words_of (bits_of upright shut.now k n) }
{
    let low = n.min(64);
    Edges {
        low: word(shut, upright, k, 0, low),
        high: word(shut, upright, k, low, n),
    }
}

// The first n edges of each of so many tracks.
fn lanes(shut: &[u8; 9216], upright: bool, count: usize, n: usize) -> [Edges; MOST_TRACKS]
    requires { (count ≤ 96) × (n ≤ 96) }
    ensures { Filled upright shut.now count n result }
{
    let mut out = [Edges { low: 0, high: 0 }; MOST_TRACKS];
    for k in 0..count {
        out[k] = edges_of(shut, upright, k, n);
    }
    out
}

// ---- the index

// The edges of the tracks of both axes.
fn on_tracks(size: Size, x: Tracks, y: Tracks, held: &Blocks) -> Index
    requires { OnTracks size held.now x y }
    ensures { BuiltOn (grid_with size.w size.h (joined (flat held.now))) (flat held.now) result }
{
    let mut map = open_map(x, y);
    edges(&mut map, held);
    let upright = lanes(&map.tall, true, map.x.count, map.y.count - 1);
    let level = lanes(&map.flat, false, map.y.count, map.x.count - 1);
    Index {
        x: map.x,
        y: map.y,
        upright,
        level,
    }
}

// The index of a board's items, built afresh.
pub fn of_board(board: Board) -> Index
    requires { WellFormed board }
    ensures { IndexOf (layout_of board) result }
{
    let size = board.size;
    if size.w == 0 {
        return no_index();
    }
    // what the items are to a wire: keep-outs, and the boxes of runs; n of them
    let held = blocks::of_board(board, true);
    let n = held.first[held.items];
    let x = of_axis(&held.x0, &held.x1, &held.c, n, size.w, &[]);
    let y = of_axis(&held.y0, &held.y1, &held.c, n, size.h, &[]);
    on_tracks(size, x, y, &held)
}
