// Which ways between neighbouring crossings are shut: marked block by block and for each two that share a side, a rectangle of marks each.
#![tactic(auto)]

ghost use Rattle.std.specs.Prelude.{◌≡◌, ◌≤◌, ◌<◌, get_or};
ghost use Rattle.paper.specs.Grid.{level, upright, widened};
ghost use Rattle.blocks.specs.Flat.{place_area, first_at};
ghost use Rattle.edges.specs.Ranges.{Rising, Ascending, Below, Meeting};
ghost use Rattle.edges.specs.Marks.{Filled, Boxed, boxes, Blank, Marked};
ghost use Rattle.edges.specs.Maps.{Mapped, Gains, ByBlock, ByRectangle, BySeams};

use blocks::{Blocks, Place};
use seams::join;
use tracks::{Map, Tracks};

// From one track up to another, which is not in it. `std::ops::Range` is no `Copy`, and `Both` is one.
#[derive(Clone, Copy, PartialEq, Eq, Debug)]
pub struct Range {
    pub from: usize,
    pub to: usize,
}

// Both ranges that an open interval meets on one axis: the slabs, told by their low track, whose first unit it meets, and the tracks that lie in it.
#[derive(Clone, Copy, PartialEq, Eq, Debug)]
pub struct Both {
    pub slabs: Range,
    pub tracks: Range,
}

// The first track from `from` on that does not lie below v, or how many there are where there is none. One after the other: a search by halves
// was tried, and takes longer, since there are 96 at most.
fn below(tracks: &Tracks, v: u32, from: usize) -> usize
    requires { (tracks.now.count ≤ 96) × (from ≤ tracks.now.count) }
    ensures { Below tracks.now.at tracks.now.count v from result }
{
    let ahead = &tracks.at[from..tracks.count];
    match ahead.iter().position(|&track| u32::from(track) >= v) {
        Some(k) => from + k,
        None => tracks.count,
    }
}

// What the open interval from lo - c to hi + c meets. The slabs begin no later than the tracks, so the other two places are looked for from the
// slabs' begin on. Where hi + c lies before that, neither range ends after it begins, and nothing is in it.
fn met(tracks: &Tracks, lo: u16, hi: u16, c: u16) -> Both
    requires { Ascending tracks.now }
    ensures { Meeting tracks.now.at tracks.now.count lo hi c 1 result.slabs × Meeting tracks.now.at tracks.now.count lo hi c 0 result.tracks }
{
    let low = u32::from(lo);
    let width = u32::from(c);
    let slab = below(tracks, low.saturating_sub(width), 0);
    let track = below(tracks, (low + 1).saturating_sub(width), slab);
    let end = below(tracks, u32::from(hi) + width, slab);
    Both {
        slabs: Range {
            from: slab,
            to: end,
        },
        tracks: Range {
            from: track,
            to: end,
        },
    }
}

// Marks a row of places.
fn mark_row(shut: &mut [u8; 9216], from: usize, to: usize)
    requires { to ≤ 9216 }
    ensures { Filled shut.old shut.new from to }
{
    for k in from..to {
        shut[k] = 1;
    }
}

// Marks a rectangle of crossings.
fn mark(shut: &mut [u8; 9216], x: Range, y: Range)
    requires { (x.from ≤ 96) × (x.to ≤ 96) × (y.to ≤ 96) }
    ensures { Boxed shut.old shut.new x y }
{
    for j in y.from..y.to {
        mark_row(shut, x.from + j * 96, x.to + j * 96);
    }
}

// Marks the ways that the block from p, widened by c, shuts: level ones, told by their left crossing, and upright ones, told by the one below.
// Never inlined, so that the loop over pairs of blocks, of which few share a side, stays small.
#[inline(never)]
fn mark_block(map: &mut Map, p: Place, c: u16)
    requires { Mapped map.old }
    ensures { Gains map.old map.new (ByBlock (widened c (place_area p))) }
{
    let x = met(&map.x, p.x0, p.x1, c);
    let y = met(&map.y, p.y0, p.y1, c);
    mark(&mut map.flat, x.slabs, y.tracks);
    mark(&mut map.tall, x.tracks, y.slabs);
}

// Marks the ways between block m and block k, which is not widened, if m is not either and they share a side: those that the rectangle of both shuts.
fn mark_seam(map: &mut Map, held: &Blocks, m: usize, k: usize)
    requires { Mapped map.old × (m < 46) × (k < 46) × (get_or held.now.c k 0 ≡ 0) }
    ensures { Gains map.old map.new (ByRectangle (boxes held.now m) (boxes held.now k)) }
{
    let before = held.c[m];
    if before != 0 {
        return;
    }
    let Some(q) = join(held.place(m), held.place(k)) else {
        return;
    };
    mark_block(map, q, 0);
}

// Marks the ways between block k and each before it. A block that is widened is a run's, and has none.
fn mark_seams(map: &mut Map, held: &Blocks, k: usize)
    requires { Mapped map.old × (k < 46) }
    ensures { Gains map.old map.new (BySeams (boxes held.now) k k) }
{
    let width = held.c[k];
    if width != 0 {
        return;
    }
    for m in 0..k {
        mark_seam(map, held, m, k);
    }
}

// Marks the ways that the blocks shut, one by one and two by two, on tables without marks.
pub fn edges(map: &mut Map, held: &Blocks)
    requires blank { Blank map.old.flat × Blank map.old.tall }
    requires tracks { Mapped map.old }
    requires few { (held.now.items ≤ 46) × (first_at held.now held.now.items ≤ 46) }
    ensures tracks { (map.new.x ≡ map.old.x) × (map.new.y ≡ map.old.y) }
    ensures level_ways { Marked level map.new.flat map.new.x.at map.new.x.count map.new.y.at map.new.y.count (boxes held.now) (first_at held.now held.now.items) }
    ensures upright_ways { Marked upright map.new.tall map.new.x.at map.new.x.count map.new.y.at map.new.y.count (boxes held.now) (first_at held.now held.now.items) }
{
    for k in 0..held.first[held.items] {
        mark_block(map, held.place(k), held.c[k]);
        mark_seams(map, held, k);
    }
}

// The map of these tracks, on which no way is shut yet.
pub fn open_map(x: Tracks, y: Tracks) -> Map
    ensures tracks { (result.x ≡ x) × (result.y ≡ y) }
    ensures blank { Blank result.flat × Blank result.tall }
{
    Map {
        x,
        y,
        flat: [0; 9216],
        tall: [0; 9216],
    }
}
