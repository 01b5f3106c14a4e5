// The blocks of a board's items as flat arrays, and the scan for the first item that blocks a place.
#![tactic(auto)]

ghost use Rattle.std.specs.Prelude.{◌≡◌, ◌<◌, ◌≤◌, max, [], ◌∷◌};
ghost use Rattle.paper.specs.Limits.{most_blocks, most_runs};
ghost use Rattle.paper.specs.Grid.{widened, Meets, Hits, Blocked};
ghost use Rattle.paper.specs.Layout.{wires, Meet};
ghost use Rattle.paper.specs.Laws.Back.{thing_of, layout_of};
ghost use Rattle.paper.specs.Laws.Says.{Says};
ghost use Rattle.blocks.specs.Flat.{span, place_area, place_at, Fits, looked, FirstIs, Hit, packed, Held, HeldOf, sort_to};
ghost use Rattle.blocks.specs.Growing.{with_end, stretch_at, stretched, Room, Grows, Adds};
ghost use Rattle.blocks.specs.Laws.Board.{Drawn};
ghost use Rattle.blocks.specs.Meeting.{Placed, block_number, kept_from};

use paper::{Board, Item, MOST_BLOCKS};

// The blocks of at most 46 items, in the items' order. Those of item i stand from first[i] up to first[i + 1].
// Block k is the area from (x0[k], y0[k]) to (x1[k], y1[k]), widened by c[k] on all four sides. Places not used hold 0.
// Arrays and no list of boxes: an axis is three of them, which `tracks::of_axis` is lent for the one axis and for the other.
#[derive(Clone, Copy)]
pub struct Blocks {
    pub items: usize,
    pub first: [usize; MOST_BLOCKS + 1],
    pub wires: [bool; MOST_BLOCKS],
    pub x0: [u16; MOST_BLOCKS],
    pub y0: [u16; MOST_BLOCKS],
    pub x1: [u16; MOST_BLOCKS],
    pub y1: [u16; MOST_BLOCKS],
    pub c: [u16; MOST_BLOCKS],
}

// A node, a unit edge, a run or a rectangle, by its low and its high corner.
#[derive(Clone, Copy)]
pub struct Place {
    pub x0: u16,
    pub y0: u16,
    pub x1: u16,
    pub y1: u16,
}

// Which items count.
#[derive(Clone, Copy)]
pub enum Look {
    KeepOuts,
    Wires,
    Either,
}

impl Blocks {
    // Block k without its width.
    pub fn place(&self, k: usize) -> Place
        requires { k < most_blocks }
        ensures { result ≡ place_at self.now k }
    {
        Place {
            x0: self.x0[k],
            y0: self.y0[k],
            x1: self.x1[k],
            y1: self.y1[k],
        }
    }
}

// ---- the scan

// On one axis: whether what lies between a and b meets the block from lo to hi, widened by c.
#[tactic(auto, unfolding(paper::specs::Grid::Meets))]
pub fn meets(lo: u16, hi: u16, c: u16, a: u16, b: u16) -> bool
    ensures { Says result (Meets (span lo hi c) a b) }
{
    u32::from(lo) < u32::from(b) + u32::from(c) && u32::from(a) < u32::from(hi) + u32::from(c)
}

// Whether q, widened by c on all four sides, and p have more than a side in common.
#[tactic(auto, unfolding(paper::specs::Grid::Hits))]
pub fn overlaps(q: Place, c: u16, p: Place) -> bool
    ensures { Says result (Hits (widened c (place_area q)) (place_area p)) }
{
    meets(q.x0, q.x1, c, p.x0, p.x1) && meets(q.y0, q.y1, c, p.y0, p.y1)
}

// Whether an item counts; `wire` says which sort it is of.
fn counts(look: Look, wire: bool) -> bool
    ensures { result ≡ looked look wire }
{
    match look {
        Look::KeepOuts => !wire,
        Look::Wires => wire,
        Look::Either => true,
    }
}

// The first item that counts and blocks the place. The form is document 01's: nested loops, left by a label at the first block met.
// The outer one counts by hand, since a `for` has no value to break with.
pub fn scan(b: Blocks, look: Look, p: Place) -> Option<usize>
    requires { Fits b }
    ensures { FirstIs b look p result }
{
    let n = b.items;
    let mut i: usize = 0;
    'scan: loop {
        if i >= n {
            break None;
        }
        if counts(look, b.wires[i]) {
            for k in b.first[i]..b.first[i + 1] {
                if overlaps(b.place(k), b.c[k], p) {
                    break 'scan Some(i);
                }
            }
        }
        i += 1;
    }
}

// Whether there is one.
#[tactic(auto, unfolding(crate::specs::Flat::Hit))]
pub fn hit(b: Blocks, look: Look, p: Place) -> bool
    requires { Fits b }
    ensures { Hit b look p result }
{
    scan(b, look, p).is_some()
}

// ---- the blocks of a board

// No item.
#[tactic(auto, unfolding(crate::specs::Flat::packed))]
fn none() -> Blocks
    ensures { result ≡ packed (0 ∷ []) [] [] }
{
    Blocks {
        items: 0,
        first: [0; MOST_BLOCKS + 1],
        wires: [false; MOST_BLOCKS],
        x0: [0; MOST_BLOCKS],
        y0: [0; MOST_BLOCKS],
        x1: [0; MOST_BLOCKS],
        y1: [0; MOST_BLOCKS],
        c: [0; MOST_BLOCKS],
    }
}

// An item more, whose blocks are there and end before `end`.
fn close(b: &mut Blocks, end: usize, wire: bool)
    requires { b.old.items < most_blocks }
    ensures { b.new ≡ with_end b.old end wire }
{
    b.wires[b.items] = wire;
    b.items += 1;
    b.first[b.items] = end;
}

// What lies between corners k and k + 1: a run of a wire, or a keep-out.
pub fn stretch(item: Item, k: usize) -> Place
    requires { k < most_runs }
    ensures { place_area result ≡ stretch_at item k }
{
    let ax = item.xs[k];
    let ay = item.ys[k];
    let bx = item.xs[k + 1];
    let by = item.ys[k + 1];
    Place {
        x0: ax.min(bx),
        y0: ay.min(by),
        x1: ax.max(bx),
        y1: ay.max(by),
    }
}

// An item more: its first n stretches, each widened by c.
fn grow(b: &mut Blocks, item: Item, n: usize, c: u16, wire: bool)
    requires { (n ≤ most_runs) × Room b.old n }
    ensures { Grows b.old item n c wire b.new }
{
    let at = b.first[b.items];
    for k in 0..n {
        let p = stretch(item, k);
        b.x0[at + k] = p.x0;
        b.y0[at + k] = p.y0;
        b.x1[at + k] = p.x1;
        b.y1[at + k] = p.y1;
        b.c[at + k] = c;
    }
    close(b, at + n, wire);
}

// An item more. A keep-out is one block, from which no distance is kept; a wire is one block for each run.
fn with_item(b: &mut Blocks, item: Item, c: u16)
    requires { (item.runs ≤ most_runs) × Room b.old (max 1 item.runs) }
    ensures { Adds b.old item c b.new }
{
    let runs = item.runs;
    if runs == 0 {
        grow(b, item, 1, 0, false);
        return;
    }
    grow(b, item, usize::from(runs), c, true);
}

// The blocks of all items, with the distance c kept from wires.
fn gather(board: Board, c: u16) -> Blocks
    requires { Drawn board (layout_of board).items }
    ensures { Held result c wires (layout_of board).items }
{
    let mut out = none();
    for i in 0..board.count {
        with_item(&mut out, board.items[i], c);
    }
    out
}

// The blocks that the board's items are to a wire, or to a keep-out, which keeps no distance.
pub fn of_board(board: Board, to_wire: bool) -> Blocks
    requires { Drawn board (layout_of board).items }
    ensures { HeldOf result (sort_to to_wire) (layout_of board) }
{
    if to_wire {
        return gather(board, board.size.clearance);
    }
    gather(board, 0)
}

// ---- two items

// How many blocks an item with so many runs is.
pub fn block_number(runs: u8) -> usize
    ensures { result ≡ block_number runs }
{
    usize::from(runs).max(1)
}

// How far two items with so many runs stay from each other.
fn kept_from(a: u8, b: u8, c: u16) -> u16
    ensures { result ≡ kept_from a b c }
{
    if a == 0 || b == 0 { 0 } else { c }
}

// Whether one of the item's first n stretches, widened by c, blocks the place.
fn near(item: Item, n: usize, c: u16, p: Place) -> bool
    requires { n ≤ most_runs }
    ensures { Says result (Blocked (stretched item n c) (place_area p)) }
{
    (0..n).any(|k| overlaps(stretch(item, k), c, p))
}

// Whether a place of u is blocked by t. The arrays are not built for it.
pub fn meet(t: Item, u: Item, c: u16) -> bool
    requires { Placed t × Placed u }
    ensures { Says result (Meet c (thing_of t) (thing_of u)) }
{
    let d = kept_from(t.runs, u.runs, c);
    let n = block_number(t.runs);
    let m = block_number(u.runs);
    (0..m).any(|k| near(t, n, d, stretch(u, k)))
}
