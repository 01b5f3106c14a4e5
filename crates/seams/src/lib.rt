// Keep-outs that share a side: the rectangle that spans both where they face each other, and what goes across it, so along the seam between them.
#![tactic(auto)]

ghost use Rattle.std.specs.Prelude.{◌≡◌, ◌<◌, ◌≤◌};
ghost use Rattle.paper.specs.Laws.Says.{Says};
ghost use Rattle.paper.specs.Laws.Joins.{join_of};
ghost use Rattle.blocks.specs.declared.Look.TheVariants.{KeepOuts, Wires};
ghost use Rattle.blocks.specs.Flat.{Fits, FirstIs};
ghost use Rattle.seams.specs.Seaming.{place_box, joined_is, Keeps, Crosses, CrossesOf, CrossedAt, CrossedAny, SeamAt, SeamWith, SeamOf, HitOr, cell_at, RoundIs};
ghost use Rattle.seams.specs.Laws.Crossing.{IsKept};

use blocks::{Blocks, Look, Place, hit, overlaps, scan};

// ---- two rectangles

// What spans two rectangles where they face each other, if they share a side: they touch on one axis and have more than a point in common on
// the other. It is both across the side, and along it what they have in common.
pub fn join(a: Place, b: Place) -> Option<Place>
    ensures { join_of (place_box a) (place_box b) ≡ joined_is result }
{
    let x0 = a.x0.max(b.x0);
    let x1 = a.x1.min(b.x1);
    let y0 = a.y0.max(b.y0);
    let y1 = a.y1.min(b.y1);
    if x0 == x1 && y0 < y1 {
        return Some(Place {
            x0: a.x0.min(b.x0),
            y0,
            x1: a.x1.max(b.x1),
            y1,
        });
    }
    if x0 < x1 && y0 == y1 {
        return Some(Place {
            x0,
            y0: a.y0.min(b.y0),
            x1,
            y1: a.y1.max(b.y1),
        });
    }
    None
}

// ---- the keep-outs that are held

// The rectangle of item m, if it is a keep-out.
fn keep_out(held: &Blocks, m: usize) -> Option<Place>
    requires { Keeps held.now × (m < held.now.items) }
    ensures { IsKept held.now m result }
{
    if held.wires[m] {
        return None;
    }
    Some(held.place(held.first[m]))
}

// Whether item m is a keep-out, and a wire goes across its rectangle with p.
fn crosses(held: &Blocks, m: usize, p: Place) -> bool
    requires { Keeps held.now × (m < held.now.items) }
    ensures { Says result (Crosses held.now p m) }
{
    let Some(q) = keep_out(held, m) else {
        return false;
    };
    join(q, p).is_some_and(|r| hit(*held, Look::Wires, r))
}

// Whether a wire goes across the rectangle of p and a keep-out among the first n items.
#[tactic(auto, unfolding(crate::specs::Seaming::Crosses))]
fn closes(held: &Blocks, n: usize, p: Place) -> bool
    requires { Keeps held.now × (n ≤ held.now.items) }
    ensures { Says result (CrossesOf held.now n p) }
{
    (0..n).any(|m| crosses(held, m, p))
}

// ---- a place along a seam

// Whether items l and m are keep-outs, and the place goes across their rectangle.
fn seam_at(held: &Blocks, m: usize, l: usize, p: Place) -> bool
    requires { Keeps held.now × (m < held.now.items) × (l < held.now.items) }
    ensures { Says result (SeamAt held.now p m l) }
{
    match (keep_out(held, l), keep_out(held, m)) {
        (Some(q), Some(r)) => join(q, r).is_some_and(|s| overlaps(s, 0, p)),
        _ => false,
    }
}

// The same of item m and one before it.
#[tactic(auto, unfolding(crate::specs::Seaming::SeamAt))]
fn seam_with(held: &Blocks, m: usize, p: Place) -> bool
    requires { Keeps held.now × (m < held.now.items) }
    ensures { Says result (SeamWith held.now p m) }
{
    (0..m).any(|l| seam_at(held, m, l, p))
}

// Whether the place goes across the rectangle of some two keep-outs.
#[tactic(auto, unfolding(crate::specs::Seaming::SeamAt))]
fn seamed(held: &Blocks, p: Place) -> bool
    requires { Keeps held.now }
    ensures { Says result (SeamOf held.now p) }
{
    (0..held.items).any(|m| seam_with(held, m, p))
}

// ---- with what stands in a keep-out's way, and in a run's

// A wire is in the way of a keep-out: inside it, or along a seam that it would close.
#[tactic(auto, unfolding(crate::specs::Seaming::HitOr))]
pub fn stopped(held: Blocks, p: Place) -> bool
    requires { Keeps held }
    ensures { HitOr held Wires p (CrossesOf held held.items p) result }
{
    hit(held, Look::Wires, p) || closes(&held, held.items, p)
}

// A keep-out is in the way of a run: the run enters it, or goes along a seam of two.
#[tactic(auto, unfolding(crate::specs::Seaming::HitOr))]
pub fn entered(held: Blocks, p: Place) -> bool
    requires { Keeps held }
    ensures { HitOr held KeepOuts p (SeamOf held p) result }
{
    hit(held, Look::KeepOuts, p) || seamed(&held, p)
}

// ---- the cells round a node

// The first keep-out that holds the cell below and left of a node.
fn cell(held: Blocks, x: u16, y: u16) -> Option<usize>
    requires { Fits held × (1 ≤ x) × (1 ≤ y) }
    ensures { FirstIs held KeepOuts (cell_at x y) result }
{
    let place = Place {
        x0: x - 1,
        y0: y - 1,
        x1: x,
        y1: y,
    };
    scan(held, Look::KeepOuts, place)
}

// The first of the keep-outs round a node, where each of the four cells lies in one. The first cell that lies in none says that there is none.
pub fn round(held: Blocks, x: u16, y: u16) -> Option<usize>
    requires { Fits held × (x < 65535) × (y < 65535) }
    ensures { RoundIs held x y result }
{
    if x == 0 || y == 0 {
        return None;
    }
    let i = cell(held, x, y)?;
    let j = cell(held, x + 1, y)?;
    let k = cell(held, x, y + 1)?;
    let l = cell(held, x + 1, y + 1)?;
    Some(i.min(j).min(k.min(l)))
}

// ---- all wires against all keep-outs

// Whether item i is a keep-out, and a wire goes across its rectangle with one before it.
fn crossed_at(held: &Blocks, i: usize) -> bool
    requires { Keeps held.now × (i < held.now.items) }
    ensures { Says result (CrossedAt held.now i) }
{
    keep_out(held, i).is_some_and(|q| closes(held, i, q))
}

// Whether a wire goes across the rectangle of some two keep-outs.
#[tactic(auto, unfolding(crate::specs::Seaming::CrossedAt))]
pub fn crossed(held: Blocks) -> bool
    requires { Keeps held }
    ensures { Says result (CrossedAny held) }
{
    (0..held.items).any(|i| crossed_at(&held, i))
}
