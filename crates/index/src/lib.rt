// The index that is kept beside a board, one bit an edge between neighbouring tracks; and the crowding sheet that is read from it.
#![tactic(auto)]

ghost use Rattle.std.specs.Prelude.{◌≡◌, ◌≤◌};
ghost use Rattle.paper.specs.Laws.Says.{Says};
ghost use Rattle.tracks.specs.Tracks.{most_tracks};
ghost use Rattle.index.specs.Bits.{no_index};
ghost use Rattle.index.specs.Rows.{open_in, stretch_in, Put, Counted};

use tracks::{MOST_TRACKS, Tracks};

// A line for each track of either axis.
pub const MOST_LINES: usize = 2 * MOST_TRACKS;

// The edges of one track between neighbouring tracks across it, one bit each, set if the whole edge is open: edge k is bit k of
// `low`, from 64 on bit k - 64 of `high`.
#[derive(Clone, Copy, PartialEq, Eq, Debug)]
pub struct Edges {
    pub low: u64,
    pub high: u64,
}

// The tracks of the items alone, and the edges of each. Places not used hold 0.
#[derive(Clone, Copy, PartialEq, Eq, Debug)]
pub struct Index {
    pub x: Tracks,
    pub y: Tracks,
    pub upright: [Edges; MOST_TRACKS],
    pub level: [Edges; MOST_TRACKS],
}

// How many upright and level tracks there are, and for each, upright ones first, where it stands, how many of its edges are open
// and how many of them in a row from its low end on. `code` is the number that document 02 has for it.
// Three lists and no list of lines: `Counted` of specs/Rows, `Lines` of crowding and `refusal` of beside speak of each.
#[derive(Clone, Copy, PartialEq, Eq, Debug)]
pub struct Crowding {
    pub code: u8,
    pub upright: usize,
    pub level: usize,
    pub at: [u16; MOST_LINES],
    pub free: [u8; MOST_LINES],
    pub stretch: [u8; MOST_LINES],
}

// ---- the index

// No track: before bounds.
pub fn no_index() -> Index
    ensures { result ≡ no_index }
{
    let none = Tracks {
        at: [0u16; MOST_TRACKS],
        count: 0,
    };
    Index {
        x: none,
        y: none,
        upright: [Edges { low: 0, high: 0 }; MOST_TRACKS],
        level: [Edges { low: 0, high: 0 }; MOST_TRACKS],
    }
}

// ---- two indexes

// Equal to the last bit and place.
#[tactic(auto, using(crate::proofs::Same::same_index))]
pub fn same_index(a: Index, b: Index) -> bool
    ensures { Says result (a ≡ b) }
{
    a == b
}

// ---- the sheet

// How many edges are open. At most 128, here and below: `try_from` would want an answer for more.
#[tactic(auto, unfolding(crate::specs::Rows::open_in))]
fn open_edges(e: Edges) -> u8
    ensures { result ≡ open_in e }
{
    (e.low.count_ones() + e.high.count_ones()) as u8
}

// How many are from the low end on, without a break. Unused bits are 0, and stop it.
#[tactic(auto, unfolding(crate::specs::Rows::stretch_in))]
fn stretch_of(e: Edges) -> u8
    ensures { result ≡ stretch_in e }
{
    let low = (!e.low).trailing_zeros();
    if low == 64 {
        (64 + (!e.high).trailing_zeros()) as u8
    } else {
        low as u8
    }
}

// A line for each track, from the line `from` on.
fn lines(sheet: &mut Crowding, from: usize, t: &Tracks, es: &[Edges; MOST_TRACKS])
    requires { (from ≤ most_tracks) × (t.now.count ≤ most_tracks) }
    ensures { Put sheet.old from t.now es.now t.now.count sheet.new }
{
    for k in 0..t.count {
        sheet.at[from + k] = t.at[k];
        sheet.free[from + k] = open_edges(es[k]);
        sheet.stretch[from + k] = stretch_of(es[k]);
    }
}

// The sheet of an index: the upright tracks, then the level ones.
pub fn sheet(i: Index) -> Crowding
    requires { (i.x.count ≤ most_tracks) × (i.y.count ≤ most_tracks) }
    ensures { Counted i result }
{
    let mut out = Crowding {
        code: 0,
        upright: i.x.count,
        level: i.y.count,
        at: [0u16; MOST_LINES],
        free: [0u8; MOST_LINES],
        stretch: [0u8; MOST_LINES],
    };
    lines(&mut out, 0, &i.x, &i.upright);
    lines(&mut out, i.x.count, &i.y, &i.level);
    out
}
