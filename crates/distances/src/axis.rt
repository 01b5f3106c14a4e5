// The lines of one axis of the map, and the slabs between neighbouring lines.
ghost use Rattle.std.specs.Prelude.{◌<◌, ◌≤◌};
ghost use Rattle.distances.specs.Lower.{Inside};
ghost use Rattle.distances.specs.Sweep.{Widths, LinesFit};

use crate::{Lines, width};

// An axis: which ways across its slabs are shut, where its tracks stand, and its lines.
#[derive(Clone, Copy)]
pub(crate) struct Axis<'a> {
    pub shut: &'a [u8; 9216],
    pub at: &'a [u16; 96],
    pub lines: Lines,
    ghost fit: { LinesFit lines },
    ghost rising: { Widths at.now lines.slabs },
}

// A slab on the way across it: the numbers of line `line` are lowered by way of those of line `near`. Both lines have `count` numbers,
// `step` apart, those at `to` and those at `from`; shut[edge + ..] says which ways across are shut.
#[derive(Clone, Copy)]
pub(crate) struct Slab {
    pub near: usize,
    pub line: usize,
    pub from: usize,
    pub to: usize,
    pub edge: usize,
    pub step: usize,
    pub count: usize,
    pub width: u32,
    ghost few: { (near < 96) × (line < 96) × (step ≤ 96) × (count ≤ 96) },
    ghost slim: { width ≤ 30000 },
    ghost from_inside: { Inside from step count },
    ghost to_inside: { Inside to step count },
    ghost edge_inside: { Inside edge step count },
}

impl Axis<'_> {
    ghost use Rattle.distances.specs.Axis.{IsSlab};

    // The slab that comes kth on the way forth, or back.
    pub fn slab(&self, back: bool, k: usize) -> Slab
        requires { k < self.now.lines.slabs }
        ensures { IsSlab self.now.at.now self.now.lines back k result }
    {
        let l = self.lines;
        let i = if back { l.slabs - 1 - k } else { k };
        let low = i * l.along;
        let high = low + l.along;
        let (near, line, from, to) = if back {
            (i + 1, i, high, low)
        } else {
            (i, i + 1, low, high)
        };
        Slab {
            near,
            line,
            from,
            to,
            edge: low,
            step: l.step,
            count: l.count,
            width: width(self.at, i),
        }
    }
}
