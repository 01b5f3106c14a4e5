// A table is cut off: what lies further from t than s does is never asked for, and one number stands for all of it.
ghost use Rattle.std.specs.Prelude.{◌≡◌, ◌+◌, ◌≤◌, ◌<◌, min, length};
ghost use Rattle.distances.specs.Lower.{none};
ghost use Rattle.distances.specs.Cut.{CutRow, CutTo};

use crate::NONE;

// One more than a distance, or NONE.
pub(crate) fn after(v: u32) -> u32
    requires { v ≤ none }
    ensures { result ≡ min (v + 1) none }
{
    (v + 1).min(NONE)
}

// Cuts n numbers, from `low` on, off at `far`.
fn cut_row(d: &mut [u32; 9216], low: usize, n: usize, far: u32)
    requires { (length d.old ≡ 9216) × (low + n ≤ 9216) }
    ensures { CutRow d.old d.new low n far }
{
    for k in 0..n {
        d[low + k] = d[low + k].min(far);
    }
}

// Cuts the numbers of all crossings off at `far`.
pub(crate) fn cut(d: &mut [u32; 9216], nx: usize, ny: usize, far: u32)
    requires { (length d.old ≡ 9216) × (nx ≤ 96) × (ny ≤ 96) }
    ensures { CutTo d.old d.new nx ny far }
{
    for j in 0..ny {
        cut_row(d, j * 96, nx, far);
    }
}
