// The numbers that are lent, marked so that it can be seen which of them were written.
ghost use Rattle.std.specs.Prelude.{◌≤◌, ◌≡◌, length};

use crate::MOST_LENT;

// What stands in the slice before a record is fed: 60001 and so on.
pub(crate) fn marks() -> [u16; MOST_LENT]
    ensures { 60 ≡ length result }
{
    let mut out = [0u16; MOST_LENT];
    for (place, mark) in out.iter_mut().zip(60001u16..) {
        *place = mark;
    }
    out
}

// Whether each number from a place on is as it was.
pub(crate) fn kept_from(slice: &[u16; MOST_LENT], from: usize) -> bool
    requires { from ≤ 60 }
{
    slice[from..] == marks()[from..]
}
