// Asks the router the questions of a file over and over, so that its time can be held against a peer's.
//
// The file is numbers of 16 bits, the low byte first: how many questions, how often to ask them all, then the questions. Each is 238 numbers:
// W, H, sx, sy, tx, ty, how many blocks, 1 where the fewest runs are asked for and else 0, and 46 rows of x0, y0, x1, y1, c. What is printed
// is a sum over all the answers.
#![tactic(auto)]

ghost use Rattle.std.specs.Prelude.{◌+◌, ◌≤◌, ◌<◌, ◌≡◌, T};
ghost use Rattle.paper.specs.Grid.{Blocked, node};
ghost use Rattle.paper.specs.Layout.{OnBoard};
ghost use Rattle.paper.specs.Answer.{source, target};
ghost use Rattle.blocks.specs.Flat.{flat};
ghost use Rattle.router.specs.Route.{Asked};
ghost use Rattle.ask.specs.Questions.{OneItem};

use blocks::{Blocks, Look, Place, hit};
use input::{read_all, zeros};
use paper::{Mode, Pins, Size};
use router::{Untold, Wire, find_wire};
use soundness::in_range;

// ---- a question, read

// The number at a place of the file; 0 past its end.
fn word(file: &[u8], at: usize) -> u16 {
    match file.get(at..) {
        Some([low, high, ..]) => u16::from_le_bytes([*low, *high]),
        _ => 0,
    }
}

// A column of the rows.
fn column(file: &[u8], from: usize, n: usize) -> [u16; 46]
    requires { (from ≤ 65536) × (n ≤ 46) }
{
    let mut out = [0u16; 46];
    for k in 0..n {
        out[k] = word(file, from + k * 10);
    }
    out
}

// The blocks, as those of one item.
fn blocks_at(file: &[u8], from: usize) -> Blocks
    requires { from ≤ 65216 }
    ensures { OneItem result }
{
    let n = usize::from(word(file, from + 12)).min(46);
    let mut first = [0usize; 47];
    first[1] = n;
    Blocks {
        items: 1,
        first,
        wires: [false; 46],
        x0: column(file, from + 16, n),
        y0: column(file, from + 18, n),
        x1: column(file, from + 20, n),
        y1: column(file, from + 22, n),
        c: column(file, from + 24, n),
    }
}

// What is asked for.
fn mode_at(file: &[u8], from: usize) -> Mode
    requires { from ≤ 65216 }
{
    if word(file, from + 14) == 1 {
        return Mode::Fewest;
    }
    Mode::Plain
}

// ---- whether the router may be asked

// Two different pins on the board.
fn apart(size: Size, p: Pins) -> bool
    ensures { T result → OnBoard size (source p) × OnBoard size (target p) × (¬ (source p ≡ target p)) }
{
    p.sx <= size.w
        && p.sy <= size.h
        && p.tx <= size.w
        && p.ty <= size.h
        && (p.sx != p.tx || p.sy != p.ty)
}

fn clear(held: Blocks, x: u16, y: u16) -> bool
    requires { OneItem held }
    ensures { T result → ¬ (Blocked (flat held) (node (record { x = x; y = y }))) }
{
    let there = Place {
        x0: x,
        y0: y,
        x1: x,
        y1: y,
    };
    !hit(held, Look::Either, there)
}

fn may_ask(size: Size, held: Blocks, p: Pins) -> bool
    requires { OneItem held }
    ensures { T result → Asked size (flat held) p }
{
    in_range(size) && apart(size, p) && clear(held, p.sx, p.sy) && clear(held, p.tx, p.ty)
}

// ---- the sum

// A sum over answers, kept below 1,000,003.
#[derive(Clone, Copy)]
struct Sum {
    value: u64,
    ghost few: { value < 1000003 },
}

impl Sum {
    // A function, for so the loop that begins with it needs no invariant written down.
    fn nothing() -> Sum {
        Sum { value: 0 }
    }

    fn mix(self, v: u32) -> Sum {
        Sum {
            value: (self.value * 31 + u64::from(v)) % 1000003,
        }
    }

    fn mix_corners(self, wire: Wire) -> Sum {
        let n = wire.corners.min(25);
        let mut all = self;
        for k in 0..n {
            all = all.mix(u32::from(wire.xs[k])).mix(u32::from(wire.ys[k]));
        }
        all
    }

    fn mix_refusal(self, code: u32) -> Sum {
        self.mix(code).mix(0).mix(0).mix(0)
    }

    fn mix_answer(self, answer: Result<Wire, Untold>) -> Sum {
        match answer {
            Ok(wire) => self
                .mix(0)
                .mix(wire.length)
                .mix(wire.detour)
                // `as`: no `From` leads from usize
                .mix((wire.corners % 65536) as u32)
                .mix_corners(wire),
            Err(Untold::NoWire) => self.mix_refusal(12),
            Err(Untold::TooManyRuns(_)) => self.mix_refusal(13),
        }
    }
}

// ---- the questions

#[tactic(auto, using(crate::specs::Questions::one_fits))]
fn ask(sum: Sum, file: &[u8], from: usize) -> Sum
    requires { from ≤ 65216 }
{
    let size = Size {
        w: word(file, from),
        h: word(file, from + 2),
        clearance: 1,
    };
    let p = Pins {
        sx: word(file, from + 4),
        sy: word(file, from + 6),
        tx: word(file, from + 8),
        ty: word(file, from + 10),
    };
    let held = blocks_at(file, from);
    if may_ask(size, held, p) {
        return sum.mix_answer(find_wire(size, held, p, mode_at(file, from)));
    }
    sum
}

// All of them once.
fn ask_all(sum: Sum, file: &[u8], count: u16) -> Sum {
    let n = usize::from(count).min(137);
    let mut all = sum;
    for k in 0..n {
        all = ask(all, file, 4 + k * 476);
    }
    all
}

fn over_and_over(file: &[u8]) -> Sum {
    let count = word(file, 0);
    let mut all = Sum::nothing();
    for _ in 0..word(file, 2) {
        all = ask_all(all, file, count);
    }
    all
}

fn main(rt: HostRuntime) {
    let mut room = zeros::<65536>();
    let mut source = rt.stdin();
    let size = read_all(&mut source, &mut room).unwrap_or_else(|failed| failed.size);
    let _ = rt.println(over_and_over(&room[..size]).value);
}
