// A wire drawn by hand, told by its corners: the first check that it fails, or by how many steps it is longer than a shortest one.
#![tactic(auto)]

mod corners;

ghost use Rattle.std.specs.Prelude.{◌≡◌, ℕ, ◌+◌, ◌<◌, ◌≤◌};
ghost use Rattle.paper.specs.Limits.{most_runs, most_corners};
ghost use Rattle.paper.specs.Grid.{grid_with};
ghost use Rattle.paper.specs.Padding.{WellFormed};
ghost use Rattle.paper.specs.Answer.{source, target};
ghost use Rattle.paper.specs.Drawn.{JudgedOn, Judges};
ghost use Rattle.paper.specs.Laws.Back.{layout_of};
ghost use Rattle.paper.specs.Laws.Says.{Says};
ghost use Rattle.paper.specs.Laws.Joins.{joined};
ghost use Rattle.blocks.specs.Flat.{flat, Fits};
ghost use Rattle.router.specs.Route.{Asked, shortest_of};
ghost use Rattle.drawn.specs.Drawing.{judged_of, Reached, Over, pins_of};

use blocks::{Blocks, of_board};
use corners::{long, wire_of};
use paper::{Board, Item, Judged, MOST_CORNERS, Mode, Pins, Refusal, Size};
use places::fault_of;
use router::{Untold, Wire, find_wire};
use shapes::Fault;
use soundness::sound;

// ---- the excess

// How long a shortest wire is, whatever its run count.
fn shortest(found: Result<Wire, Untold>) -> u32
    ensures { result ≡ shortest_of found }
{
    match found {
        Ok(wire) => wire.length,
        Err(Untold::NoWire) => 0,
        Err(Untold::TooManyRuns(length)) => length,
    }
}

// By how many steps a wire of this length, which there is, is longer than a shortest one.
fn excess(size: Size, held: Blocks, p: Pins, length: u32) -> u32
    requires { Fits held × Asked size (flat held) p × Reached (grid_with size.w size.h (joined (flat held))) (source p) (target p) length }
    ensures { Over (grid_with size.w size.h (joined (flat held))) (source p) (target p) length result }
{
    let found = find_wire(size, held, p, Mode::Plain);
    length - shortest(found)
}

// ---- the whole

// The slice holds 2 to 25 corners.
fn count_fits(n: usize) -> bool
    ensures { Says result ((k : ℕ) × (2 ≤ k) × (k ≤ most_corners) × (n ≡ k + k)) }
{
    n % 2 == 0 && (2..=MOST_CORNERS).contains(&(n / 2))
}

// The first corner and the last.
fn pins_of(item: Item, n: usize) -> Pins
    requires { n ≤ most_runs }
    ensures { result ≡ pins_of item n }
{
    Pins {
        sx: item.xs[0],
        sy: item.ys[0],
        tx: item.xs[n],
        ty: item.ys[n],
    }
}

// By how many steps a wire drawn on a well-formed board is longer than a shortest one, or what is wrong with it.
fn excess_of(board: Board, numbers: &[u16]) -> Result<u32, Fault<Refusal>>
    requires { WellFormed board }
    ensures { JudgedOn (layout_of board) numbers.now (judged_of result) }
{
    if board.size.w == 0 {
        return Err(Fault::from(Refusal::NoBounds));
    }
    if !count_fits(numbers.len()) {
        return Err(Fault::from(Refusal::CornerCount));
    }
    let item = wire_of(numbers);
    let n = numbers.len() / 2 - 1;
    let held = of_board(board, true);
    fault_of(board.size, held, item, n)?;
    Ok(excess(board.size, held, pins_of(item, n), long(item, n)))
}

// In the document's numbers.
fn told(judged: Result<u32, Fault<Refusal>>) -> Judged
    ensures { result ≡ judged_of judged }
{
    match judged {
        Ok(excess) => Judged {
            code: 0,
            run: 0,
            excess,
        },
        Err(fault) => Judged {
            code: u8::from(fault.why),
            run: fault.run,
            excess: 0,
        },
    }
}

// A wire drawn on a board that is well formed, for callers that keep the board themselves.
pub fn judge_sound(board: Board, numbers: &[u16]) -> Judged
    requires { WellFormed board }
    ensures { JudgedOn (layout_of board) numbers.now result }
{
    told(excess_of(board, numbers))
}

// A wire drawn on any board, by any numbers.
#[tactic(auto, using(crate::specs::Laws::Judging::judged_ill, crate::specs::Laws::Judging::judged_well, paper::specs::Laws::Says::said, paper::specs::Laws::Says::said_not))]
pub fn judge(board: Board, numbers: &[u16]) -> Judged
    ensures { Judges board numbers.now result }
{
    if sound(board) {
        return judge_sound(board, numbers);
    }
    told(Err(Fault::from(Refusal::IllFormed)))
}
