// What stands in the way of a wire, told by its corners: the first run that is ill shaped, off the board, in a keep-out or too near to a
// laid wire. It asks no search, so that document 02's order 7 can test a wire that is only read.
#![tactic(auto)]

ghost use Rattle.std.specs.Prelude.{ℕ, ◌+◌, ◌<◌, ◌≤◌};
ghost use Rattle.paper.specs.Limits.{most_runs};
ghost use Rattle.paper.specs.Layout.{OnBoard};
ghost use Rattle.paper.specs.Laws.Says.{Says};
ghost use Rattle.blocks.specs.Growing.{corner_at};
ghost use Rattle.seams.specs.Seaming.{Keeps};
ghost use Rattle.places.specs.Placing.{SomeHeld, Straight, RunSays, PlacesSay, AllSay};

use blocks::{Blocks, Look, hit, stretch};
use paper::{Item, Refusal, Size};
use seams::entered;
use shapes::{Fault, bad_shape, fault_at, on_board};

// Both corners of the run at k lie on the board.
fn ends_on(size: Size, item: Item, k: usize) -> bool
    requires { k < most_runs }
    ensures { Says result (OnBoard size (corner_at item k) × OnBoard size (corner_at item (k + 1))) }
{
    on_board(size, item.xs[k], item.ys[k]) && on_board(size, item.xs[k + 1], item.ys[k + 1])
}

// What stands in the way of the run at k.
#[tactic(auto, using(crate::specs::Laws::off_board, crate::specs::Laws::keep_out_there, crate::specs::Laws::wire_there, crate::specs::Laws::none_there, paper::specs::Laws::Says::said, paper::specs::Laws::Says::said_not))]
fn run_fault(size: Size, held: Blocks, item: Item, k: usize) -> Result<(), Fault<Refusal>>
    requires keeps { Keeps held }
    requires few { k < most_runs }
    requires straight { Straight item k }
    ensures { RunSays size held item k result }
{
    if !ends_on(size, item, k) {
        return Err(fault_at(Refusal::OffBoard, k));
    }
    let place = stretch(item, k);
    if entered(held, place) {
        return Err(fault_at(Refusal::RunInKeepOut, k));
    }
    if hit(held, Look::Wires, place) {
        return Err(fault_at(Refusal::RunNearWire, k));
    }
    Ok(())
}

// The first of the item's n runs that something stands in the way of.
#[tactic(auto, using(crate::specs::Laws::left_start, crate::specs::Laws::left_stop, crate::specs::Laws::left_next, crate::specs::Laws::left_end))]
fn bad_run(size: Size, held: Blocks, item: Item, n: usize) -> Result<(), Fault<Refusal>>
    requires keeps { Keeps held }
    requires few { n ≤ most_runs }
    requires straight { (k : ℕ) → k < n → Straight item k }
    ensures { PlacesSay size held item n result }
{
    for k in 0..n {
        run_fault(size, held, item, k)?;
    }
    Ok(())
}

// All that is said of the item's n runs, but its excess.
#[tactic(auto, using(crate::specs::Laws::ill_shaped, crate::specs::Laws::well_shaped, crate::specs::Laws::straight_runs, seams::specs::Laws::Closing::held_keeps))]
pub fn fault_of(size: Size, held: Blocks, item: Item, n: usize) -> Result<(), Fault<Refusal>>
    requires { SomeHeld size held × (n ≤ most_runs) }
    ensures { AllSay size held item n result }
{
    bad_shape(item, n)?;
    bad_run(size, held, item, n)
}
