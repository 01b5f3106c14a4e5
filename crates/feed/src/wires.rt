// What two pins get: the answered wire, or why there is none to tell.
ghost use Rattle.std.specs.Prelude.{◌≡◌, ◌<◌, ◌≤◌, None};
ghost use Rattle.paper.specs.Padding.{WellFormed};
ghost use Rattle.paper.specs.Laws.Back.{layout_of};
ghost use Rattle.blocks.specs.Flat.{Fits};
ghost use Rattle.seams.specs.Seaming.{RoundIs};
ghost use Rattle.feed.specs.Feeding.{StopsPin, StopsPins, Placed, blame_of, Wires};

use crate::tests::{both_on_board, one_node};
use crate::{Blame, Wired};
use blocks::{Blocks, Look, Place, of_board, scan};
use paper::{Board, Item, MOST_BLOCKS, Pins, Question, Refusal, Size};
use router::find_wire;
use seams::round;

// What stands in the way of two pins: a reason alone, or an item, by its place among the board's, at pin 1 or 2.
#[derive(Clone, Copy, PartialEq, Eq, Debug)]
enum Stop {
    Alone(Refusal),
    AtPin(Refusal, u8, usize),
}

#[tactic(auto, unfolding(crate::specs::Feeding::StopsPin, crate::specs::Feeding::FirstAt))]
fn near_wire(held: Blocks, x: u16, y: u16, pin: u8) -> Result<(), Stop>
    requires fits { Fits held }
    requires free { RoundIs held x y None }
    ensures { StopsPin held x y pin result }
{
    let at = Place {
        x0: x,
        y0: y,
        x1: x,
        y1: y,
    };
    match scan(held, Look::Wires, at) {
        Some(item) => Err(Stop::AtPin(Refusal::PinNearWire, pin, item)),
        None => Ok(()),
    }
}

#[tactic(auto, unfolding(crate::specs::Feeding::StopsPin, crate::specs::Feeding::FirstAt))]
fn pin_stop(held: Blocks, x: u16, y: u16, pin: u8) -> Result<(), Stop>
    requires fits { Fits held }
    requires short { x < 65535 }
    requires low { y < 65535 }
    ensures { StopsPin held x y pin result }
{
    match round(held, x, y) {
        Some(item) => Err(Stop::AtPin(Refusal::PinInKeepOut, pin, item)),
        None => near_wire(held, x, y, pin),
    }
}

// What two pins get before a wire is looked for.
#[tactic(auto, using(crate::specs::Laws::Wiring::stop_off, crate::specs::Laws::Wiring::stop_one, crate::specs::Laws::Wiring::stop_first, crate::specs::Laws::Wiring::stop_second, paper::specs::Laws::Says::said, paper::specs::Laws::Says::said_not))]
fn pins_stop(size: Size, held: Blocks, p: Pins) -> Result<(), Stop>
    requires fits { Fits held }
    requires short { size.w < 65535 }
    requires low { size.h < 65535 }
    ensures { StopsPins size held p result }
{
    if !both_on_board(size, p) {
        return Err(Stop::Alone(Refusal::OffBoard));
    }
    if one_node(p) {
        return Err(Stop::Alone(Refusal::OneNode));
    }
    pin_stop(held, p.sx, p.sy, 1)?;
    pin_stop(held, p.tx, p.ty, 2)
}

// The same with the item's id. It takes the items alone: a board would be copied whole.
fn blame(items: [Item; MOST_BLOCKS], stop: Stop) -> Blame
    requires { Placed stop }
    ensures { result ≡ blame_of items stop }
{
    match stop {
        Stop::Alone(why) => Blame::from(why),
        Stop::AtPin(why, pin, item) => {
            let id = items[item].id;
            Blame { why, pin, id }
        }
    }
}

// The answered wire between the question's pins, or why there is none to tell.
#[tactic(auto, using(blocks::specs::Laws::Board::drawn, blocks::specs::Laws::Held::held_fits, crate::proofs::BetweenPins::short_side, crate::proofs::BetweenPins::low_side, crate::proofs::BetweenPins::placed_stop, crate::proofs::BetweenPins::pins_refused, crate::proofs::BetweenPins::pins_free, crate::proofs::BetweenPins::wire_told, crate::proofs::BetweenPins::wire_untold))]
pub(crate) fn wire(board: Board, q: Question) -> Result<Wired, Blame>
    requires { WellFormed board × (1 ≤ board.size.w) }
    ensures { Wires (layout_of board) q result }
{
    let held = of_board(board, true);
    if let Err(stop) = pins_stop(board.size, held, q.pins) {
        return Err(blame(board.items, stop));
    }
    let wire = find_wire(board.size, held, q.pins, q.mode)?;
    let blocks = held.first[held.items];
    Ok(Wired { wire, blocks })
}
