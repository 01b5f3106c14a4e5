// The paper's things as values: a board with its items and kept changes, a record as it was read, a reply.
// What they mean is in specs/; what stands in unused places is in specs/Padding.antt.
#![tactic(auto)]

ghost use Rattle.std.specs.Prelude.{◌≡◌};
ghost use Rattle.paper.specs.Codes.{code_of};

// At most 24 runs to a wire, so 25 corners, and 50 numbers to write them.
pub const MOST_RUNS: usize = 24;

pub const MOST_CORNERS: usize = 25;

pub const LEAST_SLICE: usize = 50;

pub const MOST_BLOCKS: usize = 46;

pub const MOST_KEPT: usize = 32;

// W, H and the clearance; three zeros before any bounds.
#[derive(Clone, Copy, PartialEq, Eq, Debug)]
pub struct Size {
    pub w: u16,
    pub h: u16,
    pub clearance: u16,
}

#[derive(Clone, Copy, PartialEq, Eq, Debug)]
pub struct Rect {
    pub x0: u16,
    pub y0: u16,
    pub x1: u16,
    pub y1: u16,
}

#[derive(Clone, Copy, PartialEq, Eq, Debug)]
pub struct Pins {
    pub sx: u16,
    pub sy: u16,
    pub tx: u16,
    pub ty: u16,
}

#[derive(Clone, Copy, PartialEq, Eq, Debug)]
pub struct Id {
    pub number: u16,
}

// Which of the shortest wires is answered: the first, or of those with the fewest runs the first.
#[derive(Clone, Copy, PartialEq, Eq, Debug)]
pub enum Mode {
    Plain,
    Fewest,
}

// What is asked of a wire.
#[derive(Clone, Copy, PartialEq, Eq, Debug)]
pub struct Question {
    pub pins: Pins,
    pub mode: Mode,
}

// A record as it was read.
#[derive(Clone, Copy, PartialEq, Eq, Debug)]
pub enum Record {
    Bounds(Size),
    KeepOut(Id, Rect),
    Lay(Id, Question),
    Ask(Question),
    TakeOut(Id),
    Undo,
    Malformed,
}

// A keep-out has no runs and two corners, (x0, y0) and (x1, y1). A wire has a corner more than runs.
// Arrays of fixed size, two of them: memory is fixed, and `item_of` (specs/Padding) says what stands in each place of a board.
#[derive(Clone, Copy, PartialEq, Eq, Debug)]
pub struct Item {
    pub id: u16,
    pub runs: u8,
    pub xs: [u16; MOST_CORNERS],
    pub ys: [u16; MOST_CORNERS],
}

// An accepted keep-out, lay or take-out, by its kind, and its item.
// The kind is a number and no enum: whoever hands a board in may hand in any, and is told 17 (`WellFormed`).
#[derive(Clone, Copy, PartialEq, Eq, Debug)]
pub struct Change {
    pub kind: u8,
    pub item: Item,
}

// Items stand by rising id, kept changes oldest first. An item is a block or more.
// Counts beside arrays: memory is fixed, and `board_of` (specs/Padding) says what stands in each place, used or not.
#[derive(Clone, Copy, PartialEq, Eq, Debug)]
pub struct Board {
    pub size: Size,
    pub count: usize,
    pub items: [Item; MOST_BLOCKS],
    pub kept: usize,
    pub changes: [Change; MOST_KEPT],
}

// Why a record, or a wire drawn by hand, is refused. Each reason has its code.
#[derive(Clone, Copy, PartialEq, Eq, Debug)]
pub enum Refusal {
    Malformed,
    NoBounds,
    OutOfRange,
    IdInUse,
    IdNotInUse,
    NoRectangle,
    OnKeepOut,
    OnWire,
    OffBoard,
    OneNode,
    PinInKeepOut,
    NoWire,
    TooManyRuns,
    TooManyBlocks,
    NothingKept,
    ShortSlice,
    IllFormed,
    PinNearWire,
    RunInKeepOut,
    CornerCount,
    BadRun,
    RunNearWire,
    OtherIndex,
}

impl From<Refusal> for u8 {
    ghost from_gives = { λ why code. code ≡ code_of why };

    fn from(why: Refusal) -> u8 {
        match why {
            Refusal::Malformed => 1,
            Refusal::NoBounds => 2,
            Refusal::OutOfRange => 3,
            Refusal::IdInUse => 4,
            Refusal::IdNotInUse => 5,
            Refusal::NoRectangle => 6,
            Refusal::OnKeepOut => 7,
            Refusal::OnWire => 8,
            Refusal::OffBoard => 9,
            Refusal::OneNode => 10,
            Refusal::PinInKeepOut => 11,
            Refusal::NoWire => 12,
            Refusal::TooManyRuns => 13,
            Refusal::TooManyBlocks => 14,
            Refusal::NothingKept => 15,
            Refusal::ShortSlice => 16,
            Refusal::IllFormed => 17,
            Refusal::PinNearWire => 18,
            Refusal::RunInKeepOut => 20,
            Refusal::CornerCount => 22,
            Refusal::BadRun => 23,
            Refusal::RunNearWire => 24,
            Refusal::OtherIndex => 25,
        }
    }
}

// What is said: a code, the run or the pin that it is about, counted from 1, and an item's id; 0 where none is named.
// Numbers here and in the two structs below: they are the document's, which `Gives`, `Fed` and `Judges` speak of; `Refusal` names them.
#[derive(Clone, Copy, PartialEq, Eq, Debug)]
pub struct Verdict {
    pub code: u8,
    pub place: u8,
    pub id: u16,
}

// `pin`, `id`: with 11 and 18 the pin, 1 or 2, and the item that blocks it; else 0.
// `corners`: how many corners stand in the answer slice, 0 unless a lay or an ask was accepted.
#[derive(Clone, Copy, PartialEq, Eq, Debug)]
pub struct Reply {
    pub code: u8,
    pub pin: u8,
    pub id: u16,
    pub length: u32,
    pub detour: u32,
    pub corners: usize,
    pub board: Board,
}

// What is said of a wire drawn by hand: the first bad run, counted from 1; or by how many steps it is longer than a shortest one.
#[derive(Clone, Copy, PartialEq, Eq, Debug)]
pub struct Judged {
    pub code: u8,
    pub run: u8,
    pub excess: u32,
}
