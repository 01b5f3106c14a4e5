// A board and the index of its items, kept together; and the crowding sheet of a board.
#![tactic(auto)]

ghost use Rattle.std.specs.Prelude.{◌≡◌, true, MatchResult};
ghost use Rattle.paper.specs.Padding.{WellFormed};
ghost use Rattle.paper.specs.Answer.{plain, Fed};
ghost use Rattle.paper.specs.Codes.{code_of};
ghost use Rattle.paper.specs.Laws.Feeds.{refusing};
ghost use Rattle.paper.specs.Laws.Says.{Says};
ghost use Rattle.beside.specs.Beside.{Agrees, FedBeside, refusal, Crowds};
ghost use Rattle.beside.specs.Laws.{Unfit, LeavesItems};

use crowding::of_board;
use feed::feed_sound;
use index::{Crowding, Index, MOST_LINES, same_index, sheet};
use paper::{Board, Refusal, Reply};
use soundness::sound;

// What a fed record gives back: the reply, with its board, and the index beside that.
#[derive(Clone, Copy, PartialEq, Eq, Debug)]
pub struct Kept {
    pub reply: Reply,
    pub index: Index,
}

// ---- one index

// The index is that of the board's items.
#[tactic(auto, using(crate::specs::Laws::agrees_says))]
fn agrees(board: Board, index: Index) -> bool
    requires { WellFormed board }
    ensures { Says result (Agrees board index) }
{
    same_index(index, of_board(board))
}

// Nothing, or why the board and the index are refused whatever is asked of them.
fn fit(board: Board, index: Index) -> Result<(), Refusal>
    ensures { MatchResult result (λ _. Agrees board index) (Unfit board index) }
{
    if !sound(board) {
        return Err(Refusal::IllFormed);
    }
    if !agrees(board, index) {
        return Err(Refusal::OtherIndex);
    }
    Ok(())
}

// ---- feeding

// The record, to which the reply has this code, leaves the items as they are: it is refused, or it is an ask.
#[tactic(auto, unfolding(crate::specs::Laws::LeavesItems))]
fn leaves(bytes: &[u8], code: u8) -> bool
    ensures { Says result (LeavesItems bytes.now code) }
{
    code != 0 || matches!(bytes.first(), Some(4 | 8))
}

// The index beside the board that a record leaves: as it was where the items are; else built anew, as an added block renumbers the tracks.
#[tactic(auto, using(crate::specs::Laws::agrees_of))]
fn kept_up(index: Index, same: bool, board: Board) -> Index
    requires { WellFormed board × (same ≡ true → Agrees board index) }
    ensures { Agrees board result }
{
    if same { index } else { of_board(board) }
}

// A record fed to a board and its index, for callers that keep both themselves.
#[tactic(auto, using(crate::specs::Laws::agrees_well, crate::proofs::Fitting::still_agrees))]
pub fn feed_kept(board: Board, index: Index, bytes: &[u8], answer: &mut [u16]) -> Kept
    requires { Agrees board index }
    ensures { Fed board bytes.now answer.old answer.new result.reply × Agrees result.reply.board result.index }
{
    let reply = feed_sound(board, bytes, answer);
    let same = leaves(bytes, reply.code);
    let next = kept_up(index, same, reply.board);
    Kept { reply, index: next }
}

// The refusal, with the board and the index as they are.
fn told(board: Board, index: Index, why: Refusal) -> Kept
    ensures { result ≡ record { reply = refusing (plain (code_of why)) board; index = index } }
{
    let reply = Reply {
        code: u8::from(why),
        pin: 0,
        id: 0,
        length: 0,
        detour: 0,
        corners: 0,
        board,
    };
    Kept { reply, index }
}

// A record fed to any board and any index.
#[tactic(auto, using(crate::proofs::Fitting::fed_unfit, crate::proofs::Fitting::fed_fit))]
pub fn feed_beside(board: Board, index: Index, bytes: &[u8], answer: &mut [u16]) -> Kept
    ensures { FedBeside board index bytes.now answer.old answer.new result }
{
    match fit(board, index) {
        Ok(()) => feed_kept(board, index, bytes, answer),
        Err(why) => told(board, index, why),
    }
}

// ---- the sheet

// The refusal's code, and nothing else.
fn silent(why: Refusal) -> Crowding
    ensures { result ≡ refusal (code_of why) }
{
    Crowding {
        code: u8::from(why),
        upright: 0,
        level: 0,
        at: [0; MOST_LINES],
        free: [0; MOST_LINES],
        stretch: [0; MOST_LINES],
    }
}

// The lines of the sheet, or why there are none.
#[tactic(auto, using(crate::proofs::Fitting::crowds_unfit, crate::proofs::Fitting::crowds_bare, crate::proofs::Fitting::crowds_lines, crate::proofs::Fitting::few_tracks))]
fn counted(board: Board, index: Index) -> Result<Crowding, Refusal>
    ensures { MatchResult result (Crowds board index) (λ why. Crowds board index (refusal (code_of why))) }
{
    fit(board, index)?;
    if board.size.w == 0 {
        return Err(Refusal::NoBounds);
    }
    Ok(sheet(index))
}

// The crowding sheet of any board and any index.
pub fn crowd_sheet(board: Board, index: Index) -> Crowding
    ensures { Crowds board index result }
{
    match counted(board, index) {
        Ok(lines) => lines,
        Err(why) => silent(why),
    }
}
