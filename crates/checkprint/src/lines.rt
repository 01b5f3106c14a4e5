// The line of a drawn wire, and the last line.
ghost use Rattle.std.specs.Prelude.{◌≡◌, ◌+◌, ◌*◌, ◌≤◌, length, take};
ghost use Rattle.paper.specs.Padding.{WellFormed};
ghost use Rattle.text.specs.Text.{Writes};
ghost use Rattle.checkprint.specs.Checked.{most_pieces, line_room, words_in, told_of, line_of, last_line, JudgedIn};

use crate::Last;
use drawn::judge_sound;
use paper::{Board, Judged};
use records::number;
use text::{put_byte, put_next, put_number, put_word};

// A piece counts at most 255 numbers.
const MOST_NUMBERS: usize = 255;

// ---- the numbers

// The numbers that the bytes hold: how many.
fn put_words(bytes: &[u8], numbers: &mut [u16]) -> usize
    requires { length bytes.now ≤ 2 * length numbers.old }
    ensures { (result ≤ length numbers.new) × (take result numbers.new ≡ words_in bytes.now) }
{
    let n = bytes.len() / 2;
    for k in 0..n {
        numbers[k] = number(bytes, k + k);
    }
    n
}

// ---- a line

// What stands after the code: with 0 the excess, else the run, where one is named.
#[tactic(auto, using(crate::specs::Laws::Shown::told_excess, crate::specs::Laws::Shown::told_none, crate::specs::Laws::Shown::told_run, text::specs::Laws::Written::writes_none))]
fn put_told(buffer: &mut [u8], at: usize, judged: Judged) -> usize
    requires { at + 11 ≤ length buffer.old }
    ensures { Writes (told_of judged) buffer.old at buffer.new result × (result ≤ at + 11) }
{
    match (judged.code, judged.run) {
        (0, _) => put_next(buffer, at, judged.excess),
        (_, 0) => at,
        (_, run) => put_next(buffer, at, u32::from(run)),
    }
}

// The line of the drawn wire with the number n, from the buffer's start: how many bytes it has.
fn put_line(buffer: &mut [u8], n: u32, judged: Judged) -> usize
    requires { (n ≤ most_pieces) × (line_room ≤ length buffer.old) }
    ensures { Writes (line_of n judged) buffer.old 0 buffer.new result }
{
    let first = put_number(buffer, 0, n);
    let coded = put_next(buffer, first, u32::from(judged.code));
    let told = put_told(buffer, coded, judged);
    put_byte(buffer, told, b'\n')
}

// The drawn wire with the number n, by the bytes of its numbers, is judged on the board, and its line written from the buffer's start: how
// many bytes it has.
pub(crate) fn wire_line(bytes: &[u8], n: u32, board: Board, line: &mut [u8]) -> usize
    requires { WellFormed board × (n ≤ most_pieces) × (length bytes.now ≤ 510) × (line_room ≤ length line.old) }
    ensures { JudgedIn board n bytes.now line.old line.new result }
{
    let mut numbers = [0u16; MOST_NUMBERS];
    let k = put_words(bytes, &mut numbers);
    let judged = judge_sound(board, &numbers[..k]);
    put_line(line, n, judged)
}

// ---- the last line

// The last line, from the buffer's start: how many bytes it has.
pub(crate) fn put_last(buffer: &mut [u8], last: Last) -> usize
    requires { 4 ≤ length buffer.old }
    ensures { Writes (last_line last) buffer.old 0 buffer.new result }
{
    match last {
        Last::End => put_word(buffer, b"end"),
        Last::Bad => put_word(buffer, b"bad"),
        Last::Cut => put_word(buffer, b"cut"),
    }
}
