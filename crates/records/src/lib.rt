// The twelve-byte record: the bytes that are handed in, a part of a file's slice, to the enum.
#![tactic(auto)]

ghost use Rattle.std.specs.Prelude.{◌≡◌, ◌+◌, ◌<◌, length};
ghost use Rattle.paper.specs.Reading.{word, lay_kind, ask_kind, Reads};
ghost use Rattle.paper.specs.Laws.Says.{Says};
ghost use Rattle.records.specs.Row.{asked, Row, Blank};

use paper::{Id, Mode, Pins, Question, Record, Rect, Size};

// The id and the four numbers a b c d.
#[derive(Clone, Copy)]
struct Numbers {
    id: u16,
    a: u16,
    b: u16,
    c: u16,
    d: u16,
}

// The 16-bit number that starts at a byte, little-endian.
pub fn number(bytes: &[u8], at: usize) -> u16
    requires { at + 1 < length bytes.now }
    ensures { result ≡ word bytes.now at }
{
    u16::from_le_bytes([bytes[at], bytes[at + 1]])
}

// ---- a row of the paper's table each

#[tactic(auto, using(crate::specs::Laws::row_bounds, crate::specs::Laws::no_bounds))]
fn bounds(n: Numbers) -> Record
    ensures { Row 1 n result }
{
    if n.id != 0 || n.d != 0 {
        return Record::Malformed;
    }
    Record::Bounds(Size {
        w: n.a,
        h: n.b,
        clearance: n.c,
    })
}

#[tactic(auto, using(crate::specs::Laws::row_keep_out, crate::specs::Laws::no_keep_out))]
fn keep_out(n: Numbers) -> Record
    ensures { Row 2 n result }
{
    if n.id == 0 {
        return Record::Malformed;
    }
    Record::KeepOut(
        Id { number: n.id },
        Rect {
            x0: n.a,
            y0: n.b,
            x1: n.c,
            y1: n.d,
        },
    )
}

// What is asked of a wire: the four numbers are its pins.
fn question(n: Numbers, mode: Mode) -> Question
    ensures { result ≡ asked mode n }
{
    Question {
        pins: Pins {
            sx: n.a,
            sy: n.b,
            tx: n.c,
            ty: n.d,
        },
        mode,
    }
}

#[tactic(auto, using(crate::specs::Laws::row_lay, crate::specs::Laws::no_lay))]
fn lay(n: Numbers, mode: Mode) -> Record
    ensures { Row (lay_kind mode) n result }
{
    if n.id == 0 {
        return Record::Malformed;
    }
    Record::Lay(Id { number: n.id }, question(n, mode))
}

#[tactic(auto, using(crate::specs::Laws::row_ask, crate::specs::Laws::no_ask))]
fn ask(n: Numbers, mode: Mode) -> Record
    ensures { Row (ask_kind mode) n result }
{
    if n.id != 0 {
        return Record::Malformed;
    }
    Record::Ask(question(n, mode))
}

// Whether the four numbers are 0.
fn blank(n: Numbers) -> bool
    ensures { Says result (Blank n) }
{
    n.a == 0 && n.b == 0 && n.c == 0 && n.d == 0
}

#[tactic(auto, using(crate::specs::Laws::row_take_out, crate::specs::Laws::no_take_out))]
fn take_out(n: Numbers) -> Record
    ensures { Row 5 n result }
{
    if n.id == 0 || !blank(n) {
        return Record::Malformed;
    }
    Record::TakeOut(Id { number: n.id })
}

#[tactic(auto, using(crate::specs::Laws::row_undo, crate::specs::Laws::no_undo))]
fn undo(n: Numbers) -> Record
    ensures { Row 6 n result }
{
    if n.id != 0 || !blank(n) {
        return Record::Malformed;
    }
    Record::Undo
}

// The kind is the record's byte: the match on it, with a range for unknown kinds, is document 01's form.
#[tactic(auto, using(crate::specs::Laws::row_zero, crate::specs::Laws::row_seven, crate::specs::Laws::row_rest))]
fn by_kind(kind: u8, n: Numbers) -> Record
    ensures { Row kind n result }
{
    match kind {
        1 => bounds(n),
        2 => keep_out(n),
        3 => lay(n, Mode::Plain),
        4 => ask(n, Mode::Plain),
        5 => take_out(n),
        6 => undo(n),
        8 => ask(n, Mode::Fewest),
        9 => lay(n, Mode::Fewest),
        0 | 7 | 10..=255 => Record::Malformed,
    }
}

// What the bytes are, whatever they are and however many.
#[tactic(auto, using(crate::specs::Laws::short, crate::specs::Laws::spoilt, crate::specs::Laws::reads_row))]
pub fn read(bytes: &[u8]) -> Record
    ensures { Reads bytes.now result }
{
    if bytes.len() != 12 || bytes[1] != 0 {
        return Record::Malformed;
    }
    let n = Numbers {
        id: number(bytes, 2),
        a: number(bytes, 4),
        b: number(bytes, 6),
        c: number(bytes, 8),
        d: number(bytes, 10),
    };
    by_kind(bytes[0], n)
}
