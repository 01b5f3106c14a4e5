// Text in a lent buffer: bytes, numbers in decimal, and words of three letters, each from a place on; the place after it is returned.
// Buffer and place are two parameters and no struct, since `Writes` speaks of both before and after.
#![tactic(auto)]

ghost use Rattle.std.specs.Prelude.{◌≡◌, [], ◌∷◌, ◌++◌, ◌+◌, ◌≤◌, ◌<◌, length, map};
ghost use Rattle.text.specs.Text.{Part.number, Part.byte, Puts, Writes};

#[tactic(auto, using(crate::specs::Laws::Written::writes_byte))]
pub fn put_byte(buffer: &mut [u8], at: usize, b: u8) -> usize
    requires { at < length buffer.old }
    ensures { Writes (byte b ∷ []) buffer.old at buffer.new result }
{
    buffer[at] = b;
    at + 1
}

fn put_text(buffer: &mut [u8], at: usize, text: &[u8]) -> usize
    requires { at + length text.now ≤ length buffer.old }
    ensures { Puts text.now buffer.old at buffer.new result }
{
    let next = at + text.len();
    buffer[at..next].copy_from_slice(text);
    next
}

// The decimal digits of n, from `at` on; the place after them.
#[tactic(auto, using(crate::specs::Laws::Written::writes_number))]
pub fn put_number(buffer: &mut [u8], at: usize, n: u32) -> usize
    requires { at + 10 ≤ length buffer.old }
    ensures { Writes (number n ∷ []) buffer.old at buffer.new result }
{
    let mut digits = itoa::Buffer::new();
    put_text(buffer, at, digits.format(n).as_bytes())
}

// A space and a number.
pub fn put_next(buffer: &mut [u8], at: usize, n: u32) -> usize
    requires { at + 11 ≤ length buffer.old }
    ensures { Writes (byte 32 ∷ number n ∷ []) buffer.old at buffer.new result × (result ≤ at + 11) }
{
    let spaced = put_byte(buffer, at, b' ');
    put_number(buffer, spaced, n)
}

// A word of three letters and the line's end.
#[tactic(auto, using(crate::specs::Laws::Written::writes_line))]
pub fn put_word(buffer: &mut [u8], word: &[u8; 3]) -> usize
    requires { 4 ≤ length buffer.old }
    ensures { Writes (map byte word.now ++ byte 10 ∷ []) buffer.old 0 buffer.new result }
{
    let end = put_text(buffer, 0, word);
    put_byte(buffer, end, b'\n')
}
