// Lines of text put into a lent list, as bytes: words, decimal numbers, a newline at the end of a line.
// Each function takes the place at which it puts and answers the place behind: a writer that held the list would have to say, in each contract and each loop's
// invariant, that it still holds the same list.
#![tactic(auto)]

ghost use Rattle.std.specs.Prelude.{[], ◌∷◌, ◌+◌, ◌≤◌, ◌<◌, length};
ghost use Rattle.lines.specs.Putting.{Put};
ghost use Rattle.lines.specs.Text.{decimal, fields, line};

// The bytes between two fields and at the end of a line, and those of the digits 0 and 9.
pub const SPACE: u8 = b' ';

pub const NEWLINE: u8 = b'\n';

pub const ZERO: u8 = b'0';

pub const NINE: u8 = b'9';

// The most bytes of a number in a line: 20 digits, and the byte beside them. Definitions say max_field.
pub const MAX_FIELD: usize = 20 + 1;

// One byte put at a place.
#[tactic(auto, using(crate::proofs::PutLaws::put_one))]
pub fn put_byte(out: &mut [u8], at: usize, byte: u8) -> usize
    requires { at < length out.old }
    ensures { Put (byte ∷ []) at out.old result out.new }
{
    out[at] = byte;
    at + 1
}

// A word put at a place.
#[tactic(auto, using(crate::proofs::PutLaws::put_part))]
pub fn put_word(out: &mut [u8], at: usize, word: &[u8]) -> usize
    requires { at + length word.now ≤ length out.old }
    ensures { Put word.now at out.old result out.new }
{
    let next = at + word.len();
    out[at..next].copy_from_slice(word);
    next
}

// A number's decimal digits put at a place: those of its tenth, and then the last one.
pub fn put_decimal(out: &mut [u8], at: usize, n: u64) -> usize
    requires { at + length (decimal n) ≤ length out.old }
    ensures { Put (decimal n) at out.old result out.new }
{
    let last = ZERO + (n % 10) as u8;
    if n < 10 {
        return put_byte(out, at, last);
    }
    let next = put_decimal(out, at, n / 10);
    put_byte(out, next, last)
}

// Numbers put at a place, each with a space before it.
pub fn put_fields(out: &mut [u8], at: usize, numbers: &[u64]) -> usize
    requires { at + length (fields numbers.now) ≤ length out.old }
    ensures { Put (fields numbers.now) at out.old result out.new }
{
    let mut next = at;
    for number in numbers {
        let digits = put_byte(out, next, SPACE);
        next = put_decimal(out, digits, *number);
    }
    next
}

// A line put at a place: a word, its numbers, a newline.
#[tactic(auto, using(crate::proofs::LineLaws::line_length))]
pub fn put_line(out: &mut [u8], at: usize, word: &[u8], numbers: &[u64]) -> usize
    requires { at + length (line word.now numbers.now) ≤ length out.old }
    ensures { Put (line word.now numbers.now) at out.old result out.new }
{
    let first = put_word(out, at, word);
    let end = put_fields(out, first, numbers);
    put_byte(out, end, NEWLINE)
}
