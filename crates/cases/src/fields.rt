// A case on a line: its title, which ends with a colon, and fields with a semicolon between them. A field is a space and a list: numbers in decimal,
// with one byte between them, or bytes, two hexadecimal digits each. A number `v*n` stands for n times v, and `v+n` for the n numbers from v on.
ghost use Rattle.std.specs.Prelude.{◌<◌, ◌≤◌, length, IfSome};
ghost use Rattle.io.specs.Counts.{IsPrefixLen};

use crate::{STDIN, print};

// The numbers that one item of a list stands for: how many, at least one, the first of them, what each is above the one before it; and the bytes behind the item.
#[derive(Clone, Copy)]
struct Item<'a> {
    count: u64,
    value: u64,
    step: u64,
    behind: &'a [u8],
}

// Runs a case on each line of standard input: on its first byte, and on the line with the newline that ends it.
pub fn for_each_line<F: FnMut(u8, &[u8])>(mut case: F)
    requires { F.IsAlwaysCallable case }
{
    let mut text = io::large_buffer();
    let length = io::read_full(STDIN, &mut text);
    for line in text[..length].split_inclusive(|byte| *byte == b'\n') {
        if let Some(start) = line.first() {
            case(*start, line);
        }
    }
}

// The bytes of a line from a field on: the title is field 0. There are none where the line has no such field.
pub fn from_field(line: &[u8], field: usize) -> &[u8]
    ensures { length result.now ≤ length line.now }
{
    let mut rest = line;
    for _ in 0..field {
        match rest.iter().position(|byte| *byte == b':' || *byte == b';') {
            Some(end) => rest = &rest[end + 1..],
            None => return &rest[rest.len()..],
        }
    }
    rest
}

// Prints the title of a line, with its colon.
pub fn show_title(line: &[u8]) {
    let title = line.len() - from_field(line, 1).len();
    print::text(&line[..title]);
}

// What a hexadecimal digit, in upper case, stands for.
fn digit(byte: u8) -> Option<u8>
    ensures { IfSome result (λ value. value < 16) }
{
    match byte {
        b'0'..=b'9' => Some(byte - b'0'),
        b'A'..=b'F' => Some(byte - b'A' + 10),
        _ => None,
    }
}

// The byte of two hexadecimal digits.
fn byte(digits: &[u8]) -> Option<u8> {
    let [high, low] = digits else {
        return None;
    };
    Some(digit(*high)? * 16 + digit(*low)?)
}

// The number whose decimal digits stand at the front of some bytes, and the bytes behind them.
fn decimal(text: &[u8]) -> (u64, &[u8]) {
    let mut value: u64 = 0;
    for (place, byte) in text.iter().enumerate() {
        if !byte.is_ascii_digit() {
            return (value, &text[place..]);
        }
        value = value % 1_000_000_000 * 10 + u64::from(*byte - b'0');
    }
    (value, &text[text.len()..])
}

// The item at the front of some bytes, behind the byte that stands before each item, if an item is there.
fn first_item(text: &[u8]) -> Option<Item> {
    let (_, text) = text.split_first()?;
    let (value, rest) = decimal(text);
    if rest.len() == text.len() {
        return None;
    }
    let (mark, behind) = rest.split_first()?;
    let step = match *mark {
        b'*' => 0,
        b'+' => 1,
        _ => {
            return Some(Item {
                count: 1,
                value,
                step: 0,
                behind: rest,
            });
        }
    };
    let (count, behind) = decimal(behind);
    if count == 0 {
        return None;
    }
    Some(Item {
        count,
        value,
        step,
        behind,
    })
}

// The numbers of a list behind the first number of an item.
fn rest(item: Item) -> Option<Item> {
    if item.count <= 1 {
        return first_item(item.behind);
    }
    Some(Item {
        count: item.count - 1,
        value: item.value % 4_294_967_296 + item.step % 2,
        step: item.step,
        behind: item.behind,
    })
}

// Puts the numbers of a field into a list, as many as the list holds, and answers how many.
pub fn numbers(line: &[u8], field: usize, list: &mut [u32]) -> usize
    ensures { IsPrefixLen result list.new }
{
    let mut next = first_item(from_field(line, field));
    for (count, place) in list.iter_mut().enumerate() {
        let Some(item) = next else {
            return count;
        };
        *place = (item.value % 4_294_967_296) as u32;
        next = rest(item);
    }
    list.len()
}

// The first number of a field, and 0 where it has none.
pub fn number(line: &[u8], field: usize) -> u32 {
    match first_item(from_field(line, field)) {
        Some(item) => (item.value % 4_294_967_296) as u32,
        None => 0,
    }
}

// Puts the bytes of a field into a list, as many as the list holds, and answers how many.
pub fn bytes(line: &[u8], field: usize, list: &mut [u8]) -> usize
    ensures { IsPrefixLen result list.new }
{
    bytes_in(from_field(line, field), list)
}

// Puts the bytes that a field has, behind its space, into a list, as many as the list holds, and answers how many.
pub fn bytes_in(field: &[u8], list: &mut [u8]) -> usize
    ensures { IsPrefixLen result list.new }
{
    let Some((_, digits)) = field.split_first() else {
        return 0;
    };
    let mut pairs = digits.chunks_exact(2);
    for (count, place) in list.iter_mut().enumerate() {
        let Some(byte) = pairs.next().and_then(byte) else {
            return count;
        };
        *place = byte;
    }
    list.len()
}
