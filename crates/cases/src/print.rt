// Text on standard output.
use crate::STDOUT;

// Bytes as they are.
pub fn text(bytes: &[u8]) {
    io::write_all(STDOUT, bytes);
}

// A pattern, with the next of the numbers, in decimal, for each `#`.
pub fn show(pattern: &[u8], numbers: &[u64]) {
    let mut left = numbers.iter();
    for byte in pattern {
        if *byte != b'#' {
            text(&[*byte]);
        } else if let Some(number) = left.next() {
            io::print_decimal(STDOUT, *number);
        }
    }
}
