// Lists of bytes that are lent to a call.
use crate::{STDOUT, print};

// What every byte of a lent list is before a call.
pub const PATTERN: u8 = 0xA5;

// Prints whether a lent list keeps the pattern beyond the bytes that a call wrote.
pub fn show_kept(list: &[u8], written: usize) {
    if list.iter().skip(written).all(|byte| *byte == PATTERN) {
        print::text(b" kept");
    } else {
        print::text(b" changed");
    }
}

// Prints the bytes of a list, 20 to a line.
fn show_bytes(list: &[u8]) {
    for (i, byte) in list.iter().enumerate() {
        if i % 20 == 0 {
            print::text(b"\n  bytes");
        }
        print::text(b" ");
        io::print_hex(STDOUT, u64::from(*byte), 2);
    }
    print::text(b"\n");
}

// Prints the reply of a call that writes bytes: number, place and bytes written, whether the lent list keeps the pattern beyond them, and the bytes.
pub fn show_written(number: u32, place: usize, bytes: usize, list: &[u8]) {
    print::show(b" # # #", &[u64::from(number), place as u64, bytes as u64]);
    show_kept(list, bytes);
    if let Some(written) = list.get(..bytes) {
        show_bytes(written);
    }
}
