// Shows a table file: from the file's bytes to lines of text. Line 1 has the task count, p and q. Then one line for each task has release frame,
// deadline frame, mandatory ticks, optional ticks. Where reading refuses the file, nothing is written, and one line of errors gives the number, the
// place and the cause. A weighted file is shown in the same way, with the weight behind the optional ticks.
ghost use Rattle.std.specs.Prelude.{◌≤◌, length};

use crate::causes;
use crate::causes::{NEITHER_KIND_END, NOT_NESTED_END};
use conversion::{MAX_TABLE_TEXT, MAX_WEIGHTED_TEXT};
use table::{FILE_BYTES_READ, Written};
use weighted_file::WEIGHTED_BYTES_READ;

// The one line of errors: a refusal's number and place, and its cause, where `windows` is the line's end of 7.
fn refused(reply: Written, windows: &[u8], errors: i32) {
    io::write_all(errors, b"refused, number ");
    io::print_decimal(errors, u64::from(reply.number));
    io::write_all(errors, b", place ");
    io::print_decimal(errors, reply.place as u64);
    io::write_all(errors, b": ");
    io::write_all(errors, causes::line_end(reply.number, windows));
}

// Writes the text that a file was shown as, or the one line of errors.
fn write_shown(reply: Written, text: &[u8], windows: &[u8], output: i32, errors: i32)
    requires { reply.bytes ≤ length text.now }
{
    if reply.number != 0 {
        refused(reply, windows, errors);
        return;
    }
    io::write_all(output, &text[..reply.bytes]);
}

// Shows the table file of an input as text, or says why not.
pub fn table_to_text(input: i32, output: i32, errors: i32) {
    let mut first = [0u8; FILE_BYTES_READ];
    let filled = io::read_full(input, &mut first);
    let mut text = [0u8; MAX_TABLE_TEXT];
    let reply = conversion::to_text_from_first(first, filled, &mut text);
    write_shown(reply, &text, NEITHER_KIND_END, output, errors);
}

// Shows the weighted file of an input as text, or says why not.
pub fn weighted_to_text(input: i32, output: i32, errors: i32) {
    let mut first = [0u8; WEIGHTED_BYTES_READ];
    let filled = io::read_full(input, &mut first);
    let mut text = [0u8; MAX_WEIGHTED_TEXT];
    let reply = conversion::weighted_to_text_from_first(first, filled, &mut text);
    write_shown(reply, &text, NOT_NESTED_END, output, errors);
}
