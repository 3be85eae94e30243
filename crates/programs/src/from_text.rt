// Writes a table file, plain or weighted: from lines of text to the file's bytes. Where a line is wrong, nothing is written, and one line of errors says which
// and why.
ghost use Rattle.std.specs.Prelude.{◌≤◌, IfOk, length};

use crate::causes;
use crate::causes::{NEITHER_KIND, NOT_NESTED};
use table::{MAX_FILE, Written};
use table_text::WrongLine;
use weighted_file::MAX_WEIGHTED_FILE;

// The one line of errors: the number of a line, and what is wrong with it.
fn put_error(line: usize, cause: &[u8], errors: i32) {
    io::write_all(errors, b"line ");
    io::print_decimal(errors, line as u64);
    io::write_all(errors, b": ");
    io::write_all(errors, cause);
    io::write_all(errors, b"\n");
}

// What is wrong with a line of which so many numbers are due.
fn numbers_due(due: usize) -> &'static [u8] {
    match due {
        3 => b"three numbers are due: task count, p, q (decimal, at most 999,999,999 each)",
        4 =>
            b"four numbers are due: release frame, deadline frame, mandatory ticks, optional ticks (decimal, at most 999,999,999 each)",
        5 =>
            b"five numbers are due: release frame, deadline frame, mandatory ticks, optional ticks, weight (decimal, at most 999,999,999 each)",
        _ => b"nothing is due after the last task: line 1 has the task count",
    }
}

// Writes the file that was made of a text, or the one line of errors, where `windows` is what 7 means.
fn write_made(
    made: Result<Written, WrongLine>,
    file: &[u8],
    windows: &[u8],
    output: i32,
    errors: i32,
)
    requires { IfOk made (λ written. written.bytes ≤ length file.now) }
{
    match made {
        Err(wrong) => put_error(wrong.line, numbers_due(wrong.due), errors),
        Ok(written) if written.number != 0 => {
            let line = text_reading::refused_line(written.number, written.place);
            put_error(line, causes::cause(written.number, windows), errors);
        }
        Ok(written) => {
            io::write_all(output, &file[..written.bytes]);
        }
    }
}

// Reads a text and converts it. A text that fills the buffer may be cut: one byte is left to tell.
fn with_text<F: FnOnce(&[u8])>(input: i32, errors: i32, convert: F)
    requires { F.IsAlwaysCallable convert }
{
    let mut buffer = io::large_buffer();
    let length = io::read_full(input, &mut buffer);
    if length == buffer.len() {
        io::write_all(errors, b"the text has more than 65,535 bytes\n");
        return;
    }
    convert(&buffer[..length]);
}

// Writes the table file of an input's text, or says why not.
pub fn table_from_text(input: i32, output: i32, errors: i32) {
    with_text(input, errors, |text| {
        let mut file = [0u8; MAX_FILE];
        let made = conversion::from_text(text, &mut file);
        write_made(made, &file, NEITHER_KIND, output, errors);
    });
}

// Writes the weighted file of an input's text, or says why not.
pub fn weighted_from_text(input: i32, output: i32, errors: i32) {
    with_text(input, errors, |text| {
        let mut file = [0u8; MAX_WEIGHTED_FILE];
        let made = conversion::weighted_from_text(text, &mut file);
        write_made(made, &file, NOT_NESTED, output, errors);
    });
}
