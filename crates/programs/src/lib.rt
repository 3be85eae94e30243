// The programs, each as one function over file descriptors. How many bytes `plan`, `now`, `table_to_text` and `weighted_to_text` read of their input comes with
// the type of the function that is called: they can't choose it. `table_from_text` and `weighted_from_text` read a text into a buffer, and refuse one that fills
// it.
#![tactic(auto)]

use console::NOW_INPUT_BYTES;
use report::{INPUT_BYTES, MAX_TEXT};

mod causes;
mod from_text;
mod to_text;

pub use from_text::{table_from_text, weighted_from_text};
pub use to_text::{table_to_text, weighted_to_text};

// The descriptors of the standard streams.
pub const STDIN: i32 = 0;

pub const STDOUT: i32 = 1;

pub const STDERR: i32 = 2;

// Plans the table file of an input at the launch tick before it, and prints its plan or its refusal.
pub fn plan(input: i32, output: i32) {
    let mut first = [0u8; INPUT_BYTES];
    let filled = io::read_full(input, &mut first);
    let mut text = [0u8; MAX_TEXT];
    let printed = report::print_from_first(first, filled, &mut text);
    io::write_all(output, &text[..printed]);
}

// Plans the table file of an input at the launch tick before it, and prints what runs at the tick that stands there too, what runs next and
// the runs of so many ticks from it on, or the refusal. It is not one function with `plan`: that would have to require of the closure that it is given how
// much it may print.
pub fn now(input: i32, output: i32) {
    let mut first = [0u8; NOW_INPUT_BYTES];
    let filled = io::read_full(input, &mut first);
    let mut text = [0u8; MAX_TEXT];
    let printed = console::print_now_from_first(first, filled, &mut text);
    io::write_all(output, &text[..printed]);
}
