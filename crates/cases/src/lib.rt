// What the test programs share: cases that stand on lines of text, printing, the table files that several cases are about, and lent lists.
#![tactic(auto)]

mod fields;
mod files;
mod lent;
mod plans;
mod print;

// The descriptors of standard input and of standard output.
const STDIN: i32 = 0;

pub const STDOUT: i32 = 1;

pub use fields::{bytes, for_each_line, from_field, number, numbers, show_title};
pub use files::file;
pub use lent::{PATTERN, show_kept, show_written};
pub use plans::{Lists, MARK, show_row};
pub use print::{show, text};
