// The program: writes the table file of the lines of text on standard input to standard output, or says on standard error why not.
#![tactic(auto)]

use programs::{STDERR, STDIN, STDOUT};

fn main() {
    programs::table_from_text(STDIN, STDOUT, STDERR);
}
