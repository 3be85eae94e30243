// The program: shows the table file on standard input as lines of text on standard output, or says on standard error why not.
#![tactic(auto)]

use programs::{STDERR, STDIN, STDOUT};

fn main() {
    programs::table_to_text(STDIN, STDOUT, STDERR);
}
