// The program: plans the table file that follows a launch tick on standard input, and prints its plan or its refusal on standard output.
#![tactic(auto)]

use programs::{STDIN, STDOUT};

fn main() {
    programs::plan(STDIN, STDOUT);
}
