// The program: plans the table file that follows a launch tick, a tick and a number of ticks on standard input, and prints on standard output
// what runs at the tick, what runs next and the runs of so many ticks from it on, or the refusal.
#![tactic(auto)]

use programs::{STDIN, STDOUT};

fn main() {
    programs::now(STDIN, STDOUT);
}
