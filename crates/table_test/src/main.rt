// Reads, writes and moves table files and prints what each call answers. The cases are the lines of the file `stdin`, of which a line that starts with
// `#` is a comment. What is printed starts with the case's title and the number and place of the answer.
//
// The last cases are about the comparisons that this program makes itself, each on values that are the same and on values that differ in one place.
#![tactic(auto)]

mod comparisons;
mod lists;
mod moves;
mod reads;
mod tables;
mod writes;

// The case on a line that starts with a given byte.
fn case(start: u8, line: &[u8]) {
    if start == b'#' {
        return;
    }
    cases::show_title(line);
    match start {
        b'r' => reads::case(line),
        b'w' => writes::case(line),
        b'm' => moves::case(line),
        b't' => comparisons::tables(line),
        b'f' => comparisons::files(line),
        b'l' => comparisons::list(line),
        b'p' => comparisons::places(line),
        _ => comparisons::zero(line),
    }
}

fn main() {
    cases::for_each_line(case);
}
