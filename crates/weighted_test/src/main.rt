// Reads, writes, plans and judges weighted tables and prints what each call answers. The cases are the lines of the file `stdin`, of which a line that starts
// with `#` is a comment. What is printed starts with the case's title and the number and place of the answer.
//
// Of a plan the reply has kept, discarded and the runs too. Below it stand the lists: at each place the mark, and the start, the end and the task of the run,
// 77 where nothing was written; and what the weighted judge says of it: number, place, 1 for yes or 0 for no, kept and discarded.
//
// The expected output was worked out by a program in another language, written from documents 01 and 02: it tries every keep list.
#![tactic(auto)]

mod judges;
mod planning;
mod reads;
mod tables;
mod writes;

// The case on a line that starts with a given byte.
fn case(start: u8, line: &[u8]) {
    if start == b'#' {
        return;
    }
    cases::show_title(line);
    match start {
        b'r' => reads::case(line),
        b'w' => writes::case(line),
        b'p' => planning::case(line),
        b'u' => planning::unweighted(line),
        _ => judges::case(line),
    }
}

fn main() {
    cases::for_each_line(case);
}
