// Prints the plan or the refusal of table files. The cases are the lines of the file `stdin`, of which a line that starts with `#` is a comment.
//
// A line that starts with `print` has a table file and a launch tick, which is 0 where none stands there. One that starts with `input` has an input
// of the program `plan`: the 4 bytes of a launch tick, and a table file. One that starts with `first` has no file, a number, and how many bytes an
// input has, each of them that number: the program reads the first ones. What the file or the input gets is printed, and a line behind it. A line
// that starts with `short` has bytes that are printed, as a file and as an input, into a list of 100 bytes.
#![tactic(auto)]

use report::{INPUT_BYTES, MAX_TEXT};

// Prints the bytes at the front of a list, and a line behind them.
fn show_front(text: [u8; MAX_TEXT], count: usize) {
    if let Some(printed) = text.get(..count) {
        cases::text(printed);
    }
    cases::text(b"--\n");
}

// Prints what a file gets at a launch tick.
fn show(file: &[u8], launch: u32) {
    let mut text = [0u8; MAX_TEXT];
    let printed = report::print(file, launch, &mut text);
    show_front(text, printed);
}

// Prints what an input gets.
fn show_input(input: &[u8]) {
    let mut text = [0u8; MAX_TEXT];
    let printed = report::print_input(input, &mut text);
    show_front(text, printed);
}

// Prints what an input gets of which every byte is the same.
fn show_from_first(each: u8, filled: usize) {
    let first = [each; INPUT_BYTES];
    let mut text = [0u8; MAX_TEXT];
    let printed = report::print_from_first(first, filled, &mut text);
    show_front(text, printed);
}

// Prints how many bytes are printed into a list that is too short for the longest text, and the list.
fn show_short(bytes: &[u8]) {
    let mut text = [b'.'; 100];
    let of_file = report::print(bytes, 0, &mut text);
    let of_input = report::print_input(bytes, &mut text);
    cases::show(b"# #\n", &[of_file as u64, of_input as u64]);
    cases::text(&text);
    cases::text(b"\n");
}

// The case on a line that starts with a given byte.
fn case(start: u8, line: &[u8]) {
    let mut file = [0u8; INPUT_BYTES];
    let length = cases::file(line, 1, &mut file);
    let number = cases::number(line, 2);
    match start {
        b'p' => show(&file[..length], number),
        b'i' => show_input(&file[..length]),
        b'f' => show_from_first((number % 256) as u8, cases::number(line, 3) as usize),
        b's' => show_short(&file[..length]),
        _ => {}
    }
}

fn main() {
    cases::for_each_line(case);
}
