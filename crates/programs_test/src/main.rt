// Runs the programs on files, and prints what each writes. The cases are the lines of the file `stdin`: `plan`, `now`, `to_text`, `from_text`,
// `show_weighted` or `make_weighted`, a colon, a space and the name of a file. Behind the line of `plan` and `now` comes what is written to standard output. The
// others write to standard error too. They are run twice, each time with one of the two streams closed: behind the line `errors` comes what is written to standard error,
// and behind the line `output` what is written to standard output.
#![tactic(auto)]

use cases::STDOUT;
use std::fs::File;
use std::os::fd::AsRawFd;

// A descriptor that is not open: what is written there is lost.
const CLOSED: i32 = -1;

// Runs a program on an open file: `plan`, `now`, table_to_text, table_from_text, weighted_to_text or weighted_from_text, by the first byte of its case. `plan`
// and `now` have no stream of errors.
fn run(start: u8, input: i32, output: i32, errors: i32) {
    match start {
        b'p' => programs::plan(input, output),
        b'n' => programs::now(input, output),
        b't' => programs::table_to_text(input, output, errors),
        b'f' => programs::table_from_text(input, output, errors),
        b's' => programs::weighted_to_text(input, output, errors),
        b'm' => programs::weighted_from_text(input, output, errors),
        _ => cases::text(b"no such program\n"),
    }
}

// Opens the file of a name, from its start, and runs a program on it.
fn run_on(rt: &HostRuntime, start: u8, name: &[u8], output: i32, errors: i32) {
    let Ok(name) = str::from_utf8(name) else {
        cases::text(b"no such file\n");
        return;
    };
    let Ok(file) = File::open(rt, name) else {
        cases::text(b"no such file\n");
        return;
    };
    run(start, file.as_raw_fd(), output, errors);
}

// Runs a program on the file of a name, so that each of its streams is seen alone.
fn run_by_streams(rt: &HostRuntime, start: u8, name: &[u8]) {
    if start == b'p' || start == b'n' {
        run_on(rt, start, name, STDOUT, CLOSED);
        return;
    }
    cases::text(b"errors\n");
    run_on(rt, start, name, CLOSED, STDOUT);
    cases::text(b"output\n");
    run_on(rt, start, name, STDOUT, CLOSED);
}

// The case on a line that ends with a newline, or with no byte behind the name.
fn case(rt: &HostRuntime, start: u8, line: &[u8]) {
    cases::text(line);
    if let [_, name @ .., _] = cases::from_field(line, 1) {
        run_by_streams(rt, start, name);
    }
}

fn main(rt: HostRuntime) {
    cases::for_each_line(|start, line| case(&rt, start, line));
}
