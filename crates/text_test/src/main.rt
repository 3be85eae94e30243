// Reads tables from texts and prints what each text gives. The cases are the lines of the file `stdin`, of which a line that starts with `#` is a
// comment.
//
// A line has a title and, right behind its colon, the text, in which `\n` stands for a newline, `\r` for a carriage return, `\t` for a tab, `\f` for a form
// feed and `\0` for the byte 0. What is printed is the title, the first wrong line and how many numbers are due there; then the table: task count, p and q,
// and the tasks at the places 0, 1, 2 and 63. A line that starts with `refusal` has the number and the place of a refusal of writing; what is printed is the
// line of the text that it is about.
//
// A line that starts with `into` has a file and how many bytes the list has in which it is shown as text; what is printed is the reply's number, place and
// bytes, whether the list is kept beyond them, and the text. A line that starts with `out` has a text that is made into a file; what is printed is the first
// wrong line, how many numbers are due there, and then writing's reply in the same way.
//
// A line that starts with `Weighted`, `Into` or `Out` is the same of a weighted table; behind the tasks of a text the weights at those places are printed.
#![tactic(auto)]

mod conversions;

ghost use Rattle.io.specs.Counts.{IsPrefixLen};

use base::MAX_TASKS;
use table::{Table, Task};
use table_text::WrongLine;
use weighted_file::Weighted;

// What the byte behind a backslash stands for.
fn escaped(byte: u8) -> u8 {
    match byte {
        b'n' => b'\n',
        b'r' => b'\r',
        b't' => b'\t',
        b'f' => b'\x0C',
        _ => b'\0',
    }
}

// Puts what stands before the last byte of a line into a list, as much as the list holds, and answers how many bytes.
fn unescape(line: &[u8], list: &mut [u8]) -> usize
    ensures { IsPrefixLen result list.new }
{
    let Some((_, text)) = line.split_last() else {
        return 0;
    };
    let mut bytes = text.iter();
    for (count, place) in list.iter_mut().enumerate() {
        *place = match bytes.next() {
            None => return count,
            Some(b'\\') => escaped(bytes.next().copied().unwrap_or(b'0')),
            Some(byte) => *byte,
        };
    }
    list.len()
}

// Prints a task.
fn show_task(task: Task) {
    cases::show(
        b", # # # #",
        &[
            u64::from(task.release),
            u64::from(task.deadline),
            u64::from(task.mandatory),
            u64::from(task.optional),
        ],
    );
}

// What is printed of what a text gives: its wrong line, 0 where none is, and its weighted table, 0 throughout where a line is wrong.
fn parts(parsed: Result<Weighted, WrongLine>) -> (WrongLine, Weighted) {
    match parsed {
        Ok(weighted) => (WrongLine { line: 0, due: 0 }, weighted),
        Err(wrong) => (wrong, Weighted::none()),
    }
}

// Prints what a text gives: the wrong line, the numbers due there, the table, of which four places.
fn show_table(wrong: WrongLine, table: Table) {
    cases::show(
        b" # #, # # #",
        &[
            wrong.line as u64,
            wrong.due as u64,
            u64::from(table.count),
            u64::from(table.p),
            u64::from(table.q),
        ],
    );
    for task in table.tasks[..3].iter().chain(&table.tasks[63..]) {
        show_task(*task);
    }
}

// Prints what the text of a plain table gives.
fn show(parsed: Result<Table, WrongLine>) {
    let (wrong, weighted) = parts(parsed.map(|table| Weighted {
        table,
        weights: [0; MAX_TASKS],
    }));
    show_table(wrong, weighted.table);
    cases::text(b"\n");
}

// Prints what the text of a weighted table gives.
fn show_weighted(parsed: Result<Weighted, WrongLine>) {
    let (wrong, weighted) = parts(parsed);
    let weights = weighted.weights;
    show_table(wrong, weighted.table);
    cases::show(
        b"; # # # #\n",
        &[
            u64::from(weights[0]),
            u64::from(weights[1]),
            u64::from(weights[2]),
            u64::from(weights[63]),
        ],
    );
}

// Prints the line that a refusal of writing is about.
fn refusal(line: &[u8]) {
    let number = cases::number(line, 1);
    let place = cases::number(line, 2) as usize;
    let about = text_reading::refused_line(number, place);
    cases::show(b" line #\n", &[about as u64]);
}

// The case of a text, on a line that starts with a given byte.
fn text_case(start: u8, line: &[u8]) {
    let mut text = [0u8; 600];
    let length = unescape(cases::from_field(line, 1), &mut text);
    let text = &text[..length];
    match start {
        b'o' => conversions::out_of_text(text),
        b'O' => conversions::out_of_weighted_text(text),
        b'W' => show_weighted(text_reading::parse_weighted(text)),
        _ => show(text_reading::parse(text)),
    }
}

// The case on a line that starts with a given byte.
fn case(start: u8, line: &[u8]) {
    if start == b'#' {
        return;
    }
    cases::show_title(line);
    match start {
        b'r' => refusal(line),
        b'i' => conversions::into_text(line),
        b'I' => conversions::into_weighted_text(line),
        _ => text_case(start, line),
    }
}

fn main() {
    cases::for_each_line(case);
}
