// Reading.
use crate::tables;
use table::{Refusal, Table};

// The most bytes of a file that is read.
const MOST: usize = 70_000;

// Prints the answer, and the table. Where the file is refused there is none, and it is printed whether the table of no task, which C gets, is 0 throughout.
fn show(read: Result<Table, Refusal>) {
    tables::show_answer(read);
    match read {
        Ok(table) => {
            cases::text(b"\n");
            tables::show(table);
        }
        Err(_) => tables::show_none(Table::none()),
    }
}

// A case: a file and how many bytes are read. Those beyond the file are 0.
pub fn case(line: &[u8]) {
    let mut file = [0u8; MOST];
    cases::file(line, 1, &mut file);
    let length = (cases::number(line, 2) % 70_001) as usize;
    show(reading::read(&file[0..length]));
}
