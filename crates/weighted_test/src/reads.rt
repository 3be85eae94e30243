// Reading.
use crate::tables;
use weighted_file::Weighted;

// The most bytes of a file that is read.
const MOST: usize = 600;

// Reads a file and prints the answer, and the weighted table. Where the file is refused there is none, and it is printed whether the weighted table of no task,
// which C gets, is 0 throughout.
pub fn show(file: &[u8]) {
    let read = weighted_reading::read(file);
    tables::show_answer(read);
    match read {
        Ok(weighted) => {
            cases::text(b"\n");
            tables::show(weighted);
        }
        Err(_) => tables::show_none(Weighted::none()),
    }
}

// A case: a file and how many bytes are read. Those beyond the file are 0.
pub fn case(line: &[u8]) {
    let mut file = [0u8; MOST];
    cases::bytes(line, 1, &mut file);
    let length = (cases::number(line, 2) % 601) as usize;
    show(&file[0..length]);
}
