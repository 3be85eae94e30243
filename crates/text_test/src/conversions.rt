// Files shown as text, and texts made into files, in lent lists; plain ones, and weighted ones.
use conversion::{MAX_TABLE_TEXT, MAX_WEIGHTED_TEXT};
use table::{MAX_FILE, Written};
use table_text::WrongLine;
use weighted_file::MAX_WEIGHTED_FILE;

// Prints the number and the place of a reply, how many bytes were written, and whether the lent list keeps its content beyond them.
fn show_written(reply: Written, list: &[u8]) {
    cases::show(
        b" # # #",
        &[
            u64::from(reply.number),
            reply.place as u64,
            reply.bytes as u64,
        ],
    );
    cases::show_kept(list, reply.bytes);
    cases::text(b"\n");
}

// A case: a file, and how many bytes of a list are lent, in which `show` shows the file as text. Prints the reply and the text.
fn into<F: FnOnce(&[u8], &mut [u8]) -> Written>(line: &[u8], list: &mut [u8], show: F)
    requires { F.IsAlwaysCallable show }
{
    let mut file = [0u8; 32];
    let length = cases::file(line, 1, &mut file);
    let room = (cases::number(line, 2) as usize).min(list.len());
    let reply = show(&file[..length], &mut list[..room]);
    show_written(reply, &list[..room]);
    if let Some(text) = list[..room].get(..reply.bytes) {
        cases::text(text);
    }
}

// Such a case of a plain file.
pub fn into_text(line: &[u8]) {
    into(
        line,
        &mut [cases::PATTERN; MAX_TABLE_TEXT],
        conversion::to_text,
    );
}

// The same of a weighted file.
pub fn into_weighted_text(line: &[u8]) {
    into(
        line,
        &mut [cases::PATTERN; MAX_WEIGHTED_TEXT],
        conversion::weighted_to_text,
    );
}

// Prints the first wrong line of a text and how many numbers are due there, 0 and 0 where none is wrong, and the reply of writing, which is 0 where one is.
fn show_made(made: Result<Written, WrongLine>, list: &[u8]) {
    let (wrong, written) = match made {
        Ok(written) => (WrongLine { line: 0, due: 0 }, written),
        Err(wrong) => (wrong, Written::wrote(0)),
    };
    cases::show(b" # #,", &[wrong.line as u64, wrong.due as u64]);
    show_written(written, list);
}

// A case: a text, of which the file is made.
pub fn out_of_text(text: &[u8]) {
    let mut list = [cases::PATTERN; MAX_FILE];
    let made = conversion::from_text(text, &mut list);
    show_made(made, &list);
}

// The same of a weighted text.
pub fn out_of_weighted_text(text: &[u8]) {
    let mut list = [cases::PATTERN; MAX_WEIGHTED_FILE];
    let made = conversion::weighted_from_text(text, &mut list);
    show_made(made, &list);
}
