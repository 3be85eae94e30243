// Moving.
use crate::{lists, tables};
use table::Table;

// Reads a moved file again, and prints the answer, whether it is the file that was moved, and its table.
fn read_again(file: &[u8], moved: &[u8]) {
    let read = reading::read(moved);
    cases::text(b"  read again:");
    tables::show_answer(read);
    lists::show_same(file, moved);
    tables::show(read.unwrap_or(Table::none()));
}

// Moves a file into a list and prints the reply and the list; what was written is read again.
fn move_into(file: &[u8], frames: i32, list: &mut [u8]) {
    let reply = moving::shift(file, frames, list);
    cases::show_written(reply.number, reply.place, reply.bytes, list);
    let bytes = reply.bytes;
    if bytes == 0 {
        return;
    }
    if bytes <= list.len() {
        read_again(file, &list[0..bytes]);
    }
}

// A number of frames forward, or, where that is 0, a number of frames back.
fn signed(forward: u32, back: u32) -> i32 {
    if back == 0 {
        return (forward % 2_147_483_648) as i32;
    }
    !(((back - 1) % 2_147_483_648) as i32)
}

// A case: a file, the frames forward and the frames back, and how many bytes the lent list has.
pub fn case(line: &[u8]) {
    let mut file = [0u8; 32];
    let length = cases::file(line, 1, &mut file);
    let frames = signed(cases::number(line, 2), cases::number(line, 3));
    let mut list = [cases::PATTERN; 64];
    let room = (cases::number(line, 4) % 65) as usize;
    move_into(&file[..length], frames, &mut list[0..room]);
}
