// Writing.
use crate::tables;
use base::MAX_TASKS;
use table::{NO_TASK, Table, Task};

// The numbers of a table: count, p, q, and four for each task.
const NUMBERS: usize = 259;

// The tasks among the numbers of a table.
fn tasks_of(numbers: [u32; NUMBERS]) -> [Task; MAX_TASKS] {
    let mut tasks = [NO_TASK; MAX_TASKS];
    for k in 0..MAX_TASKS {
        tasks[k] = Task {
            release: numbers[4 * k + 3],
            deadline: numbers[4 * k + 4],
            mandatory: numbers[4 * k + 5],
            optional: numbers[4 * k + 6],
        };
    }
    tasks
}

// The table in a file that a field of a line names; a file that is refused has none, and the table is 0 throughout.
fn table_in(line: &[u8], field: usize) -> Table {
    let mut file = [0u8; 500];
    let length = cases::file(line, field, &mut file);
    reading::read(&file[..length]).unwrap_or(Table::none())
}

// The table of a field, which has its numbers, or names a file that it is in.
pub fn table_of(line: &[u8], field: usize) -> Table {
    let mut numbers = [0u32; NUMBERS];
    if cases::numbers(line, field, &mut numbers) == 0 {
        return table_in(line, field);
    }
    let tasks = tasks_of(numbers);
    Table {
        count: numbers[0],
        p: numbers[1],
        q: numbers[2],
        tasks,
    }
}

// Reads again what was written, and prints the answer and whether the tables are the same.
fn read_again(table: Table, file: &[u8]) {
    let read = reading::read(file);
    cases::text(b"  read again:");
    tables::show_answer(read);
    tables::show_same(table, read.unwrap_or(Table::none()));
}

// Writes a table into a list and prints the reply and the list; what was written is read again.
fn write_into(table: Table, list: &mut [u8]) {
    let reply = writing::write(table, list);
    cases::show_written(reply.number, reply.place, reply.bytes, list);
    let bytes = reply.bytes;
    if bytes == 0 {
        return;
    }
    if bytes <= list.len() {
        read_again(table, &list[0..bytes]);
    }
}

// A case: how many bytes the lent list has, and the table. Where a number follows, only the number of bytes written is printed.
pub fn case(line: &[u8]) {
    let mut list = [cases::PATTERN; 512];
    let table = table_of(line, 2);
    if cases::number(line, 3) != 0 {
        let reply = writing::write(table, &mut list);
        cases::show(b" #\n", &[reply.bytes as u64]);
        return;
    }
    let room = (cases::number(line, 1) % 513) as usize;
    write_into(table, &mut list[0..room]);
}
