// The comparisons of this program, on values that the case has.
use crate::{lists, tables, writes};

// A case: two tables, of which it is printed whether they are the same.
pub fn tables(line: &[u8]) {
    tables::show_same(writes::table_of(line, 1), writes::table_of(line, 2));
}

// A case: two files, of which it is printed whether they are the same.
pub fn files(line: &[u8]) {
    let mut a = [0u8; 32];
    let mut b = [0u8; 32];
    let first = cases::bytes(line, 1, &mut a);
    let second = cases::bytes(line, 2, &mut b);
    lists::show_same(&a[..first], &b[..second]);
}

// A case: a lent list after a call, and how many bytes the call wrote. It is printed whether the list keeps the pattern beyond them.
pub fn list(line: &[u8]) {
    let mut list = [0u8; 32];
    let length = cases::bytes(line, 1, &mut list);
    let bytes = cases::number(line, 2) as usize;
    cases::show_written(0, 0, bytes, &list[..length]);
}

// A case: a table, which is printed, and whether the places beyond its tasks are 0.
pub fn places(line: &[u8]) {
    cases::text(b"\n");
    tables::show(writes::table_of(line, 1));
}

// A case: a table, of which it is printed whether it is 0 throughout.
pub fn zero(line: &[u8]) {
    tables::show_none(writes::table_of(line, 1));
}
