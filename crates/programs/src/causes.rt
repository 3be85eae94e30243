// What the refusals of reading and of writing mean, in words.

// What 7 means of a plain table, and of a weighted one.
pub const NEITHER_KIND: &[u8] = b"the windows up to this task neither nest nor follow one another";

pub const NOT_NESTED: &[u8] = b"the windows up to this task do not nest";

// The same as the end of a line of errors that tells a place.
pub const NEITHER_KIND_END: &[u8] =
    b"the windows up to this task neither nest nor follow one another (the place is the task's position)\n";

pub const NOT_NESTED_END: &[u8] =
    b"the windows up to this task do not nest (the place is the task's position)\n";

// What the number of a refusal of writing means, where `windows` is what 7 means.
pub fn cause(number: u32, windows: &[u8]) -> &[u8] {
    match number {
        2 => b"task count 0 or above 64",
        5 => b"p or q is 0 or above 4,095, or p below q",
        6 => b"release frame not below deadline frame",
        12 => b"a number is too large for its field: frames go to 131,071, ticks to 16,383",
        16 => b"a weight is 0 or above 15",
        _ => windows,
    }
}

// The end of the line of errors on a refusal of reading: what its number means, what its place means, and the newline, where `windows` is that of 7. It is one
// byte string, so that one write puts it.
pub fn line_end(number: u32, windows: &[u8]) -> &[u8] {
    match number {
        1 => b"fewer bytes than the table needs (the place is the file's length)\n",
        2 => b"task count 0 or above 64\n",
        3 => b"more bytes than the task count needs (the place is the length needed)\n",
        4 => b"a padding bit is set\n",
        5 => b"p or q is 0 or above 4,095, or p below q\n",
        6 => b"release frame not below deadline frame (the place is the task's position)\n",
        16 => b"a weight is 0 or above 15 (the place is the task's position)\n",
        _ => windows,
    }
}
