// Files, compared.

// Prints whether two files are the same.
pub fn show_same(a: &[u8], b: &[u8]) {
    if a == b {
        cases::text(b" same file\n");
    } else {
        cases::text(b" another file\n");
    }
}
