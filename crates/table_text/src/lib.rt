// Tables as lines of text: the definitions and their theorems, and the struct that they name. text_reading and conversion have the code.
#![tactic(auto)]

// The first wrong line of a text, from 1 on, and how many numbers are due there: 3 on line 1, as many as a task has on the line of a task, and 0 after the last
// task.
#[derive(Clone, Copy, Debug, PartialEq, Eq)]
pub struct WrongLine {
    pub line: usize,
    pub due: usize,
}
