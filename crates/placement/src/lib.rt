// Where the work of each job is placed: the definition, tick by tick, and its theorems; and the placing by runs, as the code of placing has it.
// There is no code here.
#![tactic(auto)]

// Where the runs found so far stand by start: from place `first`, included, to `end`, excluded. Up to place `closed`, included, there is no
// gap between them.
#[derive(Clone, Copy)]
pub struct Span {
    pub first: usize,
    pub closed: usize,
    pub end: usize,
}
