// The plan of a table at a launch tick: what planning replies and writes, demands 2 and 3, the rules by position, what a launch tick does, and the
// theorems. There is no code here: planner has the call.
#![tactic(auto)]

// The reply of planning: the refusal's number and place; or 0, the counts kept and discarded, and the number of runs.
#[repr(C)]
#[derive(Clone, Copy)]
pub struct Planned {
    pub number: u32,
    pub place: usize,
    pub kept: u32,
    pub discarded: u32,
    pub runs: usize,
}
