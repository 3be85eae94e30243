// What every crate shares. The limits of the planner are named here, once; definitions cite the same numbers by the names in
// specs/Limits.antt.
#![tactic(auto)]

// The most tasks of a table, and the places of a table value.
pub const MAX_TASKS: usize = 64;

// The most runs of a plan: 2n − 1 for n tasks.
pub const MAX_PLAN_RUNS: usize = 2 * MAX_TASKS - 1;

// The most runs of a run list.
pub const MAX_RUNS: usize = 4096;

// The last frame that a table can name.
pub const LAST_FRAME: u32 = 131_071;

// The greatest p and q of a period p/q.
pub const MAX_PERIOD: u32 = 4_095;

// The greatest length of a mandatory or an optional part in ticks.
pub const MAX_TICKS: u32 = 16_383;

// The greatest launch tick: the last tick of a day of 24 hours.
pub const MAX_LAUNCH: u32 = 86_399_999;

// The greatest weight of an optional part in a weighted table.
pub const MAX_WEIGHT: u32 = 15;
