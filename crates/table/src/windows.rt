// Windows in columns.
ghost use Rattle.std.specs.Prelude.{◌≤◌};
ghost use Rattle.base.specs.Limits.{max_tasks};

use base::MAX_TASKS;

// The windows of a table's tasks, whose release frames and deadline frames stand in a column each, so that the compiler compares many windows at a time.
#[derive(Clone, Copy)]
pub struct Windows {
    pub count: usize,
    pub releases: [u32; MAX_TASKS],
    pub deadlines: [u32; MAX_TASKS],
    ghost few: { count ≤ max_tasks },
}
