// Small tables: every table of a family by its index.
use table::{NO_TASK, Task};

// The most tasks of a small table.
pub const PLACES: usize = 4;

// All tables of `count` tasks with a period, in which a task has one of some windows, mandatory ticks 0 to 1, and optional ticks from 0 to `optional`, 3
// at most. The windows are those below from place `first` on, and `more` after it, 9 at most. The period is 1/1, 3/2 or 5/4, which are the rows 0 to 2 of the
// ticks below. The tables are planned at the launch tick `launch`.
#[derive(Clone, Copy)]
pub struct Family {
    pub count: usize,
    pub p: u32,
    pub q: u32,
    pub row: usize,
    pub first: u32,
    pub more: u32,
    pub optional: u32,
    pub launch: u32,
}

// The windows in frames, release and deadline in turn: at places 0 to 9 all ten within frames 0 to 4, those of more than one frame first; at 10 to 12 three
// one in the other, and at 13 to 15 three of which each begins and ends before the next.
const WINDOWS: [(u32, u32); 16] = [
    (0, 2),
    (0, 3),
    (0, 4),
    (1, 3),
    (1, 4),
    (2, 4),
    (0, 1),
    (1, 2),
    (2, 3),
    (3, 4),
    (0, 7),
    (1, 6),
    (2, 5),
    (0, 4),
    (1, 6),
    (3, 7),
];

// The release ticks of the frames 0 to 7 with the period 1/1, and of the frames 0 to 4 with 3/2 and with 5/4: a release waits for the end of its frame.
const RELEASES: [[u32; 8]; 3] = [
    [1, 2, 3, 4, 5, 6, 7, 8],
    [2, 3, 5, 6, 8, 0, 0, 0],
    [2, 3, 4, 5, 7, 0, 0, 0],
];

// The deadline ticks of these frames.
const DEADLINES: [[u32; 8]; 3] = [
    [0, 1, 2, 3, 4, 5, 6, 7],
    [0, 1, 3, 4, 6, 0, 0, 0],
    [0, 1, 2, 3, 5, 0, 0, 0],
];

// The release tick of a frame in a row of ticks.
pub fn release_tick(row: usize, frame: u32) -> u32 {
    RELEASES[row % 3][(frame % 8) as usize]
}

// The deadline tick of a frame in a row of ticks.
pub fn deadline_tick(row: usize, frame: u32) -> u32 {
    DEADLINES[row % 3][(frame % 8) as usize]
}

// The ticks of a task's window: none where the deadline is not after the release.
pub fn window_ticks(task: Task, row: usize) -> u32 {
    let release = release_tick(row, task.release);
    let deadline = deadline_tick(row, task.deadline);
    deadline.saturating_sub(release)
}

// A tick is in a task's window.
pub fn has_tick(task: Task, row: usize, tick: u32) -> bool {
    release_tick(row, task.release) <= tick && tick < deadline_tick(row, task.deadline)
}

// A task with the window at a place of the windows.
fn task(window: u32, mandatory: u32, optional: u32) -> Task {
    let (release, deadline) = WINDOWS[(window % 16) as usize];
    Task {
        release,
        deadline,
        mandatory,
        optional,
    }
}

// The windows of a family are within frames 0 to 4: it has so few ticks that all runnings of its tables can be tried.
pub fn has_few_ticks(family: Family) -> bool {
    family.first == 0
}

// The tasks of the table at an index, which has a digit for each task: its window, its mandatory ticks and its optional ticks. The places beyond the count
// are 0.
pub fn tasks_of(family: Family, index: u32) -> [Task; PLACES] {
    let windows = family.more % 10 + 1;
    let lengths = family.optional % 4 + 1;
    let mut tasks = [NO_TASK; PLACES];
    let mut rest = index;
    for place in tasks.iter_mut().take(family.count) {
        let window = family.first.wrapping_add(rest / lengths / 2 % windows);
        *place = task(window, rest / lengths % 2, rest % lengths);
        rest = rest / lengths / 2 / windows;
    }
    tasks
}
