// The runnings of small tables within frames 0 to 4, all of them, from document 01's definition: 'A running of a table gives each tick to one task or to
// none; a task gets ticks of its window only, as many as its mandatory ticks or as its mandatory and optional ticks together.' Nothing of kinds, orders
// and placing is known here.
//
// Every way to give the ticks to the tasks is a number, with a digit in the base 5 for each tick: 0 for none, and k + 1 for the task at position k.
use crate::small;
use crate::small::PLACES;
use table::Task;

// What a task gets with a tick outside its window: more than any work.
const OUTSIDE: u32 = 16;

// The pairs of a tick and a task.
const GAINS: usize = 16;

// More than any number of discarded parts: a way to give away the ticks that is no running, or a table that has none.
const NO_RUNNING: u32 = 16;

// The n-th tick from the first that a window can have, the release tick of frame 0, is in a task's window.
fn holds_nth(task: Task, row: usize, n: u32) -> bool {
    small::has_tick(task, row, small::release_tick(row, 0).wrapping_add(n))
}

// How many ways there are to give away the ticks from the first to the deadline of frame 4: four ticks with the period 3/2, and three with 1/1 and 5/4.
fn ways(row: usize) -> u32 {
    if row == 1 {
        return 625;
    }
    125
}

// What each task gets with each of four ticks, the four tasks of a tick one after the other: 1 for a tick of its window, and else OUTSIDE.
fn gains(tasks: [Task; PLACES], row: usize) -> [u32; GAINS] {
    let mut gains = [OUTSIDE; GAINS];
    for (i, gain) in gains.iter_mut().enumerate() {
        if holds_nth(tasks[i % 4], row, (i / 4) as u32) {
            *gain = 1;
        }
    }
    gains
}

// What each task gets in all.
fn shares(gains: [u32; GAINS], way: u32) -> [u32; PLACES] {
    let mut shares = [0u32; PLACES];
    let mut rest = way;
    for tick in 0..4 {
        let digit = (rest % 5) as usize;
        if digit != 0 {
            shares[digit - 1] = shares[digit - 1].wrapping_add(gains[tick * 4 + digit - 1]);
        }
        rest = rest / 5;
    }
    shares
}

// What a task that gets so many ticks adds to the parts discarded: 1 where these are its mandatory ticks alone, 0 where they are all its ticks, also where
// its optional part has 0.
fn discards(task: Task, ticks: u32) -> u32 {
    if ticks == task.mandatory.wrapping_add(task.optional) {
        return 0;
    }
    if ticks == task.mandatory {
        return 1;
    }
    NO_RUNNING
}

// The parts that a way to give away the ticks discards, and NO_RUNNING or more where it is no running.
fn discarded(tasks: [Task; PLACES], gains: [u32; GAINS], way: u32) -> u32 {
    let shares = shares(gains, way);
    let a = discards(tasks[0], shares[0]);
    let b = discards(tasks[1], shares[1]);
    let c = discards(tasks[2], shares[2]);
    let d = discards(tasks[3], shares[3]);
    a.wrapping_add(b).wrapping_add(c.wrapping_add(d))
}

// All runnings of a table: how many there are, and the fewest parts that one of them discards, which is NO_RUNNING where there are none.
#[derive(Clone, Copy)]
pub struct Runnings {
    pub count: u32,
    pub fewest: u32,
}

// Tries every way to give away the ticks of a table.
pub fn all_runnings(tasks: [Task; PLACES], row: usize) -> Runnings {
    let gains = gains(tasks, row);
    let ways = ways(row);
    let mut count: u32 = 0;
    let mut fewest = NO_RUNNING;
    for way in 0..ways {
        let discarded = discarded(tasks, gains, way);
        if discarded < NO_RUNNING {
            count = count.wrapping_add(1);
        }
        fewest = fewest.min(discarded);
    }
    Runnings { count, fewest }
}
