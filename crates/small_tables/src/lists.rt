// Keep lists of small tables: a number below 16, of which bit k is the mark of the task at position k.
use crate::small::PLACES;
use table::Task;

// What is added to the position of a task whose work can't be met: more than any score.
pub const EXCEEDED: u32 = 1_048_576;

// The position is marked in a keep list.
pub fn is_marked(list: u32, position: usize) -> bool {
    match position {
        0 => list % 2 == 1,
        1 => list / 2 % 2 == 1,
        2 => list / 4 % 2 == 1,
        _ => list / 8 % 2 == 1,
    }
}

// The work of a task that is marked or not.
pub fn work(task: Task, marked: bool) -> u32 {
    if marked {
        return task.mandatory.wrapping_add(task.optional);
    }
    task.mandatory
}

// The work of every task under a keep list.
pub fn works(tasks: [Task; PLACES], list: u32) -> [u32; PLACES] {
    let a = work(tasks[0], is_marked(list, 0));
    let b = work(tasks[1], is_marked(list, 1));
    let c = work(tasks[2], is_marked(list, 2));
    let d = work(tasks[3], is_marked(list, 3));
    [a, b, c, d]
}

// What one task adds to the score of a list, of which the lowest is best: 65,536 for an optional part discarded, and 1 for one kept, a part of 0 ticks
// neither. A task that is not marked adds 16 times its weight, which grows in the order of the table's kind, so that of two lists the one that keeps at
// the last task where they differ is better. Where no task stands nothing is added.
pub fn part(task: Task, marked: bool, weight: u32) -> u32 {
    if marked {
        if task.optional == 0 {
            return 0;
        }
        return 1;
    }
    if task.deadline == 0 {
        return 0;
    }
    if task.optional == 0 {
        return weight % 16 * 16;
    }
    65_536 + weight % 16 * 16
}

// What one task adds to the score of a list of nested tasks for the optional ticks kept: 256 for each.
pub fn ticks_kept(task: Task, marked: bool) -> u32 {
    if marked {
        return task.optional % 16 * 256;
    }
    0
}
