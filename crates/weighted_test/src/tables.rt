// Weighted tables, printed.
use table::{NO_TASK, Refusal, Task};
use weighted_file::Weighted;

// Prints the number and the place of what reading answers.
pub fn show_answer(read: Result<Weighted, Refusal>) {
    let (number, place) = match read {
        Ok(_) => (0, 0),
        Err(refusal) => (refusal.number(), refusal.place()),
    };
    cases::show(b" # #", &[u64::from(number), place as u64]);
}

// Prints a task and its weight.
fn show_task(position: usize, task: Task, weight: u32) {
    cases::show(
        b"  task #: # # # # #\n",
        &[
            position as u64,
            u64::from(task.release),
            u64::from(task.deadline),
            u64::from(task.mandatory),
            u64::from(task.optional),
            u64::from(weight),
        ],
    );
}

// Prints the tasks up to the count, one to a line, and answers whether every place beyond them is 0.
fn show_tasks(weighted: Weighted) -> bool {
    let count = weighted.table.count as usize;
    let mut beyond = true;
    for (i, (task, weight)) in weighted
        .table
        .tasks
        .iter()
        .zip(&weighted.weights)
        .enumerate()
    {
        if i < count {
            show_task(i, *task, *weight);
        } else {
            beyond = beyond && *task == NO_TASK && *weight == 0;
        }
    }
    beyond
}

// Prints a weighted table: its header, its tasks, and whether the places beyond them are 0.
pub fn show(weighted: Weighted) {
    let table = weighted.table;
    cases::show(
        b"  count # p # q #\n",
        &[
            u64::from(table.count),
            u64::from(table.p),
            u64::from(table.q),
        ],
    );
    if show_tasks(weighted) {
        cases::text(b"  places beyond: 0\n");
    } else {
        cases::text(b"  places beyond: not 0\n");
    }
}

// Prints whether a weighted table is 0 throughout.
pub fn show_none(weighted: Weighted) {
    let table = weighted.table;
    if show_tasks(weighted) && table.count | table.p | table.q == 0 {
        cases::text(b" table 0\n");
    } else {
        cases::text(b" table not 0\n");
    }
}
