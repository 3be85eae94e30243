// Tables, printed and compared.
use base::MAX_TASKS;
use table::{NO_TASK, Refusal, Table, Task};

// Prints the number and the place of what reading answers.
pub fn show_answer(read: Result<Table, Refusal>) {
    let (number, place) = match read {
        Ok(_) => (0, 0),
        Err(refusal) => (refusal.number(), refusal.place()),
    };
    cases::show(b" # #", &[u64::from(number), place as u64]);
}

// Prints a task.
fn show_task(position: usize, task: Task) {
    cases::show(
        b"  task #: # # # #\n",
        &[
            position as u64,
            u64::from(task.release),
            u64::from(task.deadline),
            u64::from(task.mandatory),
            u64::from(task.optional),
        ],
    );
}

// The places of a table's tasks, and those beyond them.
fn parts(table: &Table) -> (&[Task], &[Task]) {
    table.tasks.split_at((table.count as usize).min(MAX_TASKS))
}

// Prints the tasks up to the count, one to a line.
fn show_tasks(table: Table) {
    for (k, task) in parts(&table).0.iter().enumerate() {
        show_task(k, *task);
    }
}

// Prints a table: its header, its tasks, and whether the places beyond them are 0.
pub fn show(table: Table) {
    cases::show(
        b"  count # p # q #\n",
        &[
            u64::from(table.count),
            u64::from(table.p),
            u64::from(table.q),
        ],
    );
    show_tasks(table);
    if parts(&table).1.iter().all(|task| *task == NO_TASK) {
        cases::text(b"  places beyond: 0\n");
    } else {
        cases::text(b"  places beyond: not 0\n");
    }
}

// Prints a table's tasks, and whether it is 0 throughout.
pub fn show_none(table: Table) {
    show_tasks(table);
    if table == Table::none() {
        cases::text(b" table 0\n");
    } else {
        cases::text(b" table not 0\n");
    }
}

// Two tables are the same: count, p, q and the tasks up to the count agree.
fn same(a: Table, b: Table) -> bool {
    a.count == b.count && a.p == b.p && a.q == b.q && parts(&a).0 == parts(&b).0
}

// Prints whether two tables are the same.
pub fn show_same(a: Table, b: Table) {
    if same(a, b) {
        cases::text(b" same\n");
    } else {
        cases::text(b" not the same\n");
    }
}
