// The kinds of small tables, judged in frames, and the place of refusal 7.
use crate::small::PLACES;
use table::Task;

// The kinds of tables.
#[derive(Clone, Copy, PartialEq, Eq)]
pub enum Kind {
    Nested,
    Similar,
}

// Neither of two windows contains the other: one begins and ends before the other does.
fn cross(a: Task, b: Task) -> bool {
    a.release < b.release && a.deadline < b.deadline
        || b.release < a.release && b.deadline < a.deadline
}

// Of two tasks the one released earlier has the later deadline.
fn enclose(a: Task, b: Task) -> bool {
    a.release < b.release && b.deadline < a.deadline
        || b.release < a.release && a.deadline < b.deadline
}

// Two tasks can't both be in a table of a kind: of a nested one no two windows cross, and of a similar one no task that is released earlier has the later
// deadline.
fn exclude(kind: Kind, a: Task, b: Task) -> bool {
    match kind {
        Kind::Nested => cross(a, b),
        Kind::Similar => enclose(a, b),
    }
}

// The tasks are of a kind.
fn is_of_kind(tasks: &[Task], kind: Kind) -> bool {
    tasks
        .iter()
        .all(|a| tasks.iter().all(|b| !exclude(kind, *a, *b)))
}

// The tasks up to a number of them, of all that stand in the places.
fn first_tasks(tasks: &[Task; PLACES], count: usize) -> &[Task] {
    &tasks[..count.min(PLACES)]
}

// The kind by whose rules the tasks below `count` are planned: tables of both kinds are nested.
pub fn kind_of(tasks: [Task; PLACES], count: usize) -> Kind {
    if is_of_kind(first_tasks(&tasks, count), Kind::Nested) {
        return Kind::Nested;
    }
    Kind::Similar
}

// The lowest position below `count` such that the table cut after it is of neither kind, if there is one.
pub fn first_of_neither(tasks: [Task; PLACES], count: usize) -> Option<usize> {
    (0..count.min(PLACES)).find(|position| {
        let cut = first_tasks(&tasks, *position + 1);
        !is_of_kind(cut, Kind::Nested) && !is_of_kind(cut, Kind::Similar)
    })
}
