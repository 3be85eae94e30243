// Plans of small tables, and plans with one part altered, of which the comparisons must say that they differ.
use plans::Planned;
use small_tables::{PLACES, RUNS};

// A plan as the planner gives it: the reply, and the lent lists.
#[derive(Clone, Copy)]
pub struct Plan {
    pub reply: Planned,
    pub marks: [u8; PLACES],
    pub starts: [u32; RUNS],
    pub ends: [u32; RUNS],
    pub tasks: [u32; RUNS],
}

// Plans a file at a launch tick into lists of 4 marks and 7 runs.
pub fn planned(file: &[u8], launch: u32) -> Plan {
    let mut marks = [0u8; PLACES];
    let mut starts = [0u32; RUNS];
    let mut ends = [0u32; RUNS];
    let mut tasks = [0u32; RUNS];
    let reply = planner::plan(file, launch, &mut marks, &mut starts, &mut ends, &mut tasks);
    Plan {
        reply,
        marks,
        starts,
        ends,
        tasks,
    }
}

// A reply with a part altered: 1 for its number, 2 for its place, 3 for kept, 4 for discarded and 5 for runs, each of which is then one more.
fn altered_reply(reply: Planned, part: u32) -> Planned {
    let mut altered = reply;
    match part {
        1 => {
            altered.number = reply.number.wrapping_add(1);
        }
        2 => {
            altered.place = reply.place % 8 + 1;
        }
        3 => {
            altered.kept = reply.kept.wrapping_add(1);
        }
        4 => {
            altered.discarded = reply.discarded.wrapping_add(1);
        }
        5 => {
            altered.runs = reply.runs % 8 + 1;
        }
        _ => {}
    }
    altered
}

// The run that is altered: the first for a part up to 9, and above that the last.
fn altered_run(runs: usize, part: u32) -> usize {
    if part <= 9 {
        return 0;
    }
    runs.saturating_sub(1)
}

// A plan with a part altered: 1 to 5 for the parts of the reply, 6 for the mark of task 0, which is turned; 7, 8 and 9 for the start, the end and the task of
// the first run, and 10, 11 and 12 for those of the last run, each of which is then one more.
pub fn altered(plan: Plan, part: u32) -> Plan {
    let run = altered_run(plan.reply.runs, part) % RUNS;
    let mut altered = plan;
    altered.reply = altered_reply(plan.reply, part);
    match part {
        6 => {
            altered.marks[0] = 1 - plan.marks[0] % 2;
        }
        7 | 10 => {
            altered.starts[run] = plan.starts[run].wrapping_add(1);
        }
        8 | 11 => {
            altered.ends[run] = plan.ends[run].wrapping_add(1);
        }
        9 | 12 => {
            altered.tasks[run] = plan.tasks[run].wrapping_add(1);
        }
        _ => {}
    }
    altered
}
