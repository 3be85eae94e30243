// Plans all tables of small sizes, and compares each plan with the search over every keep list and, where the table has few ticks, with all its runnings.
ghost use Rattle.std.specs.Prelude.{◌≤◌};

use crate::alterations::Plan;
use crate::{alterations, judges};
use base::MAX_TASKS;
use plans::Planned;
use small_tables::{EXCEEDED, Family, Kind, PLACES, Runnings};
use table::{NO_TASK, Table, Task};

// What planning a table came to: the planner's reply, the kind by whose rules it is planned, what trying all runnings came to, where they were tried, and
// whether the plan is other than the search over every keep list finds, or than the judge says yes to.
#[derive(Clone, Copy)]
struct Outcome {
    reply: Planned,
    kind: Kind,
    tried: Option<Tried>,
    search_differs: bool,
    judge_differs: bool,
}

// What trying all runnings of a table came to: how many there are, and whether the reply is other than they say.
#[derive(Clone, Copy)]
struct Tried {
    runnings: u32,
    differs: bool,
}

// The keep list of some marks by position.
fn list_of(marks: [u8; PLACES]) -> u32 {
    let [a, b, c, d] = marks.map(u32::from);
    a % 256 + 2 * (b % 256) + 4 * (c % 256) + 8 * (d % 256)
}

// A reply refuses a table by a number, at a place.
fn is_refusal(reply: Planned, number: u32, place: usize) -> bool {
    reply.number == number
        && reply.place == place
        && reply.kept == 0
        && reply.discarded == 0
        && reply.runs == 0
}

// A reply accepts a table of `count` tasks, with the counts of the best list's score, and at most 2 * count - 1 runs.
fn is_plan(reply: Planned, score: u32, count: usize) -> bool {
    reply.number == 0
        && reply.place == 0
        && reply.discarded == score / 65_536
        && reply.kept == score % 16
        && reply.runs < count % 8 * 2
}

// The reply, the marks and the runs are what the search over every keep list finds for a table of one of the kinds.
fn is_best(family: Family, tasks: [Task; PLACES], kind: Kind, plan: Plan) -> bool {
    let reply = plan.reply;
    let none = small_tables::score(tasks, family.row, kind, 0);
    if EXCEEDED <= none {
        return is_refusal(reply, 8, (none % 4) as usize);
    }
    let best = small_tables::best(tasks, family.row, kind);
    let owners = small_tables::placed(tasks, family.row, kind, best.list);
    is_plan(reply, best.score, family.count)
        && list_of(plan.marks) == best.list
        && small_tables::same_runs(
            owners,
            family.launch,
            reply.runs,
            plan.starts,
            plan.ends,
            plan.tasks,
        )
}

// The reply, the marks and the runs are as expected: 7 where the table is of neither kind, at the place `neither`.
fn is_found(
    family: Family,
    tasks: [Task; PLACES],
    kind: Kind,
    neither: Option<usize>,
    plan: Plan,
) -> bool {
    match neither {
        Some(place) => is_refusal(plan.reply, 7, place),
        None => is_best(family, tasks, kind, plan),
    }
}

// The reply is what all runnings of a table of one of the kinds say: 8 where there is none, at the first task that can't be met; else a plan that discards as
// many parts as the running that discards fewest.
fn is_reply_of(
    runnings: Runnings,
    family: Family,
    tasks: [Task; PLACES],
    kind: Kind,
    reply: Planned,
) -> bool {
    if runnings.count == 0 {
        return reply.number == 8
            && small_tables::is_first_unmet(tasks, family.row, kind, reply.place);
    }
    reply.number == 0 && reply.discarded == runnings.fewest
}

// Tries all runnings of a table, where it has few ticks and is of one of the kinds, and compares.
fn try_runnings(
    family: Family,
    tasks: [Task; PLACES],
    kind: Kind,
    neither: Option<usize>,
    reply: Planned,
) -> Option<Tried> {
    if neither.is_some() || !small_tables::has_few_ticks(family) {
        return None;
    }
    let runnings = small_tables::all_runnings(tasks, family.row);
    Some(Tried {
        runnings: runnings.count,
        differs: !is_reply_of(runnings, family, tasks, kind, reply),
    })
}

// The judge says yes to a plan of a family's table, with the plan's counts.
fn is_judged(family: Family, file: &[u8], plan: Plan) -> bool {
    judges::agrees(
        plan.reply,
        file,
        family.launch,
        family.count % 5,
        &plan.marks,
        &plan.starts,
        &plan.ends,
        &plan.tasks,
    )
}

// Plans a file at the family's launch tick, alters a part of the plan, 0 for none, and compares.
fn compared(family: Family, tasks: [Task; PLACES], file: &[u8], part: u32) -> Outcome {
    let made = alterations::planned(file, family.launch);
    let plan = alterations::altered(made, part);
    let kind = small_tables::kind_of(tasks, family.count);
    let neither = small_tables::first_of_neither(tasks, family.count);
    Outcome {
        reply: made.reply,
        kind,
        tried: try_runnings(family, tasks, kind, neither, plan.reply),
        search_differs: !is_found(family, tasks, kind, neither, plan),
        judge_differs: !is_judged(family, file, plan),
    }
}

// The table value of some tasks.
fn table_of(family: Family, tasks: [Task; PLACES]) -> Table
    ensures { result.count ≤ 4 }
{
    let mut places = [NO_TASK; MAX_TASKS];
    places[..PLACES].copy_from_slice(&tasks);
    Table {
        count: (family.count % 5) as u32,
        p: family.p,
        q: family.q,
        tasks: places,
    }
}

// Puts the file of a table into a list without the refusals of writing, since the table may be of neither kind, and answers its length.
fn put_file(table: Table, list: &mut [u8]) -> usize
    requires { table.count ≤ 4 }
{
    let length = table::file_length(table.count);
    if length <= list.len() {
        writing::put_table(table, list);
    }
    length
}

// Plans the table at an index of a family, and compares.
fn try_table(family: Family, index: u32, part: u32) -> Outcome {
    let tasks = small_tables::tasks_of(family, index);
    let mut file = [0u8; 40];
    let length = put_file(table_of(family, tasks), &mut file) % 41;
    compared(family, tasks, &file[0..length], part)
}

// Counts over tables.
#[derive(Clone, Copy)]
struct Counts {
    // The planner's replies by their number.
    replies: [u64; 16],
    // The sums of kept, discarded and runs.
    kept: u64,
    discarded: u64,
    runs: u64,
    // The planned tables that are similar and not nested.
    similar: u64,
    // The tables that were tried on all runnings, and the runnings.
    tried: u64,
    runnings: u64,
    // The tables whose plan is not what the search over every keep list finds, whose reply is not what all runnings say, and to whose plan the judge doesn't
    // say yes.
    search_differs: u64,
    runnings_differ: u64,
    judge_differs: u64,
    // The index of the first such table.
    first: Option<u32>,
}

impl Counts {
    // The counts over no tables.
    fn new() -> Counts {
        Counts {
            replies: [0; 16],
            kept: 0,
            discarded: 0,
            runs: 0,
            similar: 0,
            tried: 0,
            runnings: 0,
            search_differs: 0,
            runnings_differ: 0,
            judge_differs: 0,
            first: None,
        }
    }

    // The counts with a planner's reply more.
    fn with_reply(mut self, reply: Planned, kind: Kind) -> Counts {
        let number = (reply.number % 16) as usize;
        let similar = reply.number == 0 && kind == Kind::Similar;
        self.replies[number] = self.replies[number].wrapping_add(1);
        self.kept = self.kept.wrapping_add(u64::from(reply.kept));
        self.discarded = self.discarded.wrapping_add(u64::from(reply.discarded));
        self.runs = self.runs.wrapping_add(reply.runs as u64);
        self.similar = self.similar.wrapping_add(u64::from(similar));
        self
    }

    // The counts with the table at an index more.
    fn with_table(self, outcome: Outcome, index: u32) -> Counts {
        let mut counts = self.with_reply(outcome.reply, outcome.kind);
        let mut differs = outcome.search_differs || outcome.judge_differs;
        if let Some(tried) = outcome.tried {
            differs = differs || tried.differs;
            counts.tried = counts.tried.wrapping_add(1);
            counts.runnings = counts.runnings.wrapping_add(u64::from(tried.runnings));
            counts.runnings_differ = counts
                .runnings_differ
                .wrapping_add(u64::from(tried.differs));
        }
        counts.search_differs = counts
            .search_differs
            .wrapping_add(u64::from(outcome.search_differs));
        counts.judge_differs = counts
            .judge_differs
            .wrapping_add(u64::from(outcome.judge_differs));
        if differs && counts.first.is_none() {
            counts.first = Some(index);
        }
        counts
    }
}

// Plans the first `tables` tables of a family, each plan with a part altered, and counts.
fn try_all(family: Family, tables: u32, part: u32) -> Counts {
    let mut counts = Counts::new();
    for index in 0..tables {
        counts = counts.with_table(try_table(family, index, part), index);
    }
    counts
}

// Prints the launch tick and the counts over so many tables; of the first table that differs one more than its index, and 0 where there is none.
fn show(launch: u32, tables: u32, counts: Counts) {
    let first = match counts.first {
        Some(index) => u64::from(index) + 1,
        None => 0,
    };
    cases::show(
        b" # # # # # # # # #; runnings # #; differ # # # #\n",
        &[
            u64::from(launch),
            u64::from(tables),
            counts.replies[0],
            counts.similar,
            counts.replies[7],
            counts.replies[8],
            counts.kept,
            counts.discarded,
            counts.runs,
            counts.tried,
            counts.runnings,
            counts.search_differs,
            counts.runnings_differ,
            counts.judge_differs,
            first,
        ],
    );
}

// A family: its tasks, p, q, the row of its ticks, the first of its windows and how many more there are, the most optional ticks, the number of its
// tables, and the launch tick; and the part of each plan that is altered, if one is. Plans all its tables and prints the counts.
pub fn family(line: &[u8]) {
    let mut numbers = [0u32; 10];
    cases::numbers(line, 1, &mut numbers);
    let family = Family {
        count: (numbers[0] % 5) as usize,
        p: numbers[1],
        q: numbers[2],
        row: (numbers[3] % 3) as usize,
        first: numbers[4],
        more: numbers[5],
        optional: numbers[6],
        launch: numbers[8],
    };
    let tables = numbers[7];
    cases::show_title(line);
    show(family.launch, tables, try_all(family, tables, numbers[9]));
}
