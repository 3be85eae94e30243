// Judges plans, counts busy ticks and asks run lists, and prints what each call answers. The cases are the lines of the file `stdin`, of which a line that
// starts with `#` is a comment.
//
// A line of judging has the table file, the launch tick, the keep list in bytes, and the runs by their starts, ends and tasks. A line of counting has the
// runs, the interval's first tick, and the tick behind its last. A line of asking has the runs, a tick, and an interval. What is printed is the case's
// title, and the number and place of the answer; then of judging the verdict and the counts kept and discarded, of counting the ticks, and of asking the run
// at the tick, the first run that starts at it or after it, and the stretch that touches the interval.
//
// The last cases are about the comparison that this program makes itself. Such a line has runs that stand in an array, other runs, and the first index of a stretch
// of the array and how many runs it has. What is printed is that index and how many the other runs are, and `other` where they are not those of the stretch.
//
// The runs of a case stand in an array, and its first runs are lent to the entry points. They stand in three columns too, which are lent to the calls over
// columns: where one of these answers otherwise, `other in columns` is printed.
#![tactic(auto)]

ghost use Rattle.std.specs.Prelude.{◌≤◌, length};

use base::MAX_RUNS;
use schedule::{Busy, Judged, NO_RUN, Run, RunsRefusal, Stretch};

// The places of an array of runs: one more than a run list may have, so that a list of too many is lent too.
const PLACES: usize = MAX_RUNS + 1;

// Runs at the first places of an array, and in columns, and how many there are.
#[derive(Clone, Copy)]
struct Runs {
    list: [Run; PLACES],
    starts: [u32; PLACES],
    ends: [u32; PLACES],
    tasks: [u32; PLACES],
    count: usize,
}

// The runs of a case, from the field of their starts on.
fn runs_at(line: &[u8], field: usize) -> Runs
    requires { field ≤ 4 }
    ensures { result.count ≤ length result.list }
{
    let mut starts = [0u32; PLACES];
    let mut ends = [0u32; PLACES];
    let mut tasks = [0u32; PLACES];
    let count = cases::numbers(line, field, &mut starts);
    cases::numbers(line, field + 1, &mut ends);
    cases::numbers(line, field + 2, &mut tasks);
    let mut list = [NO_RUN; PLACES];
    for (i, run) in list.iter_mut().enumerate() {
        *run = Run {
            start: starts[i],
            end: ends[i],
            task: tasks[i],
        };
    }
    Runs {
        list,
        starts,
        ends,
        tasks,
        count,
    }
}

// Prints that a call over columns answers otherwise than that over the list, where it does.
fn compare_columns(same: bool) {
    if !same {
        cases::text(b" other in columns");
    }
}

// Prints the answer of judging.
fn show_verdict(reply: Judged) {
    cases::show(b" # #", &[u64::from(reply.number), reply.place as u64]);
    if reply.yes {
        cases::text(b" yes");
    } else {
        cases::text(b" no");
    }
    cases::show(
        b" # #\n",
        &[u64::from(reply.kept), u64::from(reply.discarded)],
    );
}

// A case of judging.
fn judge(line: &[u8]) {
    let mut file = [0u8; 32];
    let mut marks = [0u8; 4];
    let length = cases::file(line, 1, &mut file);
    let launch = cases::number(line, 2);
    let kept = cases::bytes(line, 3, &mut marks);
    let runs = runs_at(line, 4);
    let n = runs.count;
    let (file, marks) = (&file[..length], &marks[..kept]);
    let reply = judging::judge(file, launch, marks, &runs.list[..n]);
    let (starts, ends, tasks) = (&runs.starts[..n], &runs.ends[..n], &runs.tasks[..n]);
    compare_columns(judging::judge_columns(file, launch, marks, starts, ends, tasks) == reply);
    show_verdict(reply);
}

// Prints the answer of counting.
fn show_busy(reply: Busy) {
    cases::show(
        b" # # #\n",
        &[u64::from(reply.number), reply.place as u64, reply.ticks],
    );
}

// A case of counting.
fn count(line: &[u8]) {
    let runs = runs_at(line, 1);
    let n = runs.count;
    let a = cases::number(line, 4);
    let b = cases::number(line, 5);
    let reply = busy::busy(&runs.list[..n], a, b);
    let (starts, ends, tasks) = (&runs.starts[..n], &runs.ends[..n], &runs.tasks[..n]);
    compare_columns(busy::busy_columns(starts, ends, tasks, a, b) == reply);
    show_busy(reply);
}

// The number and the place of an answer, which are 0 where nothing is refused.
fn number_and_place(refusal: Option<RunsRefusal>) -> [u64; 2] {
    match refusal {
        Some(refusal) => [u64::from(refusal.number()), refusal.place() as u64],
        None => [0, 0],
    }
}

// Prints the answer of a query for one run: number, place, 1 or 0 for a run or none, and the run, which is 0 throughout where there is none.
fn show_found(found: Result<Option<Run>, RunsRefusal>) {
    let [number, place] = number_and_place(found.err());
    let run = found.ok().flatten();
    cases::show(b" # # #", &[number, place, u64::from(run.is_some())]);
    let run = run.unwrap_or(NO_RUN);
    cases::show(
        b" # # #",
        &[
            u64::from(run.start),
            u64::from(run.end),
            u64::from(run.task),
        ],
    );
}

// Runs are those of a stretch of others.
fn are_runs(runs: &[Run], stretch: Stretch, part: &[Run]) -> bool {
    runs.get(stretch.first..)
        .and_then(|rest| rest.get(..stretch.runs))
        .is_some_and(|there| there == part)
}

// Prints the runs that share a tick with the interval: the first index of their stretch and how many they are, and where they are not the runs of the
// stretch, that they are others.
fn show_stretch(runs: &[Run], stretch: Stretch, part: &[Run]) {
    cases::show(b" # #", &[stretch.first as u64, part.len() as u64]);
    if !are_runs(runs, stretch, part) {
        cases::text(b" other");
    }
    cases::text(b"\n");
}

// What is asked of runs in columns is answered as it is of their list.
fn asks_alike(runs: &Runs, tick: u32, a: u32, b: u32) -> bool
    requires { runs.now.count ≤ length runs.now.list }
{
    let n = runs.count;
    let list = &runs.list[..n];
    let (starts, ends, tasks) = (&runs.starts[..n], &runs.ends[..n], &runs.tasks[..n]);
    checking::check_columns(starts, ends) == queries::check(list)
        && searching::run_at(starts, ends, tasks, tick) == queries::run_at(list, tick)
        && searching::run_from(starts, ends, tasks, tick) == queries::run_from(list, tick)
        && searching::stretch(starts, ends, a, b) == queries::stretch(list, a, b)
}

// A case of asking.
fn ask(line: &[u8]) {
    let case = runs_at(line, 1);
    let runs = &case.list[..case.count];
    let tick = cases::number(line, 4);
    let a = cases::number(line, 5);
    let b = cases::number(line, 6);
    compare_columns(asks_alike(&case, tick, a, b));
    cases::show(b" # # at", &number_and_place(queries::check(runs).err()));
    show_found(queries::run_at(runs, tick));
    cases::text(b" from");
    show_found(queries::run_from(runs, tick));
    cases::text(b" touching");
    show_stretch(
        &case.list,
        queries::stretch(runs, a, b),
        queries::touching(runs, a, b),
    );
}

// A case of the comparison that this program makes itself.
fn compare(line: &[u8]) {
    let runs = runs_at(line, 1);
    let part = runs_at(line, 4);
    let stretch = Stretch {
        first: cases::number(line, 7) as usize,
        runs: cases::number(line, 8) as usize,
    };
    show_stretch(&runs.list, stretch, &part.list[..part.count]);
}

// The case on a line that starts with a given byte.
fn case(start: u8, line: &[u8]) {
    if start == b'#' {
        return;
    }
    cases::show_title(line);
    if start == b'j' {
        judge(line);
    } else if start == b'b' {
        count(line);
    } else if start == b'c' {
        compare(line);
    } else {
        ask(line);
    }
}

fn main() {
    cases::for_each_line(case);
}
