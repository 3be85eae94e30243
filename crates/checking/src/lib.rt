// The check of a run list: what the busy count and every query refuse of it, before they look at anything else. The list is lent as one, or in columns, as a
// planner writes it, of which the check reads the starts and the ends.
#![tactic(auto)]

ghost use Rattle.std.specs.Prelude.{◌≡◌, List, ℕ, length, ltb, not};
ghost use Rattle.schedule.specs.Runs.{runs_of};
ghost use Rattle.schedule.specs.RunCheck.{first_out_of_order, check_answer};
ghost use Rattle.checking.specs.SomeOutOfOrder.{some_out_of_order};
ghost use Rattle.base.specs.Tests.{or};

use schedule::{Run, RunsRefusal};

// A run is out of order: its start is not below its end, or lies before the previous end.
fn is_out_of_order(previous: u32, run: Run) -> bool
    ensures { result ≡ or (not (ltb run.start run.end)) (ltb run.start previous) }
{
    (run.end <= run.start) | (run.start < previous)
}

// The index of the first run whose start is not below its end or lies before the previous end, and the number of runs where there is none.
fn first_out_of_order(runs: &[Run]) -> usize
    ensures { result ≡ first_out_of_order runs.now }
{
    let mut previous: u32 = 0;
    for (i, run) in runs.iter().enumerate() {
        if is_out_of_order(previous, *run) {
            return i;
        }
        previous = run.end;
    }
    runs.len()
}

// Some run is out of order. All are looked at, without a branch, so that the compiler tests several runs at a time: most lists have none.
fn some_out_of_order(runs: &[Run]) -> bool
    ensures { result ≡ some_out_of_order runs.now }
{
    let mut found = false;
    let mut previous: u32 = 0;
    for run in runs {
        found |= is_out_of_order(previous, *run);
        previous = run.end;
    }
    found
}

// The check of a run list: 13, then 15.
pub fn check(runs: &[Run]) -> Result<(), RunsRefusal>
    ensures { result ≡ check_answer runs.now }
{
    if schedule::too_many(runs.len()) {
        return Err(RunsRefusal::TooMany);
    }
    if some_out_of_order(runs) {
        return Err(RunsRefusal::OutOfOrder(first_out_of_order(runs)));
    }
    Ok(())
}

// The same index of runs that stand in columns. Their tasks play no part in it.
fn first_of_columns(starts: &[u32], ends: &[u32]) -> usize
    requires { length starts.now ≡ length ends.now }
    ensures { (tasks : List ℕ) → result ≡ first_out_of_order (runs_of starts.now ends.now tasks) }
{
    let mut previous: u32 = 0;
    for (i, start) in starts.iter().enumerate() {
        let run = Run {
            start: *start,
            end: ends[i],
            task: 0,
        };
        if is_out_of_order(previous, run) {
            return i;
        }
        previous = run.end;
    }
    starts.len()
}

// Some run that stands in columns is out of order. All are looked at, without a branch, as in a list.
fn some_of_columns(starts: &[u32], ends: &[u32]) -> bool
    requires { length starts.now ≡ length ends.now }
    ensures { (tasks : List ℕ) → result ≡ some_out_of_order (runs_of starts.now ends.now tasks) }
{
    let mut found = false;
    let mut previous: u32 = 0;
    for (i, start) in starts.iter().enumerate() {
        let run = Run {
            start: *start,
            end: ends[i],
            task: 0,
        };
        found |= is_out_of_order(previous, run);
        previous = run.end;
    }
    found
}

// The check of runs that stand in columns of one length: the same answer, whatever their tasks are. Nothing is copied.
pub fn check_columns(starts: &[u32], ends: &[u32]) -> Result<(), RunsRefusal>
    requires { length starts.now ≡ length ends.now }
    ensures { (tasks : List ℕ) → result ≡ check_answer (runs_of starts.now ends.now tasks) }
{
    if schedule::too_many(starts.len()) {
        Err(RunsRefusal::TooMany)
    } else if some_of_columns(starts, ends) {
        Err(RunsRefusal::OutOfOrder(first_of_columns(starts, ends)))
    } else {
        Ok(())
    }
}
