// The queries of runs that stand in columns of one length, as a planner writes them: what `queries` answers of the run list that the columns are. The columns
// are read where they stand, and a run is found by halving (std's `partition_point`), since the starts of a list that the check accepts rise, and so do its
// ends.
#![tactic(auto)]

ghost use Rattle.std.specs.Prelude.{◌≡◌, List, ℕ, length, slice_get};
ghost use Rattle.schedule.specs.Runs.{runs_of};
ghost use Rattle.schedule.specs.LentRuns.{OneLength, runs_before};
ghost use Rattle.schedule.specs.Queries.{run_at_tick, run_from_tick, stretch_of};

use schedule::{Run, RunsRefusal, Stretch};

// An empty stretch.
const NO_STRETCH: Stretch = Stretch { first: 0, runs: 0 };

// The run at an index of the columns, or none behind their last.
fn run_there(starts: &[u32], ends: &[u32], tasks: &[u32], i: usize) -> Option<Run>
    requires { OneLength starts ends tasks }
    ensures { result ≡ slice_get (runs_before starts ends tasks) i }
{
    if starts.len() <= i {
        return None;
    }
    Some(Run {
        start: starts[i],
        end: ends[i],
        task: tasks[i],
    })
}

// The run that holds a tick, or none: of an ordered list the first that ends after the tick, where it has begun.
pub fn run_at(
    starts: &[u32],
    ends: &[u32],
    tasks: &[u32],
    tick: u32,
) -> Result<Option<Run>, RunsRefusal>
    requires { OneLength starts ends tasks }
    ensures { result ≡ run_at_tick (runs_before starts ends tasks) tick }
{
    checking::check_columns(starts, ends)?;
    let first = ends.partition_point(|end| *end <= tick);
    Ok(run_there(starts, ends, tasks, first).filter(|run| run.start <= tick))
}

// The first run that starts at a tick or after it, or none.
pub fn run_from(
    starts: &[u32],
    ends: &[u32],
    tasks: &[u32],
    tick: u32,
) -> Result<Option<Run>, RunsRefusal>
    requires { OneLength starts ends tasks }
    ensures { result ≡ run_from_tick (runs_before starts ends tasks) tick }
{
    checking::check_columns(starts, ends)?;
    let first = starts.partition_point(|start| *start < tick);
    Ok(run_there(starts, ends, tasks, first))
}

// Where the runs stand that share a tick with the interval from `a` to `b`, whatever their tasks are: from the first that ends after `a` up to the first that
// starts at `b` or after it. The stretch is empty where the check refuses the list, and an empty stretch lies at the list's front.
pub fn stretch(starts: &[u32], ends: &[u32], a: u32, b: u32) -> Stretch
    requires { length starts.now ≡ length ends.now }
    ensures { (tasks : List ℕ) → result ≡ stretch_of (runs_of starts.now ends.now tasks) a b }
{
    if b <= a || checking::check_columns(starts, ends).is_err() {
        return NO_STRETCH;
    }
    let first = ends.partition_point(|end| *end <= a);
    let end = starts.partition_point(|start| *start < b);
    if end <= first {
        return NO_STRETCH;
    }
    Stretch {
        first,
        runs: end - first,
    }
}
