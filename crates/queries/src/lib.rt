// Queries of a run list, whoever made it (entry points): the run at a tick, the first run that starts at a tick or after it, the caller's own runs that share
// a tick with an interval, and the check that tells what the queries and the busy count refuse. A list that the check accepts is ordered, so that its starts
// rise, and so do its ends, and a run is found by halving (std's `partition_point`).
#![tactic(auto)]

ghost use Rattle.std.specs.Prelude.{◌≡◌};
ghost use Rattle.schedule.specs.LentRuns.{BeginsAt};
ghost use Rattle.schedule.specs.RunCheck.{check_answer};
ghost use Rattle.schedule.specs.Queries.{run_at_tick, run_from_tick, HoldsTick, FirstFrom, touching, stretch_of, TouchingStretch};

use schedule::{Run, RunsRefusal, Stretch};

// An empty stretch.
const NO_STRETCH: Stretch = Stretch { first: 0, runs: 0 };

// What the queries and the busy count refuse of a run list: 13, then 15.
pub fn check(runs: &[Run]) -> Result<(), RunsRefusal>
    ensures { result ≡ check_answer runs.now }
{
    checking::check(runs)
}

// The run that holds a tick, or none: of an ordered list the first that ends after the tick, where it has begun.
pub fn run_at(runs: &[Run], tick: u32) -> Result<Option<Run>, RunsRefusal>
    ensures reply { result ≡ run_at_tick runs.now tick }
    ensures holds_tick { HoldsTick runs.now tick result }
{
    check(runs)?;
    let first = runs.partition_point(|run| run.end <= tick);
    Ok(runs.get(first).copied().filter(|run| run.start <= tick))
}

// The first run that starts at a tick or after it, or none.
pub fn run_from(runs: &[Run], tick: u32) -> Result<Option<Run>, RunsRefusal>
    ensures reply { result ≡ run_from_tick runs.now tick }
    ensures first_from { FirstFrom runs.now tick result }
{
    check(runs)?;
    let first = runs.partition_point(|run| run.start < tick);
    Ok(runs.get(first).copied())
}

// Where the runs stand that share a tick with the interval from `a` to `b`: from the first that ends after `a` up to the first that starts at `b` or after
// it. The stretch is empty where the check refuses the list, and an empty stretch lies at the list's front.
pub fn stretch(runs: &[Run], a: u32, b: u32) -> Stretch
    ensures { result ≡ stretch_of runs.now a b }
{
    if b <= a || check(runs).is_err() {
        return NO_STRETCH;
    }
    let first = runs.partition_point(|run| run.end <= a);
    let end = runs.partition_point(|run| run.start < b);
    if end <= first {
        return NO_STRETCH;
    }
    Stretch {
        first,
        runs: end - first,
    }
}

// The stretch of the caller's own run list whose runs share a tick with the interval from `a` to `b`.
pub fn touching(runs: &[Run], a: u32, b: u32) -> &[Run]
    ensures runs_are { (result.now ≡ touching runs.now a b)
        × BeginsAt (stretch_of runs.now a b).first runs.entry result }
    ensures unbroken { TouchingStretch a b runs.now result.now }
{
    let Stretch { first, runs: count } = stretch(runs, a, b);
    &runs[first..first + count]
}
