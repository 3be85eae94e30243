// The busy count of an interval (an entry point): the ticks of the interval that some run holds, added run by run over a list that the check accepts. The
// list is lent as one, or in columns, as a planner writes it.
#![tactic(auto)]

ghost use Rattle.std.specs.Prelude.{◌≡◌, ◌<◌, ◌^◌, length};
ghost use Rattle.std.specs.List.{sum_by, zip};
ghost use Rattle.schedule.specs.Runs.{run_of};
ghost use Rattle.schedule.specs.LentRuns.{OneLength, runs_before};
ghost use Rattle.schedule.specs.RunCheck.{refusal_number, refusal_place};
ghost use Rattle.schedule.specs.BusyCount.{shared, busy_reply, CountsTicks};

use schedule::{Busy, Run, RunsRefusal};

// The reply of so many ticks.
fn counted(ticks: u32) -> Busy
    ensures { result ≡ record { number = 0; place = 0; ticks = ticks } }
{
    Busy {
        number: 0,
        place: 0,
        ticks: u64::from(ticks),
    }
}

// The reply of what the check refuses.
fn refused(refusal: RunsRefusal) -> Busy
    ensures { result ≡ record { number = refusal_number refusal; place = refusal_place refusal; ticks = 0 } }
{
    Busy {
        number: refusal.number(),
        place: refusal.place(),
        ticks: 0,
    }
}

// The ticks that a run shares with the interval from `a` to `b`: from the later start to the earlier end.
fn shared_ticks(run: Run, a: u32, b: u32) -> u32
    ensures { result ≡ shared a b run }
{
    run.end.min(b).saturating_sub(run.start.max(a))
}

// The ticks that all runs share with the interval, in 32 bits, so that the compiler adds several runs at a time.
fn all_shared(runs: &[Run], a: u32, b: u32) -> u32
    requires { sum_by (shared a b) runs.now < 2 ^ 32 }
    ensures { result ≡ sum_by (shared a b) runs.now }
{
    runs.iter().map(|run| shared_ticks(*run, a, b)).sum()
}

// The busy count: a run list of any content and length and any interval get the reply of documents 01 and 02, and an accepted count is the number of ticks
// of the interval that some run holds. The sum of an accepted list is no more than the interval's ticks, so 32 bits hold it.
pub fn busy(runs: &[Run], a: u32, b: u32) -> Busy
    ensures reply { result ≡ busy_reply runs.now a b }
    ensures counts_ticks { CountsTicks runs.now a b result }
{
    match checking::check(runs) {
        Ok(()) => counted(all_shared(runs, a, b)),
        Err(refusal) => refused(refusal),
    }
}

// The ticks that all runs share with the interval, of runs that stand in columns. Their tasks play no part in it.
fn shared_of_columns(starts: &[u32], ends: &[u32], a: u32, b: u32) -> u32
    requires { sum_by (λ x. shared a b (run_of x.0 x.1 0)) (zip starts.now ends.now) < 2 ^ 32 }
    ensures { result ≡ sum_by (λ x. shared a b (run_of x.0 x.1 0)) (zip starts.now ends.now) }
{
    starts
        .iter()
        .zip(ends)
        .map(|(start, end)| {
            let run = Run {
                start: *start,
                end: *end,
                task: 0,
            };
            shared_ticks(run, a, b)
        })
        .sum()
}

// The busy count of runs that stand in three columns of one length: the reply of the run list that they are. Nothing is copied.
pub fn busy_columns(starts: &[u32], ends: &[u32], tasks: &[u32], a: u32, b: u32) -> Busy
    requires { OneLength starts ends tasks }
    ensures { result ≡ busy_reply (runs_before starts ends tasks) a b }
{
    match checking::check_columns(starts, ends) {
        Ok(()) => counted(shared_of_columns(starts, ends, a, b)),
        Err(refusal) => refused(refusal),
    }
}
