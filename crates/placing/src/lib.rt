// The placing of nested jobs: which ticks each task gets, and the runs that they make. Jobs stand outermost first. The runs found so far stand by
// start in three columns, and each job is filled into the gaps between them from its deadline downwards.
#![tactic(auto)]

ghost use Rattle.std.specs.Prelude.{◌≡◌, true, ◌+◌, ◌-◌, ◌≤◌, ◌<◌, min, length};
ghost use Rattle.base.specs.Limits.{max_tasks, max_plan_runs};
ghost use Rattle.schedule.specs.Jobs.{work_with};
ghost use Rattle.schedule.specs.JobArrays.{Bounded, AllBounded};
ghost use Rattle.choice.specs.Choice.{fits};
ghost use Rattle.placement.specs.Chains.{Chain};
ghost use Rattle.placement.specs.Placing.{runs_placed};
ghost use Rattle.placement.specs.GapFilling.{run_below};
ghost use Rattle.placement.specs.HeldRuns.{runs_down, RunInserted, Held, job_filled, FilledAbove, Room, RunsRoom, RunsPut};
ghost use Rattle.placement.specs.HeldRuns.{places_now, places_before, places_after};

use base::{MAX_PLAN_RUNS, MAX_TASKS};
use placement::Span;
use schedule::Job;

// The places of a column: each task may put one run in front of the others, and from the first of them on there are at most as many as a plan
// may have.
const COLUMN_PLACES: usize = MAX_TASKS + MAX_PLAN_RUNS;

// Where the runs stand before the first job: there are none, and below their first place there is one for each task.
const NO_RUNS: Span = Span {
    first: MAX_TASKS,
    closed: MAX_TASKS,
    end: MAX_TASKS,
};

// What filling a job into the gaps above runs leaves: the place after the last run, and the ticks of work that are still to be placed.
#[derive(Clone, Copy)]
struct GapsFilled {
    pub end: usize,
    pub left: u32,
}

// The work of a job: its mandatory ticks, plus its optional ticks where kept.
pub fn work_with(job: Job, keep: bool) -> u32
    requires { Bounded job }
    ensures { result ≡ work_with job keep }
{
    if keep {
        job.mandatory + job.optional
    } else {
        job.mandatory
    }
}

// How many of `work` ticks go into the gap from `bottom`, included, to `top`, excluded: as many as it holds. A gap may be empty or reversed.
fn gap_ticks(bottom: u32, top: u32, work: u32) -> u32
    ensures { result ≡ min work (top - bottom) }
{
    work.min(top.saturating_sub(bottom))
}

// The run of a task that has the last n ticks below `top`, put in at place `at` of columns whose runs end at place `end`.
fn insert_run(
    starts: &mut [u32],
    ends: &mut [u32],
    tasks: &mut [u32],
    at: usize,
    end: usize,
    top: u32,
    n: u32,
    task: u32,
)
    requires n_le_top { n ≤ top }
    requires at_le_end { at ≤ end }
    requires end_in_bounds { (end < length starts.old) × (end < length ends.old) × (end < length tasks.old) }
    ensures { RunInserted at end (run_below task top n) (places_before starts ends tasks) (places_after starts ends tasks) }
{
    columns::insert(starts, at, end, top - n);
    columns::insert(ends, at, end, top);
    columns::insert(tasks, at, end, task);
}

// One job filled into the gaps above runs, from its deadline downwards, each gap from its top, as long as work is left. The runs below place
// `closed` are not looked at: there is no gap above them.
fn fill_gaps(
    starts: &mut [u32],
    ends: &mut [u32],
    tasks: &mut [u32],
    span: Span,
    job: Job,
    work: u32,
) -> GapsFilled
    requires first_le_max_tasks { span.first ≤ max_tasks }
    requires room { Room starts.old ends.old tasks.old }
    requires held { Held span (places_now starts ends tasks) }
    requires tasks_len_bound { length (job_filled span job work (places_now starts ends tasks)) ≤ max_plan_runs }
    ensures { FilledAbove span job work (places_before starts ends tasks) result.end result.left (places_after starts ends tasks) }
{
    let mut end = span.end;
    let mut top = job.deadline;
    let mut left = work;
    for k in (span.closed..span.end).rev() {
        if left == 0 {
            return GapsFilled { end, left };
        }
        let bottom = ends[k];
        let n = gap_ticks(bottom, top, left);
        if 0 < n {
            insert_run(starts, ends, tasks, k + 1, end, top, n, job.position);
            end += 1;
        }
        top = starts[k];
        left -= n;
    }
    GapsFilled { end, left }
}

// One job filled into all gaps: those above runs, and with the work that is left the one below all runs. Where that one gets ticks, every gap
// above is full, and so there is none between the runs.
fn fill_job(
    starts: &mut [u32],
    ends: &mut [u32],
    tasks: &mut [u32],
    span: Span,
    job: Job,
    work: u32,
) -> Span
    requires first_nonzero { (0 < span.first) × (span.first ≤ max_tasks) }
    requires room { Room starts.old ends.old tasks.old }
    requires held { Held span (places_now starts ends tasks) }
    requires tasks_len_bound { length (job_filled span job work (places_now starts ends tasks)) ≤ max_plan_runs }
    ensures first_le_first { (result.first ≤ span.first) × (span.first ≤ result.first + 1) }
    ensures held_2 { Held result (places_after starts ends tasks) }
    ensures end_value { runs_down (places_after starts ends tasks) result.first result.end
        ≡ job_filled span job work (places_before starts ends tasks) }
{
    let filled = fill_gaps(starts, ends, tasks, span, job, work);
    let end = filled.end;
    let first = span.first;
    let closed = span.closed;
    let top = if first < end {
        starts[first]
    } else {
        job.deadline
    };
    let n = gap_ticks(job.release, top, filled.left);
    if n == 0 {
        return Span { first, closed, end };
    }
    let front = first - 1;
    starts[front] = top - n;
    ends[front] = top;
    tasks[front] = job.position;
    Span {
        first: front,
        closed: end - 1,
        end,
    }
}

// The runs of jobs that stand outermost first, under their keep list, put by start into three lent columns; what stands beyond them is kept. The number of
// runs is returned.
pub fn place(
    jobs: &[Job],
    keeps: &[bool],
    starts: &mut [u32],
    ends: &mut [u32],
    tasks: &mut [u32],
) -> usize
    requires count_le_max_tasks { length jobs.now ≤ max_tasks }
    requires all_bounded { AllBounded jobs.now }
    requires chain { Chain jobs.now }
    requires keeps_value { fits jobs.now keeps.now ≡ true }
    requires runs_room { RunsRoom (length jobs.now) starts.old ends.old tasks.old }
    ensures value { result ≡ length (runs_placed jobs.now keeps.now) }
    ensures runs_put { RunsPut (runs_placed jobs.now keeps.now) starts ends tasks }
{
    let mut held_starts = [0u32; COLUMN_PLACES];
    let mut held_ends = [0u32; COLUMN_PLACES];
    let mut held_tasks = [0u32; COLUMN_PLACES];
    let mut span = NO_RUNS;
    for i in (0..jobs.len()).rev() {
        let job = jobs[i];
        let work = work_with(job, keeps[i]);
        span = fill_job(
            &mut held_starts,
            &mut held_ends,
            &mut held_tasks,
            span,
            job,
            work,
        );
    }
    let runs = span.end - span.first;
    columns::copy(&held_starts, span.first, runs, starts);
    columns::copy(&held_ends, span.first, runs, ends);
    columns::copy(&held_tasks, span.first, runs, tasks);
    runs
}
