// Jobs (the tasks of a table in ticks), runs, and the replies and answers of the calls that look at finished plans. The definitions of a running, of run
// lists and of what these calls answer stand in specs/.
#![tactic(auto)]

ghost use Rattle.std.specs.Prelude.{◌≡◌, false, ℕ, ◌≤◌, ◌<◌, ltb, length, take};
ghost use Rattle.base.specs.Limits.{max_tasks, max_runs, last_frame, max_launch, bad_period};
ghost use Rattle.table.specs.Tables.{task_at};
ghost use Rattle.schedule.specs.LentRuns.{OneLength, runs_before};
ghost use Rattle.schedule.specs.RunCheck.{refusal_number, refusal_place};
ghost use Rattle.schedule.specs.Jobs.{job_of, window_ticks};
ghost use Rattle.schedule.specs.JobArrays.{job_array};

use base::{MAX_RUNS, MAX_TASKS};
use table::{Table, Task};

// A task in ticks: its position, its window from the release tick, included, to the deadline tick, excluded, and its two lengths.
#[derive(Clone, Copy, Debug, PartialEq, Eq)]
pub struct Job {
    pub position: u32,
    pub release: u32,
    pub deadline: u32,
    pub mandatory: u32,
    pub optional: u32,
}

// A job of which every number is 0: what stands at a place that holds no job.
pub const NO_JOB: Job = Job {
    position: 0,
    release: 0,
    deadline: 0,
    mandatory: 0,
    optional: 0,
};

// A run: its first tick, the tick after its last, and the task's position. The judge, the busy count and the queries are lent a list of them; a
// planner writes them as three columns.
#[repr(C)]
#[derive(Clone, Copy, Debug, PartialEq, Eq)]
pub struct Run {
    pub start: u32,
    pub end: u32,
    pub task: u32,
}

// A run of which every number is 0.
pub const NO_RUN: Run = Run {
    start: 0,
    end: 0,
    task: 0,
};

// The reply of judging: the refusal's number and place; or 0, the verdict, and with a yes the counts kept and discarded.
#[repr(C)]
#[derive(Clone, Copy, Debug, PartialEq, Eq)]
pub struct Judged {
    pub number: u32,
    pub place: usize,
    pub yes: bool,
    pub kept: u32,
    pub discarded: u32,
}

// The reply of the busy count: the refusal's number and place, or 0 and the ticks of the interval that some run holds.
#[repr(C)]
#[derive(Clone, Copy, Debug, PartialEq, Eq)]
pub struct Busy {
    pub number: u32,
    pub place: usize,
    pub ticks: u64,
}

// Why the check refuses a run list, before anything is counted in it or asked of it: it has too many runs, or the run at an index is the first that is out of
// order.
#[derive(Clone, Copy, Debug, PartialEq, Eq)]
pub enum RunsRefusal {
    TooMany,
    OutOfOrder(usize),
}

impl RunsRefusal {
    // The number of the refusal: 13 or 15.
    pub fn number(self) -> u32
        ensures { result ≡ refusal_number self }
    {
        match self {
            RunsRefusal::TooMany => 13,
            RunsRefusal::OutOfOrder(_) => 15,
        }
    }

    // The place of the refusal: of 15 the index.
    pub fn place(self) -> usize
        ensures { result ≡ refusal_place self }
    {
        match self {
            RunsRefusal::TooMany => 0,
            RunsRefusal::OutOfOrder(index) => index,
        }
    }
}

// A stretch of a run list: its first index and how many runs. Of an empty one both are 0.
#[repr(C)]
#[derive(Clone, Copy, Debug, PartialEq, Eq)]
pub struct Stretch {
    pub first: usize,
    pub runs: usize,
}

// The runs that stand in three columns, as a planner writes them, at the first places of an array: its first runs may be lent to those who take a run list.
pub fn runs_of<const N: usize>(starts: &[u32], ends: &[u32], tasks: &[u32]) -> [Run; N]
    requires one_length { OneLength starts ends tasks }
    requires room { length starts.now ≤ N }
    ensures { take (length starts.now) result ≡ runs_before starts ends tasks }
{
    let mut runs = [NO_RUN; N];
    for (i, start) in starts.iter().enumerate() {
        runs[i] = Run {
            start: *start,
            end: ends[i],
            task: tasks[i],
        };
    }
    runs
}

// So many runs are more than the limit.
pub fn too_many(runs: usize) -> bool
    ensures { result ≡ ltb max_runs runs }
{
    MAX_RUNS < runs
}

// The task at a position, in ticks of the exact frame clock from a launch tick on.
pub fn job_of(task: Task, launch: u32, p: u32, q: u32, position: u32) -> Job
    requires launch_le_max_launch { launch ≤ max_launch }
    requires q_value { bad_period p q ≡ false }
    requires release_le_last_frame { (task.release ≤ last_frame) × (task.deadline ≤ last_frame) }
    ensures { result ≡ job_of launch p q position task }
{
    Job {
        position,
        release: clock::release_tick(launch, task.release, p, q),
        deadline: clock::deadline_tick(launch, task.deadline, p, q),
        mandatory: task.mandatory,
        optional: task.optional,
    }
}

// The ticks of a job's window: none where it is empty, which it is where its release tick is not below its deadline tick.
pub fn window_ticks(job: Job) -> u32
    ensures { result ≡ window_ticks job }
{
    if job.deadline <= job.release {
        return 0;
    }
    job.deadline - job.release
}

// The jobs of an accepted table at a launch tick, by position; the places beyond its count are 0.
pub fn jobs_of(table: Table, launch: u32) -> [Job; MAX_TASKS]
    requires count_le_max_tasks { table.count ≤ max_tasks }
    requires launch_le_max_launch { launch ≤ max_launch }
    requires q_value { bad_period table.p table.q ≡ false }
    requires by_index { (k : ℕ) → k < table.count → ((task_at table k).release ≤ last_frame) × ((task_at table k).deadline ≤ last_frame) }
    ensures { result ≡ job_array launch table }
{
    let mut jobs = [NO_JOB; MAX_TASKS];
    for k in 0..table.count as usize {
        jobs[k] = job_of(table.tasks[k], launch, table.p, table.q, k as u32);
    }
    jobs
}
