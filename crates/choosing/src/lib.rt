// The choice of optional parts of nested jobs: which of them a plan keeps. One row of numbers a job, from the innermost job outwards, each written over the last,
// and the marks read back from the outermost inwards, as the definitions in choice have them. The steps of a row from one number of parts to the next never
// fall (choice ConvexLaws), so of a row only the numbers above one place change, its rank, and the rank is all that the way back must know of a job.
#![tactic(auto)]

ghost use Rattle.std.specs.Prelude.{◌≡◌, true, false, ℕ, ◌+◌, ◌-◌, ◌≤◌, ◌<◌, length, get_or, replicate};
ghost use Rattle.base.specs.Limits.{max_tasks, max_ticks};
ghost use Rattle.schedule.specs.Jobs.{window_ticks};
ghost use Rattle.choice.specs.KeepLists.{keeps_in, ChosenFor};
ghost use Rattle.choice.specs.Choice.{fits, keep_none, count_one, chosen};
ghost use Rattle.schedule.specs.JobArrays.{no_job, AllBounded};
ghost use Rattle.choice.specs.Programme.{greatest};
ghost use Rattle.choice.specs.Decisions.{row_places, huge_ticks, row_of, back_of, keeps_above, Decided, PartAdded, JobAdded, RowsMade};

use base::MAX_TASKS;
use schedule::Job;

// The places of a row: one for each number of optional parts that a list can keep, 0 among them.
pub const ROW_PLACES: usize = MAX_TASKS + 1;

// What stands in a row of similar jobs where no list fits: more than any deadline, and so more than any window has ticks. The rows here end where it
// would stand.
pub const HUGE: u32 = 1_073_741_824;

// What the choice comes to: the keep list, in the order of the jobs, and the counts of optional parts above 0 ticks that it keeps and discards.
#[derive(Clone, Copy)]
pub struct Choice {
    pub keeps: [bool; MAX_TASKS],
    pub kept: u32,
    pub discarded: u32,
}

// What the rows come to: the number of optional parts above 0 ticks, and the most of them that a list that fits keeps.
#[derive(Clone, Copy)]
struct Parts {
    pub all: usize,
    pub most: usize,
}

// What a job counts: 1 where its optional part has ticks, and else 0.
pub fn worth(job: Job) -> usize
    ensures { result ≡ count_one job }
{
    usize::from(0 < job.optional)
}

// The ticks of a job's window that are left beside mandatory ticks.
pub fn room_beside(job: Job, mandatory: u32) -> u32
    requires { mandatory ≤ window_ticks job }
    ensures { result ≡ window_ticks job - mandatory }
{
    schedule::window_ticks(job) - mandatory
}

// An optional part put into a row that goes up to `top` parts, from there downwards, as long as it takes no more ticks with the part than without. The
// rank is given back: the greatest number of parts at which it takes more, and 0 where there is none. Up to it the row stays.
fn add_part(row: &mut [u32], top: usize, optional: u32) -> usize
    requires top_in_bounds { top + 1 < length row.old }
    requires optional_le_max_ticks { optional ≤ max_ticks }
    requires by_index { (v : ℕ) → v ≤ top → get_or row.old v 0 ≤ huge_ticks }
    ensures { PartAdded optional top result row.old row.new }
{
    row[top + 1] = optional + row[top];
    for v in (1..=top).rev() {
        let with = optional + row[v - 1];
        if row[v] < with {
            return v;
        }
        row[v] = with;
    }
    0
}

// The optional part of a job put into the row of the jobs inside it, which goes up to `top` parts, and its rank. A part of no ticks changes nothing.
fn add_job(row: &mut [u32], top: usize, job: Job) -> usize
    requires top_in_bounds { top + 1 < length row.old }
    requires optional_le_max_ticks { job.optional ≤ max_ticks }
    requires by_index { (v : ℕ) → v ≤ top → get_or row.old v 0 ≤ huge_ticks }
    ensures { JobAdded job top result row.old row.new }
{
    if job.optional == 0 {
        return 0;
    }
    add_part(row, top, job.optional)
}

// The greatest place of a row whose number is at most `room`, and 0 where there is none.
pub fn most_within(row: &[u32], room: u32) -> usize
    requires { 0 < length row.now }
    ensures { result ≡ greatest (room + 1) (λ v. get_or row.now v 0) (length row.now - 1) }
{
    for v in (1..row.len()).rev() {
        if row[v] <= room {
            return v;
        }
    }
    0
}

// The row of jobs that stand outermost first, in a lent row of zeros, and the rank of each. A job adds its mandatory ticks once, and what its window has
// beside them is found once: the row is cut at it.
fn rows_of(jobs: &[Job], row: &mut [u32], ranks: &mut [usize]) -> Parts
    requires count_le_max_tasks { length jobs.now ≤ max_tasks }
    requires all_bounded { AllBounded jobs.now }
    requires count_value { fits jobs.now (keep_none jobs.now) ≡ true }
    requires row_value { row.old ≡ replicate row_places 0 }
    requires ranks_len { length ranks.old ≡ max_tasks }
    ensures { RowsMade jobs.now ranks.new result.all result.most }
{
    let mut mandatory: u32 = 0;
    let mut all: usize = 0;
    let mut top: usize = 0;
    for i in (0..jobs.len()).rev() {
        let job = jobs[i];
        let sum = mandatory + job.mandatory;
        let room = room_beside(job, sum);
        ranks[i] = add_job(row, top, job);
        let part = worth(job);
        all += part;
        top = most_within(&row[..=top + part], room);
        mandatory = sum;
    }
    Parts { all, most: top }
}

// A job is kept where `left` parts are to be kept of it and the jobs inside it: where its part has no ticks, and where they are more than its rank.
fn keeps_above(job: Job, rank: usize, left: usize) -> bool
    ensures { result ≡ keeps_above job rank left }
{
    job.optional == 0 || rank < left
}

// The marks from the outermost job inwards, by the ranks, where `most` parts are kept in all.
fn read_back(jobs: &[Job], ranks: &[usize], most: usize) -> [bool; MAX_TASKS]
    requires count_le_max_tasks { length jobs.now ≤ max_tasks }
    requires most_le_count { most ≤ length jobs.now }
    requires ranks_len { length ranks.now ≡ max_tasks }
    requires decided { Decided (λ k. get_or jobs.now k no_job) (length jobs.now) 0 ranks.now }
    requires most_bound { row_of jobs.now most < huge_ticks }
    ensures { keeps_in result (length jobs.now) ≡ back_of jobs.now most }
{
    let mut keeps = [false; MAX_TASKS];
    let mut left = most;
    for (i, job) in jobs.iter().enumerate() {
        let keep = keeps_above(*job, ranks[i], left);
        keeps[i] = keep;
        if keep {
            left -= worth(*job);
        }
    }
    keeps
}

// The keep list of jobs that stand outermost first.
pub fn choose(jobs: &[Job]) -> Choice
    requires count_le_max_tasks { length jobs.now ≤ max_tasks }
    requires all_bounded { AllBounded jobs.now }
    requires count_value { fits jobs.now (keep_none jobs.now) ≡ true }
    ensures { ChosenFor chosen jobs.now (keeps_in result.keeps (length jobs.now)) result.kept result.discarded }
{
    let mut row = [0u32; ROW_PLACES];
    let mut ranks = [0usize; MAX_TASKS];
    let parts = rows_of(jobs, &mut row, &mut ranks);
    let most = parts.most;
    let keeps = read_back(jobs, &ranks, most);
    Choice {
        keeps,
        kept: most as u32,
        discarded: (parts.all - most) as u32,
    }
}
