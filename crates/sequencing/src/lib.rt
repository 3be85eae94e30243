// The choice of optional parts of similar jobs, the first late job, and their runs. Jobs stand last first: similar order from its last to its first.
// One row of numbers a job, from the first job in similar order to the last; all rows are kept, since the marks are read back from the last job to
// the first with a bound, as the definitions in sequence have them. The times of a row are without the mandatory ticks that were run by then, so
// that these are added up once a job: with M the mandatory ticks of a job and those before it, an end by the deadline is one by deadline - M beside
// them, and that room is found once a job. A number of the next row is then one comparison with it for the job kept and one for it discarded. Where
// every part can be kept, no row is made.
#![tactic(auto)]

ghost use Rattle.std.specs.Prelude.{◌≡◌, true, false, ℕ, ◌+◌, ◌-◌, ◌*◌, ◌≤◌, ◌<◌, min, max, length, get_or};
ghost use Rattle.base.specs.Limits.{max_tasks, max_ticks};
ghost use Rattle.base.specs.Arrays.{Distinct};
ghost use Rattle.base.specs.Tests.{pick};
ghost use Rattle.choice.specs.KeepLists.{keeps_in, ChosenFor};
ghost use Rattle.choice.specs.Choice.{keep_none};
ghost use Rattle.schedule.specs.JobArrays.{no_job, Bounded, AllBounded};
ghost use Rattle.choice.specs.Programme.{mandatory_sum, greatest};
ghost use Rattle.choice.specs.Decisions.{row_places, huge_ticks};
ghost use Rattle.placement.specs.Chains.{positions};
ghost use Rattle.placement.specs.HeldRuns.{RunsPut};
ghost use Rattle.sequence.specs.InOrder.{fits_in_order, first_late, runs_in_order};
ghost use Rattle.sequence.specs.OrderChoice.{chosen_in_order};
ghost use Rattle.sequence.specs.OrderRows.{ending};
ghost use Rattle.sequence.specs.KeptRows.{all_row_places, same_marks, earliest_of, marks_back, numbers_from, RoomFor, Blank, RowsKept, RowPut, RowsInPlace, PartsOf};
ghost use Rattle.sequence.specs.KeptRows.{limited_end, free_from, free_room, row_without, row_with, next_row, kept_beside, bound_beside};

use base::MAX_TASKS;
use choosing::{Choice, HUGE, ROW_PLACES};
use schedule::Job;

// The places of all rows: one row for each job, and that of no job. The row of the jobs from place k on stands from place ROW_PLACES * k on.
const ALL_PLACES: usize = ROW_PLACES * (MAX_TASKS + 1);

// The same for few jobs, and how many these are.
const FEW: usize = 16;

const FEW_PLACES: usize = ROW_PLACES * (FEW + 1);

// What a job asks of a time in a row: nothing of it starts before `from`, and nothing that ends later than `room` is in time.
#[derive(Clone, Copy)]
struct TimeLimits {
    pub from: u32,
    pub room: u32,
}

// What is counted while the rows are made: the most parts that a list that fits keeps, and all mandatory ticks.
#[derive(Clone, Copy)]
struct Counts {
    pub most: usize,
    pub mandatory: u32,
}

// Where the work of a job ends that is run as early as it can from `time` on, and HUGE where that is after the deadline. Where there is no work,
// `time` stays, and nothing is tested.
fn ending_at(job: Job, work: u32, time: u32) -> u32
    requires bounded { Bounded job }
    requires work_bound { work ≤ 2 * max_ticks }
    requires time_le_huge_ticks { time ≤ huge_ticks }
    ensures { result ≡ ending huge_ticks job work time }
{
    if work == 0 {
        return time;
    }
    let end = time.max(job.release) + work;
    if end <= job.deadline { end } else { HUGE }
}

// The end of `ticks` run from `time` on within the limits of a job, and HUGE where there is no room for them.
fn limited(time: u32, limits: TimeLimits, ticks: u32) -> u32
    requires { (time ≤ huge_ticks) × (limits.from ≤ huge_ticks) × (ticks ≤ max_ticks) }
    ensures { result ≡ limited_end limits.from limits.room ticks time }
{
    let end = time.max(limits.from) + ticks;
    if end <= limits.room { end } else { HUGE }
}

// The limits of a job whose optional part is discarded: where it has no work, nothing is tested.
fn free_limits(job: Job, kept: TimeLimits) -> TimeLimits
    ensures { (result.from ≡ free_from job kept.from) × (result.room ≡ free_room job kept.room) }
{
    if job.mandatory == 0 {
        return TimeLimits {
            from: 0,
            room: HUGE,
        };
    }
    kept
}

// The row of a job whose optional part has no ticks, up to `most` parts, into the places from `at` on; the row of the jobs before stands one row
// further. Both rows stand in one list: as two slices they would be cut from it at each job.
fn row_without(rows: &mut [u32], at: usize, free: TimeLimits, most: usize)
    requires most_lt_row_places { most < row_places }
    requires most_in_bounds { at + row_places + most < length rows.old }
    requires rows_len_bound { length rows.old ≤ all_row_places }
    requires from_le_huge_ticks { free.from ≤ huge_ticks }
    requires by_index { (k : ℕ) → k ≤ most → get_or rows.old (at + row_places + k) 0 ≤ huge_ticks }
    ensures { RowPut (row_without free.from free.room) most at rows.old rows.new }
{
    let from = at + ROW_PLACES;
    for v in 0..=most {
        let before = rows[from + v];
        rows[at + v] = limited(before, free, 0);
    }
}

// The row of a job whose optional part has ticks: at each number of parts the lesser of the ends with the job kept and with it discarded.
fn row_with(
    rows: &mut [u32],
    at: usize,
    optional: u32,
    kept: TimeLimits,
    free: TimeLimits,
    most: usize,
)
    requires most_lt_row_places { most < row_places }
    requires most_in_bounds { at + row_places + most < length rows.old }
    requires rows_len_bound { length rows.old ≤ all_row_places }
    requires optional_le_max_ticks { (optional ≤ max_ticks) × (kept.from ≤ huge_ticks) × (free.from ≤ huge_ticks) }
    requires by_index { (k : ℕ) → k ≤ most → get_or rows.old (at + row_places + k) 0 ≤ huge_ticks }
    ensures { RowPut (row_with optional kept.from kept.room free.from free.room) most at rows.old rows.new }
{
    let from = at + ROW_PLACES;
    for v in 0..most {
        let next = v + 1;
        let before = rows[from + v];
        let same = rows[from + next];
        let with = limited(before, kept, optional);
        let without = limited(same, free, 0);
        rows[at + next] = with.min(without);
    }
    let none = rows[from];
    rows[at] = limited(none, free, 0);
}

// The row of a job and those before it, up to `most` parts. `kept` is the limits of the job where it is kept. The most parts at which the row is
// below HUGE are given back.
fn next_row(rows: &mut [u32], at: usize, job: Job, kept: TimeLimits, most: usize) -> usize
    requires most_lt_row_places { most < row_places }
    requires most_in_bounds { at + row_places + most < length rows.old }
    requires rows_len_bound { length rows.old ≤ all_row_places }
    requires optional_le_max_ticks { (job.optional ≤ max_ticks) × (kept.from ≤ huge_ticks) }
    requires by_index { (k : ℕ) → k ≤ most → get_or rows.old (at + row_places + k) 0 ≤ huge_ticks }
    ensures row_put { RowPut (next_row job kept.from kept.room) most at rows.old rows.new }
    ensures value { result ≡ greatest huge_ticks (numbers_from rows.new at) most }
{
    let free = free_limits(job, kept);
    if job.optional == 0 {
        row_without(rows, at, free, most);
    } else {
        row_with(rows, at, job.optional, kept, free, most);
    }
    choosing::most_within(&rows[at..=at + most], HUGE - 1)
}

// The rows of jobs that stand last first, into a lent list that is huge throughout. The mandatory ticks are added up once a job, and no number is made beyond
// the most parts of the jobs before and the job's own: a row is huge there.
fn rows_of(jobs: &[Job], rows: &mut [u32]) -> Counts
    requires count_le_max_tasks { length jobs.now ≤ max_tasks }
    requires all_bounded { AllBounded jobs.now }
    requires room_for { RoomFor (length jobs.now) (length rows.old) }
    requires blank { Blank rows.old }
    requires count_value { fits_in_order jobs.now (keep_none jobs.now) ≡ true }
    ensures { RowsInPlace jobs.now rows.new result.most result.mandatory }
{
    rows[ROW_PLACES * jobs.len()] = 0;
    let mut most: usize = 0;
    let mut mandatory: u32 = 0;
    for i in (0..jobs.len()).rev() {
        let job = jobs[i];
        let before = mandatory;
        mandatory += job.mandatory;
        let from = job.release.saturating_sub(before);
        let room = job.deadline.saturating_sub(mandatory);
        let part = choosing::worth(job);
        most = next_row(
            rows,
            ROW_PLACES * i,
            job,
            TimeLimits { from, room },
            most + part,
        );
    }
    Counts { most, mandatory }
}

// Whether a job is kept where v parts are kept in all: one whose optional part has no ticks is, and any other where its part ends within the
// limits. The row of the jobs before it stands from place `from` on.
fn is_kept(rows: &[u32], from: usize, job: Job, limits: TimeLimits, v: usize) -> bool
    requires v_in_bounds { from + v < length rows.now }
    requires rows_len_bound { length rows.now ≤ all_row_places }
    requires optional_le_max_ticks { (job.optional ≤ max_ticks) × (limits.from ≤ huge_ticks) }
    requires by_index { (k : ℕ) → k ≤ v → get_or rows.now (from + k) 0 ≤ huge_ticks }
    ensures { result ≡ kept_beside job limits.from limits.room (numbers_from rows.now from) v }
{
    if job.optional == 0 {
        return true;
    }
    if v == 0 {
        return false;
    }
    let before = rows[from + (v - 1)];
    before.max(limits.from) + job.optional <= limits.room
}

// The optional ticks of a job, where its part is kept.
fn kept_ticks(job: Job, keep: bool) -> u32
    ensures { result ≡ pick keep job.optional 0 }
{
    if keep { job.optional } else { 0 }
}

// The bound for the jobs before a job, from its room and the bound: where it has work, the room less its kept ticks.
fn bound_before(job: Job, keep: bool, room: u32, bound: u32) -> u32
    requires bounded { Bounded job }
    requires optional_bound { pick keep job.optional 0 ≤ room }
    ensures { result ≡ bound_beside job keep room bound }
{
    let ticks = kept_ticks(job, keep);
    if 0 < job.mandatory + ticks {
        room - ticks
    } else {
        bound
    }
}

// The marks from the last job to the first, where `most` parts are kept in all: a job is kept where these are reached by the bound with it kept.
// `mandatory` is all mandatory ticks; the bound is without those of the jobs still to come.
fn read_back(jobs: &[Job], rows: &[u32], most: usize, mandatory: u32) -> [bool; MAX_TASKS]
    requires count_le_max_tasks { length jobs.now ≤ max_tasks }
    requires most_le_count { most ≤ length jobs.now }
    requires all_bounded { AllBounded jobs.now }
    requires room_for { RoomFor (length jobs.now) (length rows.now) }
    requires rows_kept { RowsKept (λ k. get_or jobs.now k no_job) (length jobs.now) 0 rows.now }
    requires mandatory_value { mandatory ≡ mandatory_sum jobs.now }
    requires most_bound { earliest_of jobs.now most < huge_ticks }
    ensures { keeps_in result (length jobs.now) ≡ marks_back jobs.now most }
{
    let mut keeps = [false; MAX_TASKS];
    let mut v = most;
    let mut left = mandatory;
    let mut bound = HUGE - 1 - mandatory;
    for (i, job) in jobs.iter().enumerate() {
        let room = job.deadline.saturating_sub(left).min(bound);
        left -= job.mandatory;
        let from = job.release.saturating_sub(left);
        let keep = is_kept(
            rows,
            ROW_PLACES * (i + 1),
            *job,
            TimeLimits { from, room },
            v,
        );
        keeps[i] = keep;
        bound = bound_before(*job, keep, room, bound);
        if keep {
            v -= choosing::worth(*job);
        }
    }
    keeps
}

// The number of the optional parts above 0 ticks of some jobs.
fn parts_of(jobs: &[Job]) -> usize
    requires { length jobs.now ≤ max_tasks }
    ensures { PartsOf jobs.now result }
{
    jobs.iter().filter(|job| 0 < job.optional).count()
}

// Whether all work ends in time where every part is kept.
fn all_fit(jobs: &[Job]) -> bool
    requires all_bounded { AllBounded jobs.now }
    ensures { result ≡ fits_in_order jobs.now (same_marks true jobs.now) }
{
    let mut time: u32 = 0;
    for i in (0..jobs.len()).rev() {
        let job = jobs[i];
        let work = placing::work_with(job, true);
        let end = ending_at(job, work, time);
        if HUGE <= end {
            return false;
        }
        time = end;
    }
    true
}

// The choice by rows, which stand in a lent list that is huge throughout. `parts` is the number of all parts above 0 ticks.
fn choose_in(jobs: &[Job], parts: usize, rows: &mut [u32]) -> Choice
    requires count_le_max_tasks { length jobs.now ≤ max_tasks }
    requires all_bounded { AllBounded jobs.now }
    requires count_value { fits_in_order jobs.now (keep_none jobs.now) ≡ true }
    requires parts_of { PartsOf jobs.now parts }
    requires room_for { RoomFor (length jobs.now) (length rows.old) }
    requires blank { Blank rows.old }
    ensures { ChosenFor chosen_in_order jobs.now (keeps_in result.keeps (length jobs.now)) result.kept result.discarded }
{
    let counts = rows_of(jobs, rows);
    let most = counts.most;
    let keeps = read_back(jobs, rows, most, counts.mandatory);
    Choice {
        keeps,
        kept: most as u32,
        discarded: (parts - most) as u32,
    }
}

// The same in a list of its own, which is HUGE throughout: a short one for few jobs, since to fill the one for all takes longer than to make their rows.
fn choose_by_rows(jobs: &[Job], parts: usize) -> Choice
    requires count_le_max_tasks { length jobs.now ≤ max_tasks }
    requires all_bounded { AllBounded jobs.now }
    requires count_value { fits_in_order jobs.now (keep_none jobs.now) ≡ true }
    requires parts_of { PartsOf jobs.now parts }
    ensures { ChosenFor chosen_in_order jobs.now (keeps_in result.keeps (length jobs.now)) result.kept result.discarded }
{
    if jobs.len() <= FEW {
        let mut rows = [HUGE; FEW_PLACES];
        return choose_in(jobs, parts, &mut rows);
    }
    let mut rows = [HUGE; ALL_PLACES];
    choose_in(jobs, parts, &mut rows)
}

// The keep list of similar jobs that stand last first. Where every part can be kept, no row is made.
pub fn choose(jobs: &[Job]) -> Choice
    requires count_le_max_tasks { length jobs.now ≤ max_tasks }
    requires all_bounded { AllBounded jobs.now }
    requires count_value { fits_in_order jobs.now (keep_none jobs.now) ≡ true }
    ensures { ChosenFor chosen_in_order jobs.now (keeps_in result.keeps (length jobs.now)) result.kept result.discarded }
{
    let parts = parts_of(jobs);
    if all_fit(jobs) {
        return Choice {
            keeps: [true; MAX_TASKS],
            kept: parts as u32,
            discarded: 0,
        };
    }
    choose_by_rows(jobs, parts)
}

// The position of the first job in similar order whose mandatory ticks, run in order as early as they can, end after its deadline, and the number of jobs
// where there is none. The jobs stand last first.
pub fn first_late(jobs: &[Job]) -> usize
    requires all_bounded { AllBounded jobs.now }
    requires by_index { (k : ℕ) → k < length jobs.now → (get_or jobs.now k no_job).position < length jobs.now }
    ensures { result ≡ first_late (length jobs.now) jobs.now }
{
    let mut time: u32 = 0;
    for i in (0..jobs.len()).rev() {
        let job = jobs[i];
        let end = ending_at(job, job.mandatory, time);
        if HUGE <= end {
            return job.position as usize;
        }
        time = end;
    }
    jobs.len()
}

// The runs of similar jobs that stand last first, under a keep list that fits, put by start into three lent columns; what stands beyond them is kept. The
// number of runs is returned.
pub fn place(
    jobs: &[Job],
    keeps: &[bool],
    starts: &mut [u32],
    ends: &mut [u32],
    tasks: &mut [u32],
) -> usize
    requires count_le_max_tasks { length jobs.now ≤ max_tasks }
    requires all_bounded { AllBounded jobs.now }
    requires distinct { Distinct (positions jobs.now) }
    requires keeps_value { fits_in_order jobs.now keeps.now ≡ true }
    requires count_in_bounds { (length jobs.now ≤ length starts.old) × (length jobs.now ≤ length ends.old) × (length jobs.now ≤ length tasks.old) }
    ensures value { result ≡ length (runs_in_order jobs.now keeps.now) }
    ensures runs_put { RunsPut (runs_in_order jobs.now keeps.now) starts ends tasks }
{
    let mut time: u32 = 0;
    let mut runs: usize = 0;
    for i in (0..jobs.len()).rev() {
        let job = jobs[i];
        let work = placing::work_with(job, keeps[i]);
        if 0 < work {
            let start = time.max(job.release);
            time = start + work;
            starts[runs] = start;
            ends[runs] = time;
            tasks[runs] = job.position;
            runs += 1;
        }
    }
    runs
}
