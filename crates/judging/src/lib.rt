// Judging a keep list and a run list (an entry point): one pass over the runs and a few over the tasks, in a fixed amount of memory. The runs are lent as a
// list, or in columns, as a planner writes them; they are read where they stand.
#![tactic(auto)]

ghost use Rattle.std.specs.Prelude.{◌≡◌, ◌≤◌, ◌<◌, eqb, ltb, length, get_or, MatchOption, position, count_by, Ok, Err};
ghost use Rattle.std.specs.List.{zip, list_all};
ghost use Rattle.base.specs.Limits.{max_tasks, max_runs};
ghost use Rattle.base.specs.Tests.{and};
ghost use Rattle.base.specs.Lowest.{every_below};
ghost use Rattle.table.specs.Reading.{plain_read};
ghost use Rattle.table.specs.Writing.{Legal};
ghost use Rattle.table.specs.LegalReads.{LegalRead, taken_from};
ghost use Rattle.schedule.specs.Jobs.{work_of, counts};
ghost use Rattle.schedule.specs.JobArrays.{no_job};
ghost use Rattle.schedule.specs.Ticks.{count_below};
ghost use Rattle.schedule.specs.LentRuns.{OneLength, runs_before};
ghost use Rattle.schedule.specs.Judging.{first_bad_mark, judge_declined, judge_table, judge_reply, Sound};
ghost use Rattle.schedule.specs.Passing.{run_fits, Passed, verdict_by_pass};
ghost use Rattle.judging.specs.declared.JudgeRefusal.TheVariants.{File};
ghost use Rattle.judging.specs.Refusals.{judge_number, judge_place, judged_of};
ghost use Rattle.judging.specs.Lending.{lent_runs, LentWhole};

use base::MAX_TASKS;
use schedule::{Job, Judged, Run};
use table::{Refusal, Table};

// Why judging refuses.
#[derive(Clone, Copy, Debug, PartialEq, Eq)]
pub enum JudgeRefusal {
    // Reading refuses the file.
    File(Refusal),
    // The launch tick is above the limit.
    Launch,
    // The marks are not as many as the tasks, and the place is the task count; or a mark is above 1, and the place is its position.
    Marks(usize),
    // There are more runs than the limit.
    TooManyRuns,
}

impl JudgeRefusal {
    // The refusal's number.
    pub fn number(self) -> u32
        ensures { result ≡ judge_number self }
    {
        match self {
            JudgeRefusal::File(refusal) => refusal.number(),
            JudgeRefusal::Marks(_) => 11,
            JudgeRefusal::TooManyRuns => 13,
            JudgeRefusal::Launch => 14,
        }
    }

    // The refusal's place, and 0 where it has none.
    pub fn place(self) -> usize
        ensures { result ≡ judge_place self }
    {
        match self {
            JudgeRefusal::File(refusal) => refusal.place(),
            JudgeRefusal::Marks(place) => place,
            JudgeRefusal::TooManyRuns | JudgeRefusal::Launch => 0,
        }
    }
}

impl From<Refusal> for JudgeRefusal {
    ghost from_gives = { λ refusal refused. refused ≡ File refusal };

    fn from(refusal: Refusal) -> JudgeRefusal {
        JudgeRefusal::File(refusal)
    }
}

// What judging comes to where nothing is refused: a yes with how many parts are kept and how many discarded, or a no.
#[derive(Clone, Copy)]
enum Verdict {
    Yes(u32, u32),
    No,
}

// Runs that are lent: a list of them, or three columns of one length, of their starts, ends and tasks.
#[derive(Clone, Copy)]
enum Lent<'a> {
    Records(&'a [Run]),
    Columns(&'a [u32], &'a [u32], &'a [u32]),
}

// How many runs are lent.
fn lent_count(runs: Lent) -> usize
    requires { LentWhole runs }
    ensures { result ≡ length (lent_runs runs.entry) }
{
    match runs {
        Lent::Records(runs) => runs.len(),
        Lent::Columns(starts, _, _) => starts.len(),
    }
}

// The reply of a verdict, with its counts.
fn says(verdict: Verdict) -> Judged
    ensures { result ≡ judged_of (Ok verdict) }
{
    let (yes, kept, discarded) = match verdict {
        Verdict::Yes(kept, discarded) => (true, kept, discarded),
        Verdict::No => (false, 0, 0),
    };
    Judged {
        number: 0,
        place: 0,
        yes,
        kept,
        discarded,
    }
}

// The reply of a refusal, by its number and its place.
pub fn declined(number: u32, place: usize) -> Judged
    ensures { result ≡ judge_declined number place }
{
    Judged {
        number,
        place,
        yes: false,
        kept: 0,
        discarded: 0,
    }
}

// The reply of a refusal.
fn refused(refusal: JudgeRefusal) -> Judged
    ensures { result ≡ judged_of (Err refusal) }
{
    declined(refusal.number(), refusal.place())
}

// The reply of a judge by what it comes to: a verdict, or why it refuses. Judged is schedule's type, so that it can have no From here.
fn reply(judged: Result<Verdict, JudgeRefusal>) -> Judged
    ensures { result ≡ judged_of judged }
{
    match judged {
        Ok(verdict) => says(verdict),
        Err(refusal) => refused(refusal),
    }
}

// Where the first mark above 1 stands.
fn first_bad_mark(marks: &[u8]) -> Option<usize>
    ensures { result ≡ position (λ mark. ltb 1 mark) marks.now }
{
    marks.iter().position(|mark| 1 < *mark)
}

// A run of a job is not empty, starts at tick `from` or later, and is inside the job's window.
fn run_fits(job: Job, from: u32, run: Run) -> bool
    ensures { result ≡ run_fits job from run.start run.end }
{
    run.start < run.end && from <= run.start && job.release <= run.start && run.end <= job.deadline
}

// The pass over the runs: each follows the one before, is not empty, has a known task and is inside its window. Where all do, it comes to the ticks that the
// runs of each task total.
fn pass_runs(jobs: &[Job], runs: &[Run]) -> Option<[u64; MAX_TASKS]>
    requires jobs_len { length jobs.now ≤ max_tasks }
    requires runs_len { length runs.now ≤ max_runs }
    ensures { Passed (λ k. get_or jobs.now k no_job) (length jobs.now) runs.now result }
{
    let mut totals = [0u64; MAX_TASKS];
    let mut from: u32 = 0;
    for run in runs {
        let task = run.task as usize;
        let job = jobs.get(task)?;
        if !run_fits(*job, from, *run) {
            return None;
        }
        totals[task] += u64::from(run.end - run.start);
        from = run.end;
    }
    Some(totals)
}

// The same pass over runs that stand in columns.
fn pass_columns(
    jobs: &[Job],
    starts: &[u32],
    ends: &[u32],
    tasks: &[u32],
) -> Option<[u64; MAX_TASKS]>
    requires jobs_len { length jobs.now ≤ max_tasks }
    requires one_length { OneLength starts ends tasks }
    requires runs_len { length starts.now ≤ max_runs }
    ensures { Passed (λ k. get_or jobs.now k no_job) (length jobs.now) (runs_before starts ends tasks) result }
{
    let mut totals = [0u64; MAX_TASKS];
    let mut from: u32 = 0;
    for (i, start) in starts.iter().enumerate() {
        let run = Run {
            start: *start,
            end: ends[i],
            task: tasks[i],
        };
        let k = run.task as usize;
        let job = jobs.get(k)?;
        if !run_fits(*job, from, run) {
            return None;
        }
        totals[k] += u64::from(run.end - run.start);
        from = ends[i];
    }
    Some(totals)
}

// The work of a job under a mark: its mandatory ticks, plus its optional ticks where kept.
fn work(job: Job, mark: u8) -> u64
    ensures { result ≡ work_of job mark }
{
    let optional = if mark == 1 { job.optional } else { 0 };
    u64::from(job.mandatory) + u64::from(optional)
}

// Each task's runs total its work exactly.
fn totals_exact(jobs: &[Job], marks: &[u8], totals: &[u64; MAX_TASKS]) -> bool
    ensures { result ≡ list_all (λ x. eqb x.1 (work_of x.0.0 x.0.1)) (zip (zip jobs.now marks.now) totals.now) }
{
    jobs.iter()
        .zip(marks)
        .zip(totals)
        .all(|((job, mark), total)| *total == work(*job, *mark))
}

// How many optional parts above 0 ticks have this mark.
fn count_marked(jobs: &[Job], marks: &[u8], mark: u8) -> u32
    requires { length jobs.now ≤ max_tasks }
    ensures { result ≡ count_by (λ x. and (counts x.0) (eqb x.1 mark)) (zip jobs.now marks.now) }
{
    jobs.iter()
        .zip(marks)
        .filter(|(job, given)| 0 < job.optional && **given == mark)
        .count() as u32
}

// All five conditions of a yes.
fn verdict_of(jobs: &[Job], marks: &[u8], runs: &[Run]) -> bool
    requires jobs_len { length jobs.now ≤ max_tasks }
    requires marks_len { length marks.now ≡ length jobs.now }
    requires runs_len { length runs.now ≤ max_runs }
    ensures { result ≡ verdict_by_pass (λ k. get_or jobs.now k no_job) (length jobs.now) marks.now runs.now }
{
    match pass_runs(jobs, runs) {
        Some(totals) => totals_exact(jobs, marks, &totals),
        None => false,
    }
}

// The same of runs that stand in columns.
fn verdict_of_columns(
    jobs: &[Job],
    marks: &[u8],
    starts: &[u32],
    ends: &[u32],
    tasks: &[u32],
) -> bool
    requires jobs_len { length jobs.now ≤ max_tasks }
    requires marks_len { length marks.now ≡ length jobs.now }
    requires one_length { OneLength starts ends tasks }
    requires runs_len { length starts.now ≤ max_runs }
    ensures { result ≡ verdict_by_pass (λ k. get_or jobs.now k no_job) (length jobs.now) marks.now (runs_before starts ends tasks) }
{
    match pass_columns(jobs, starts, ends, tasks) {
        Some(ticks) => totals_exact(jobs, marks, &ticks),
        None => false,
    }
}

// The same of runs that are lent. The totals are looked at where the pass leaves them, so that they are not copied once more.
fn verdict_lent(jobs: &[Job], marks: &[u8], runs: Lent) -> bool
    requires jobs_len { length jobs.now ≤ max_tasks }
    requires marks_len { length marks.now ≡ length jobs.now }
    requires whole { LentWhole runs }
    requires runs_len { length (lent_runs runs) ≤ max_runs }
    ensures { result ≡ verdict_by_pass (λ k. get_or jobs.now k no_job) (length jobs.now) marks.now (lent_runs runs.entry) }
{
    match runs {
        Lent::Records(runs) => verdict_of(jobs, marks, runs),
        Lent::Columns(starts, ends, tasks) => verdict_of_columns(jobs, marks, starts, ends, tasks),
    }
}

// The verdict on the table of an accepted file, of whatever form: 14, then 11, the length first, then 13, then the verdict.
fn table_verdict(
    table: Table,
    launch: u32,
    marks: &[u8],
    runs: Lent,
) -> Result<Verdict, JudgeRefusal>
    requires legal { Legal table }
    requires whole { LentWhole runs }
    ensures { judged_of result ≡ judge_table launch table marks.now (lent_runs runs.entry) }
{
    if clock::bad_launch(launch) {
        return Err(JudgeRefusal::Launch);
    }
    let count = table.count as usize;
    if marks.len() != count {
        return Err(JudgeRefusal::Marks(count));
    }
    if let Some(bad) = first_bad_mark(marks) {
        return Err(JudgeRefusal::Marks(bad));
    }
    if schedule::too_many(lent_count(runs)) {
        return Err(JudgeRefusal::TooManyRuns);
    }
    let all = schedule::jobs_of(table, launch);
    let jobs = &all[..count];
    if verdict_lent(jobs, marks, runs) {
        let kept = count_marked(jobs, marks, 1);
        let discarded = count_marked(jobs, marks, 0);
        return Ok(Verdict::Yes(kept, discarded));
    }
    Ok(Verdict::No)
}

// The verdict on what was read of a file: reading's refusals, then those of its table.
fn reading_verdict(
    read: Result<Table, Refusal>,
    launch: u32,
    marks: &[u8],
    runs: Lent,
) -> Result<Verdict, JudgeRefusal>
    requires legal { LegalRead (taken_from read) }
    requires whole { LentWhole runs }
    ensures { judged_of result ≡ judge_reply launch (taken_from read) marks.now (lent_runs runs.entry) }
{
    let table = read?;
    table_verdict(table, launch, marks, runs)
}

// Judging on the table of an accepted file, of whatever form.
pub fn judge_table(table: Table, launch: u32, marks: &[u8], runs: &[Run]) -> Judged
    requires { Legal table }
    ensures { result ≡ judge_table launch table marks.now runs.now }
{
    reply(table_verdict(table, launch, marks, Lent::Records(runs)))
}

// Judging on the table of an accepted file, of whatever form, by runs that stand in three columns of one length.
pub fn judge_table_columns(
    table: Table,
    launch: u32,
    marks: &[u8],
    starts: &[u32],
    ends: &[u32],
    tasks: &[u32],
) -> Judged
    requires legal { Legal table }
    requires one_length { OneLength starts ends tasks }
    ensures { result ≡ judge_table launch table marks.now (runs_before starts ends tasks) }
{
    let columns = Lent::Columns(starts, ends, tasks);
    reply(table_verdict(table, launch, marks, columns))
}

// Judging on what was read of a file of whatever form. All judges of run records call it.
pub fn judge_reading(
    read: Result<Table, Refusal>,
    launch: u32,
    marks: &[u8],
    runs: &[Run],
) -> Judged
    requires { LegalRead (taken_from read) }
    ensures { result ≡ judge_reply launch (taken_from read) marks.now runs.now }
{
    reply(reading_verdict(read, launch, marks, Lent::Records(runs)))
}

// Judging on what was read of a file of whatever form, by runs that stand in three columns of one length: reading's refusals, then those of its table. All
// judges of columns call it.
pub fn judge_reading_columns(
    read: Result<Table, Refusal>,
    launch: u32,
    marks: &[u8],
    starts: &[u32],
    ends: &[u32],
    tasks: &[u32],
) -> Judged
    requires legal_read { LegalRead (taken_from read) }
    requires one_length { OneLength starts ends tasks }
    ensures { result ≡ judge_reply launch (taken_from read) marks.now (runs_before starts ends tasks) }
{
    let lent = Lent::Columns(starts, ends, tasks);
    reply(reading_verdict(read, launch, marks, lent))
}

// Judging a file by runs that stand in three columns of one length. Nothing is copied.
pub fn judge_columns(
    file: &[u8],
    launch: u32,
    marks: &[u8],
    starts: &[u32],
    ends: &[u32],
    tasks: &[u32],
) -> Judged
    requires { OneLength starts ends tasks }
    ensures { result ≡ judge_reply launch (plain_read file.now) marks.now (runs_before starts ends tasks) }
{
    judge_reading_columns(reading::read(file), launch, marks, starts, ends, tasks)
}

// Judging: any bytes, launch tick, marks and run list get the reply of documents 01 and 02.
pub fn judge(file: &[u8], launch: u32, marks: &[u8], runs: &[Run]) -> Judged
    ensures reply { result ≡ judge_reply launch (plain_read file.now) marks.now runs.now }
    ensures sound { Sound launch (plain_read file.now) marks.now runs.now result }
{
    judge_reading(reading::read(file), launch, marks, runs)
}
