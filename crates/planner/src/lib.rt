// Planning (an entry point): reading's refusals, then 14, 8 and 9, then the choice of optional parts and the placing of work, and the marks and runs
// in the lent lists.
#![tactic(auto)]

ghost use Rattle.std.specs.Prelude.{◌≡◌, true, false, reverse, ℕ, ◌≤◌, ◌<◌, length, get_or};
ghost use Rattle.base.specs.Limits.{max_tasks};
ghost use Rattle.base.specs.Places.{places};
ghost use Rattle.base.specs.Lent.{written_front};
ghost use Rattle.table.specs.Answers.{refusal_number, refusal_place};
ghost use Rattle.table.specs.Reading.{one_each, plain_read, read_reply};
ghost use Rattle.table.specs.Writing.{Legal};
ghost use Rattle.schedule.specs.JobArrays.{no_job, AllBounded};
ghost use Rattle.base.specs.Members.{Any};
ghost use Rattle.base.specs.Arrays.{Distinct};
ghost use Rattle.placement.specs.Chains.{positions};
ghost use Rattle.placement.specs.HeldRuns.{RunsRoom, RunsPut};
ghost use Rattle.choice.specs.KeepLists.{ChosenFor, keeps_in};
ghost use Rattle.choice.specs.Choice.{keep_none};
ghost use Rattle.orders.specs.Keys.{KindFound};
ghost use Rattle.ordering.specs.Kinds.{by_nesting};
ghost use Rattle.planner.specs.declared.PlanRefusal.TheVariants.{File};
ghost use Rattle.planner.specs.Refusals.{plan_number, plan_place, planned_of, RefusedBy};
ghost use Rattle.plans.specs.Planning.{exceeding_after, unmet_by, chosen_by, runs_by, too_short, mark_at, plan_declined, plan_made, reply_by, after_by};
ghost use Rattle.plans.specs.PlanParts.{fits_by, written_with};
ghost use Rattle.plans.specs.Planning.{lent, lent_before, lent_after, short_lists, plan_table, plan_reply, lists_after, lists_left};
ghost use Rattle.plans.specs.Launch.{EarlierAtZero, LaterByLaunch};
ghost use Rattle.plans.specs.KindJobs.{HeldJobs};
ghost use Rattle.plans.specs.Demands.{EightExactly, JudgeAccepts, PlannedOptimal};
ghost use Rattle.plans.specs.Rules.{PlannedByRules, EightFirst};

use choosing::Choice;
use ordering::{Kind, KindKeys};
use plans::Planned;
use schedule::Job;
use table::{Refusal, Table};

// Why planning refuses.
#[derive(Clone, Copy, Debug, PartialEq, Eq)]
pub enum PlanRefusal {
    // Reading refuses the file.
    File(Refusal),
    // The launch tick is above the limit.
    Launch,
    // The mandatory ticks up to and with some task can't be met; the task's position.
    Unmet(usize),
    // A lent list is too short.
    ShortLists,
}

impl PlanRefusal {
    // The refusal's number.
    pub fn number(self) -> u32
        ensures { result ≡ plan_number self }
    {
        match self {
            PlanRefusal::File(refusal) => refusal.number(),
            PlanRefusal::Unmet(_) => 8,
            PlanRefusal::ShortLists => 9,
            PlanRefusal::Launch => 14,
        }
    }

    // The refusal's place, and 0 where it has none.
    pub fn place(self) -> usize
        ensures { result ≡ plan_place self }
    {
        match self {
            PlanRefusal::File(refusal) => refusal.place(),
            PlanRefusal::Unmet(position) => position,
            PlanRefusal::ShortLists | PlanRefusal::Launch => 0,
        }
    }
}

impl From<Refusal> for PlanRefusal {
    ghost from_gives = { λ refusal refused. refused ≡ File refusal };

    fn from(refusal: Refusal) -> PlanRefusal {
        PlanRefusal::File(refusal)
    }
}

// The reply of a refusal, by its number and place.
pub fn declined(number: u32, place: usize) -> Planned
    ensures { result ≡ plan_declined number place }
{
    Planned {
        number,
        place,
        kept: 0,
        discarded: 0,
        runs: 0,
    }
}

// The same, by the refusal.
pub fn refusal_reply(refusal: PlanRefusal) -> Planned
    ensures { result ≡ plan_declined (plan_number refusal) (plan_place refusal) }
{
    declined(refusal.number(), refusal.place())
}

// The reply of planning by what it comes to: the reply of a plan, or why it refuses.
pub fn reply(planned: Result<Planned, PlanRefusal>) -> Planned
    ensures { result ≡ planned_of planned }
{
    match planned {
        Ok(planned) => planned,
        Err(refusal) => refusal_reply(refusal),
    }
}

// The reply of a plan.
fn planned(kept: u32, discarded: u32, runs: usize) -> Planned
    ensures { result ≡ plan_made kept discarded runs }
{
    Planned {
        number: 0,
        place: 0,
        kept,
        discarded,
        runs,
    }
}

// The position of the first job in nest order whose mandatory ticks, with those of all before it, exceed its window, and the number of jobs where there is
// none. The jobs of a nested table stand outermost first.
fn first_exceeding(jobs: &[Job]) -> usize
    requires count_le_max_tasks { length jobs.now ≤ max_tasks }
    requires all_bounded { AllBounded jobs.now }
    ensures { result ≡ exceeding_after (length jobs.now) 0 (reverse jobs.now) }
{
    let mut sum: u32 = 0;
    for i in (0..jobs.len()).rev() {
        let job = jobs[i];
        sum += job.mandatory;
        if schedule::window_ticks(job) < sum {
            return job.position as usize;
        }
    }
    jobs.len()
}

// A lent list is too short for n tasks: n marks, 2n − 1 runs.
fn too_short(n: usize, marks: usize, starts: usize, ends: usize, tasks: usize) -> bool
    requires { (0 < n) × (n ≤ max_tasks) }
    ensures { result ≡ too_short n marks starts ends tasks }
{
    let runs = 2 * n - 1;
    (marks < n) | (starts < runs) | (ends < runs) | (tasks < runs)
}

// The marks of a keep list, put by position into a lent list; what stands beyond them is kept.
fn put_marks(jobs: &[Job], keeps: &[bool], marks: &mut [u8])
    requires keeps_len { length keeps.now ≡ length jobs.now }
    requires count_in_bounds { length jobs.now ≤ length marks.old }
    requires by_index { (k : ℕ) → k < length jobs.now → (get_or jobs.now k no_job).position < length jobs.now }
    requires distinct { Distinct (positions jobs.now) }
    requires by_index_2 { (k : ℕ) → k < length jobs.now → Any (λ job. job.position ≡ k) jobs.now }
    ensures { marks.new ≡ written_front (places (mark_at jobs.now keeps.now) (length jobs.now)) marks.old }
{
    for (i, job) in jobs.iter().enumerate() {
        marks[job.position as usize] = u8::from(keeps[i]);
    }
}

// The position of the first job in the order of its kind whose mandatory ticks, with those of the jobs before it, can't be met, and the number of jobs where
// there is none. The jobs stand last first, here and below.
fn first_unmet(jobs: &[Job], kind: Kind) -> usize
    requires { HeldJobs (by_nesting kind) jobs.now }
    ensures { result ≡ unmet_by (by_nesting kind) (length jobs.now) jobs.now }
{
    match kind {
        Kind::Nested => first_exceeding(jobs),
        Kind::Similar => sequencing::first_late(jobs),
    }
}

// The keep list that is taken of jobs whose mandatory parts fit.
fn choose(jobs: &[Job], kind: Kind) -> Choice
    requires held_jobs { HeldJobs (by_nesting kind) jobs.now }
    requires none_value { fits_by (by_nesting kind) jobs.now (keep_none jobs.now) ≡ true }
    ensures { ChosenFor (chosen_by (by_nesting kind) one_each) jobs.now (keeps_in result.keeps (length jobs.now)) result.kept result.discarded }
{
    match kind {
        Kind::Nested => choosing::choose(jobs),
        Kind::Similar => sequencing::choose(jobs),
    }
}

// The runs of jobs under a keep list that fits, put by start into three lent columns that are long enough; what stands beyond them is kept. The number of
// runs is returned.
fn place(
    jobs: &[Job],
    kind: Kind,
    keeps: &[bool],
    starts: &mut [u32],
    ends: &mut [u32],
    tasks: &mut [u32],
) -> usize
    requires held_jobs { HeldJobs (by_nesting kind) jobs.now }
    requires keeps_value { fits_by (by_nesting kind) jobs.now keeps.now ≡ true }
    requires runs_room { RunsRoom (length jobs.now) starts.old ends.old tasks.old }
    ensures value { result ≡ length (runs_by (by_nesting kind) jobs.now keeps.now) }
    ensures runs_put { RunsPut (runs_by (by_nesting kind) jobs.now keeps.now) starts ends tasks }
{
    match kind {
        Kind::Nested => placing::place(jobs, keeps, starts, ends, tasks),
        Kind::Similar => sequencing::place(jobs, keeps, starts, ends, tasks),
    }
}

// What is refused of jobs before they are planned, for lent lists of these lengths: 8, then 9.
pub fn refused_jobs(
    jobs: &[Job],
    kind: Kind,
    marks: usize,
    starts: usize,
    ends: usize,
    tasks: usize,
) -> Result<(), PlanRefusal>
    requires { HeldJobs (by_nesting kind) jobs.now }
    ensures { RefusedBy (by_nesting kind) jobs.now marks starts ends tasks result }
{
    let unmet = first_unmet(jobs, kind);
    if unmet < jobs.len() {
        return Err(PlanRefusal::Unmet(unmet));
    }
    if too_short(jobs.len(), marks, starts, ends, tasks) {
        return Err(PlanRefusal::ShortLists);
    }
    Ok(())
}

// The marks and the runs of jobs under a choice that fits, put into lists that are long enough, and the reply with its counts.
pub fn put_choice(
    jobs: &[Job],
    kind: Kind,
    choice: &Choice,
    marks: &mut [u8],
    starts: &mut [u32],
    ends: &mut [u32],
    tasks: &mut [u32],
) -> Planned
    requires held_jobs { HeldJobs (by_nesting kind) jobs.now }
    requires keeps_value { fits_by (by_nesting kind) jobs.now (keeps_in choice.now.keeps (length jobs.now)) ≡ true }
    requires tasks_value { short_lists (length jobs.now) (lent marks.old starts.old ends.old tasks.old) ≡ false }
    ensures value { result ≡ plan_made choice.now.kept choice.now.discarded
        (length (runs_by (by_nesting kind) jobs.now (keeps_in choice.now.keeps (length jobs.now)))) }
    ensures tasks_value_2 { lent_after marks starts ends tasks
        ≡ written_with (by_nesting kind) (length jobs.now) jobs.now (keeps_in choice.now.keeps (length jobs.now)) (lent_before marks starts ends tasks) }
{
    let keeps = &choice.keeps[..jobs.len()];
    put_marks(jobs, keeps, marks);
    let runs = place(jobs, kind, keeps, starts, ends, tasks);
    planned(choice.kept, choice.discarded, runs)
}

// Planning jobs of a kind: 8, then 9, then the plan.
fn plan_jobs(
    jobs: &[Job],
    kind: Kind,
    marks: &mut [u8],
    starts: &mut [u32],
    ends: &mut [u32],
    tasks: &mut [u32],
) -> Result<Planned, PlanRefusal>
    requires { HeldJobs (by_nesting kind) jobs.now }
    ensures value { planned_of result ≡ reply_by (by_nesting kind) one_each (length jobs.now) jobs.now (lent_before marks starts ends tasks) }
    ensures tasks_value { lent_after marks starts ends tasks
        ≡ after_by (by_nesting kind) one_each (length jobs.now) jobs.now (planned_of result) (lent_before marks starts ends tasks) }
{
    refused_jobs(
        jobs,
        kind,
        marks.len(),
        starts.len(),
        ends.len(),
        tasks.len(),
    )?;
    let choice = choose(jobs, kind);
    Ok(put_choice(jobs, kind, &choice, marks, starts, ends, tasks))
}

// Planning the table of an accepted file at a launch tick, by its kind and the keys of its order: 14 first.
fn plan_table(
    table: Table,
    found: &KindKeys,
    launch: u32,
    marks: &mut [u8],
    starts: &mut [u32],
    ends: &mut [u32],
    tasks: &mut [u32],
) -> Result<Planned, PlanRefusal>
    requires legal { Legal table }
    requires kind_found { KindFound table (by_nesting found.now.kind) found.now.keys }
    ensures value { planned_of result ≡ plan_table launch one_each table (lent_before marks starts ends tasks) }
    ensures tasks_value { lent_after marks starts ends tasks
        ≡ lists_after launch one_each table (planned_of result) (lent_before marks starts ends tasks) }
{
    if clock::bad_launch(launch) {
        return Err(PlanRefusal::Launch);
    }
    let jobs = ordering::jobs_last_first(table, launch, &found.keys);
    plan_jobs(
        &jobs[..table.count as usize],
        found.kind,
        marks,
        starts,
        ends,
        tasks,
    )
}

// A reply of planning with the task count of the table that was read, which is 0 where reading refuses.
#[derive(Clone, Copy)]
pub struct Counted {
    pub count: u32,
    pub reply: Planned,
}

// The reply where reading refuses.
fn refused(refusal: Refusal) -> Counted
    ensures { (result.count ≡ 0) × (result.reply ≡ plan_declined (refusal_number refusal) (refusal_place refusal)) }
{
    Counted {
        count: 0,
        reply: refusal_reply(PlanRefusal::from(refusal)),
    }
}

// Planning a file at a launch tick, with its task count, for callers that print the plan.
pub fn plan_counted(
    file: &[u8],
    launch: u32,
    marks: &mut [u8],
    starts: &mut [u32],
    ends: &mut [u32],
    tasks: &mut [u32],
) -> Counted
    ensures count_value { result.count ≡ (read_reply file.now).table.count }
    ensures reply_value { result.reply
        ≡ plan_reply launch (plain_read file.now) (lent_before marks starts ends tasks) }
    ensures tasks_value { lent_after marks starts ends tasks
        ≡ lists_left launch (plain_read file.now) result.reply (lent_before marks starts ends tasks) }
{
    let read = match reading::read_any_kind(file) {
        Ok(read) => read,
        Err(refusal) => return refused(refusal),
    };
    if let Err(refusal) = read.windows {
        return refused(refusal);
    }
    let table = read.table;
    let Ok(found) = ordering::keys_of_kind(table) else {
        return refused(table.window_answer().unwrap_err());
    };
    let planned = plan_table(table, &found, launch, marks, starts, ends, tasks);
    Counted {
        count: table.count,
        reply: reply(planned),
    }
}

// Planning: any bytes and any launch tick get the reply of documents 01 and 02. Where nothing is refused, the marks by position and the runs by start
// stand in the lent lists; a refusal changes none of them.
pub fn plan(
    file: &[u8],
    launch: u32,
    marks: &mut [u8],
    starts: &mut [u32],
    ends: &mut [u32],
    tasks: &mut [u32],
) -> Planned
    ensures reply { result ≡ plan_reply launch (plain_read file.now) (lent_before marks starts ends tasks) }
    ensures lists_after { lent_after marks starts ends tasks
        ≡ lists_left launch (plain_read file.now) result (lent_before marks starts ends tasks) }
    ensures demand_2_refusal { EightExactly launch (plain_read file.now) result }
    ensures demand_2_judge { JudgeAccepts launch (plain_read file.now) result
        (lent_after marks starts ends tasks) }
    ensures demand_3 { PlannedOptimal launch file.now result
        (lent_after marks starts ends tasks) }
    ensures by_rules { PlannedByRules launch (plain_read file.now) result
        (lent_after marks starts ends tasks) }
    ensures eight_first { EightFirst launch (plain_read file.now) result }
    ensures earlier_at_0 { EarlierAtZero launch (plain_read file.now) result
        (lent_before marks starts ends tasks)
        (lent_after marks starts ends tasks) }
    ensures later_by_launch { LaterByLaunch launch (plain_read file.now) result
        (lent_before marks starts ends tasks)
        (lent_after marks starts ends tasks) }
{
    plan_counted(file, launch, marks, starts, ends, tasks).reply
}
