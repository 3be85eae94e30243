// Planning a weighted table file (an entry point): weighted reading's refusals, then 14, 8 and 9, then the choice of optional parts by weight and the placing
// of work, and the marks and runs in the lent lists. All but reading and the choice is what planner has.
#![tactic(auto)]

ghost use Rattle.std.specs.Prelude.{◌≡◌, true, ℕ, ◌≤◌, ◌<◌, length, get_or};
ghost use Rattle.base.specs.Limits.{max_tasks, max_weight};
ghost use Rattle.table.specs.Kinds.{is_nested};
ghost use Rattle.table.specs.Writing.{Legal};
ghost use Rattle.weighted_file.specs.Weights.{weight_at, weighted_read};
ghost use Rattle.plans.specs.Planning.{lent_before, lent_after, reply_by, after_by, plan_table, plan_reply, lists_after, lists_left};
ghost use Rattle.planner.specs.Refusals.{planned_of};
ghost use Rattle.plans.specs.KindJobs.{HeldJobs};
ghost use Rattle.plans.specs.Demands.{EightExactly, JudgeAccepts, PlannedByWeight};
ghost use Rattle.plans.specs.Rules.{PlannedByRules, EightFirst};
ghost use Rattle.plans.specs.Launch.{EarlierAtZero, LaterByLaunch};
ghost use Rattle.weighted_plans.specs.Unweighted.{EqualsUnweighted};

use base::MAX_TASKS;
use ordering::Kind;
use planner::PlanRefusal;
use plans::Planned;
use schedule::Job;
use weighted_file::Weighted;

// Planning jobs of a nested table by the weights of their positions: 8, then 9, then the plan. The jobs stand outermost first. Only the choice differs from
// planner's: as a closure it would need a contract over every weight, for a body of three calls.
fn plan_jobs(
    jobs: &[Job],
    weights: &[u32; MAX_TASKS],
    marks: &mut [u8],
    starts: &mut [u32],
    ends: &mut [u32],
    tasks: &mut [u32],
) -> Result<Planned, PlanRefusal>
    requires held_jobs { HeldJobs true jobs.now }
    requires by_index { (k : ℕ) → k < max_tasks → get_or weights.now k 0 ≤ max_weight }
    ensures value { planned_of result ≡ reply_by true (λ k. get_or weights.now k 0) (length jobs.now) jobs.now (lent_before marks starts ends tasks) }
    ensures tasks_value { lent_after marks starts ends tasks
        ≡ after_by true (λ k. get_or weights.now k 0) (length jobs.now) jobs.now (planned_of result) (lent_before marks starts ends tasks) }
{
    planner::refused_jobs(
        jobs,
        Kind::Nested,
        marks.len(),
        starts.len(),
        ends.len(),
        tasks.len(),
    )?;
    let choice = weighted_choosing::choose(jobs, weights);
    Ok(planner::put_choice(jobs, Kind::Nested, &choice, marks, starts, ends, tasks))
}

// Planning the weighted table of an accepted file at a launch tick: 14 first.
fn plan_weighted(
    weighted: Weighted,
    launch: u32,
    marks: &mut [u8],
    starts: &mut [u32],
    ends: &mut [u32],
    tasks: &mut [u32],
) -> Result<Planned, PlanRefusal>
    requires legal { Legal weighted.table }
    requires table_value { is_nested weighted.table ≡ true }
    requires by_index { (k : ℕ) → k < max_tasks → weight_at weighted k ≤ max_weight }
    ensures value { planned_of result ≡ plan_table launch (weight_at weighted) weighted.table (lent_before marks starts ends tasks) }
    ensures tasks_value { lent_after marks starts ends tasks
        ≡ lists_after launch (weight_at weighted) weighted.table (planned_of result) (lent_before marks starts ends tasks) }
{
    if clock::bad_launch(launch) {
        return Err(PlanRefusal::Launch);
    }
    let table = weighted.table;
    let keys = ordering::keys_by(table, Kind::Nested);
    let jobs = ordering::jobs_last_first(table, launch, &keys);
    plan_jobs(
        &jobs[..table.count as usize],
        &weighted.weights,
        marks,
        starts,
        ends,
        tasks,
    )
}

// Planning: any bytes and any launch tick get the reply of documents 01 and 02. Where nothing is refused, the marks by position and the runs by start
// stand in the lent lists; a refusal changes none of them.
pub fn plan(
    file: &[u8],
    launch: u32,
    marks: &mut [u8],
    starts: &mut [u32],
    ends: &mut [u32],
    tasks: &mut [u32],
) -> Planned
    ensures reply { result ≡ plan_reply launch (weighted_read file.now) (lent_before marks starts ends tasks) }
    ensures lists_after { lent_after marks starts ends tasks
        ≡ lists_left launch (weighted_read file.now) result (lent_before marks starts ends tasks) }
    ensures demand_2_refusal { EightExactly launch (weighted_read file.now) result }
    ensures demand_2_judge { JudgeAccepts launch (weighted_read file.now) result
        (lent_after marks starts ends tasks) }
    ensures demand_3 { PlannedByWeight launch (weighted_read file.now) result
        (lent_after marks starts ends tasks) }
    ensures by_rules { PlannedByRules launch (weighted_read file.now) result
        (lent_after marks starts ends tasks) }
    ensures eight_first { EightFirst launch (weighted_read file.now) result }
    ensures earlier_at_0 { EarlierAtZero launch (weighted_read file.now) result
        (lent_before marks starts ends tasks)
        (lent_after marks starts ends tasks) }
    ensures later_by_launch { LaterByLaunch launch (weighted_read file.now) result
        (lent_before marks starts ends tasks)
        (lent_after marks starts ends tasks) }
    ensures equals_unweighted { EqualsUnweighted launch file.now result
        (lent_before marks starts ends tasks)
        (lent_after marks starts ends tasks) }
{
    match weighted_reading::read(file) {
        Ok(weighted) => planner::reply(plan_weighted(weighted, launch, marks, starts, ends, tasks)),
        Err(refusal) => planner::refusal_reply(PlanRefusal::from(refusal)),
    }
}
