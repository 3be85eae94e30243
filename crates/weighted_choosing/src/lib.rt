// The choice of optional parts of nested jobs whose parts carry weights. One row of numbers a job, from the innermost job outwards, each written over the
// last: at each weight the least kept ticks of a list that fits and keeps just that weight, and HUGE where none does. The steps of such a row can fall, so
// there is no rank: where a job is kept is one bit for each weight. The bits of all jobs at a weight stand in one word, and the marks are read back from the
// outermost job inwards, as the definitions in choice have them.
#![tactic(auto)]

ghost use Rattle.std.specs.Prelude.{◌≡◌, true, ℕ, ◌+◌, ◌%◌, ◌^◌, ◌≤◌, ◌<◌, min, leb, length, get_or, replicate};
ghost use Rattle.base.specs.Limits.{max_tasks, max_ticks, max_weight};
ghost use Rattle.schedule.specs.JobArrays.{no_job, AllBounded};
ghost use Rattle.choice.specs.Choice.{fits, keep_none, weighed, chosen_over};
ghost use Rattle.choice.specs.KeepLists.{keeps_in, ChosenFor};
ghost use Rattle.choice.specs.Decisions.{huge_ticks, back_over};
ghost use Rattle.weighted_choosing.specs.WeightedRows.{weight_places, held_to, bit_set, bit_where, SignFree, PartAddedTo, BitPut, LesserPut, WeightsDecided};

use base::{MAX_TASKS, MAX_WEIGHT};
use choosing::{Choice, HUGE};
use schedule::Job;

// The greatest weight of a part, as a number of places.
const FRONT: usize = MAX_WEIGHT as usize;

// The places of a row: one for each weight that a list can keep, 0 among them.
const PLACES: usize = MAX_TASKS * FRONT + 1;

// What the optional part of a job weighs: the weight of its position, and nothing where it has no ticks.
fn weight_of(job: Job, weights: &[u32]) -> usize
    requires { job.position < length weights.now }
    ensures { result ≡ weighed (λ k. get_or weights.now k 0) job }
{
    if job.optional == 0 {
        return 0;
    }
    weights[job.position as usize] as usize
}

// Whether a number of ticks is at most another. They are compared as signed numbers, which a processor does for four at a time in one step; for unsigned
// ones it would take three.
fn at_most(a: u32, b: u32) -> bool
    requires { (a < 2 ^ 31) × (b < 2 ^ 31) }
    ensures { result ≡ leb a b }
{
    a as i32 <= b as i32
}

// The lesser of two numbers of ticks.
fn lesser(a: u32, b: u32) -> u32
    requires { (a < 2 ^ 31) × (b < 2 ^ 31) }
    ensures { result ≡ min a b }
{
    if at_most(a, b) { a } else { b }
}

// A number of ticks, and HUGE where there is no room for them.
fn held_to(room: u32, ticks: u32) -> u32
    requires { (ticks < 2 ^ 31) × (room < 2 ^ 31) }
    ensures { result ≡ held_to room ticks }
{
    if at_most(ticks, room) { ticks } else { HUGE }
}

// A bit where a test holds, and else 0.
fn bit_where(test: bool, bit: u64) -> u64
    ensures { result ≡ bit_where test bit }
{
    if test { bit } else { 0 }
}

// Whether bit i of a word is set.
fn bit_set(word: u64, i: usize) -> bool
    requires { i < 64 }
    ensures { result ≡ bit_set word i }
{
    (word >> i as u32) % 2 == 1
}

// The ticks of a part added to the first numbers of a row, from place FRONT on. This loop and the two below take whole lists and how many places they go
// over: as slices, each call would cut three parts by the same two numbers, and its proof would put them together again.
fn add_part(row: &[u32], kept: &mut [u32], places: usize, optional: u32)
    requires places_in_bounds { (places ≤ length row.now) × (max_weight + places ≤ length kept.old) }
    requires optional_le_max_ticks { optional ≤ max_ticks }
    requires by_index { (v : ℕ) → v < places → get_or row.now v 0 ≤ huge_ticks }
    ensures { PartAddedTo row.now optional places kept.old kept.new }
{
    for v in 0..places {
        kept[FRONT + v] = optional + row[v];
    }
}

// Bit i of the words at the first weights set where it takes no more ticks to keep the part of job i than to discard it.
fn decide(kept: &[u32], from: usize, row: &[u32], decisions: &mut [u64], places: usize, i: usize)
    requires places_in_bounds { (from + places ≤ length kept.now) × (places ≤ length row.now) × (places ≤ length decisions.old) }
    requires i_bound { i < 64 }
    requires sign_free { SignFree kept.now from row.now places }
    requires by_index { (v : ℕ) → v < places → get_or decisions.old v 0 % 2 ^ (i + 1) ≡ 0 }
    ensures { BitPut kept.now from row.now i places decisions.old decisions.new }
{
    let bit = 1u64 << i as u32;
    for v in 0..places {
        let keep = at_most(kept[from + v], row[v]);
        decisions[v] += bit_where(keep, bit);
    }
}

// The lesser of the ticks with the part kept and with it discarded put into the row at the first weights, where the room is enough.
fn next_row(kept: &[u32], from: usize, row: &mut [u32], places: usize, room: u32)
    requires places_in_bounds { (from + places ≤ length kept.now) × (places ≤ length row.old) }
    requires sign_free { SignFree kept.now from row.old places }
    requires room_bound { room < 2 ^ 31 }
    ensures { LesserPut kept.now from room places row.old row.new }
{
    for v in 0..places {
        row[v] = held_to(room, lesser(kept[from + v], row[v]));
    }
}

// The decisions of jobs that stand outermost first, in lent words of 0; the row and the row with a part added are lent, HUGE throughout. The greatest weight
// that a list that fits keeps is given back. A row is made up to the greatest weight of the jobs inside and the job's own.
fn rows_of(
    jobs: &[Job],
    weights: &[u32],
    row: &mut [u32],
    kept: &mut [u32],
    decisions: &mut [u64],
) -> usize
    requires count_le_max_tasks { length jobs.now ≤ max_tasks }
    requires all_bounded { AllBounded jobs.now }
    requires count_value { fits jobs.now (keep_none jobs.now) ≡ true }
    requires by_index { (k : ℕ) → k < length jobs.now → (get_or jobs.now k no_job).position < max_tasks }
    requires weights_len { (length weights.now ≡ max_tasks) × ((k : ℕ) → k < max_tasks → get_or weights.now k 0 ≤ max_weight) }
    requires row_value { (row.old ≡ replicate weight_places huge_ticks) × (kept.old ≡ replicate weight_places huge_ticks) }
    requires decisions_value { decisions.old ≡ replicate weight_places 0 }
    ensures { WeightsDecided (weighed (λ k. get_or weights.now k 0)) jobs.now decisions.new result }
{
    row[0] = 0;
    let mut mandatory: u32 = 0;
    let mut top: usize = 0;
    for i in (0..jobs.len()).rev() {
        let job = jobs[i];
        mandatory += job.mandatory;
        let room = choosing::room_beside(job, mandatory);
        let weight = weight_of(job, weights);
        let from = FRONT - weight;
        let most = top + weight;
        add_part(row, kept, top + 1, job.optional);
        decide(kept, from, row, decisions, most + 1, i);
        next_row(kept, from, row, most + 1, room);
        top = choosing::most_within(&row[..=most], HUGE - 1);
    }
    top
}

// The marks from the outermost job inwards, by the bits at the weight that is still to be kept, `most` in all, and how many parts above 0 ticks they keep and
// discard.
fn read_back(jobs: &[Job], weights: &[u32], decisions: &[u64], most: usize) -> Choice
    requires count_le_max_tasks { length jobs.now ≤ max_tasks }
    requires by_index { (k : ℕ) → k < length jobs.now → (get_or jobs.now k no_job).position < max_tasks }
    requires weights_len { length weights.now ≡ max_tasks }
    requires weights_decided { WeightsDecided (weighed (λ k. get_or weights.now k 0)) jobs.now decisions.now most }
    ensures { ChosenFor (λ all. back_over (weighed (λ k. get_or weights.now k 0)) all most) jobs.now (keeps_in result.keeps (length jobs.now))
        result.kept result.discarded }
{
    let mut keeps = [false; MAX_TASKS];
    let mut kept: usize = 0;
    let mut discarded: usize = 0;
    let mut left = most;
    for (i, job) in jobs.iter().enumerate() {
        let part = choosing::worth(*job);
        let weight = weight_of(*job, weights);
        let keep = bit_set(decisions[left], i);
        keeps[i] = keep;
        if keep {
            left -= weight;
            kept += part;
        } else {
            discarded += part;
        }
    }
    Choice {
        keeps,
        kept: kept as u32,
        discarded: discarded as u32,
    }
}

// The keep list of jobs that stand outermost first, by the weights of their positions. Its counts are of parts.
pub fn choose(jobs: &[Job], weights: &[u32; MAX_TASKS]) -> Choice
    requires count_le_max_tasks { length jobs.now ≤ max_tasks }
    requires all_bounded { AllBounded jobs.now }
    requires count_value { fits jobs.now (keep_none jobs.now) ≡ true }
    requires by_index { (k : ℕ) → k < length jobs.now → (get_or jobs.now k no_job).position < max_tasks }
    requires by_index_2 { (k : ℕ) → k < max_tasks → get_or weights.now k 0 ≤ max_weight }
    ensures { ChosenFor (chosen_over (weighed (λ k. get_or weights.now k 0))) jobs.now (keeps_in result.keeps (length jobs.now)) result.kept result.discarded }
{
    let mut row = [HUGE; PLACES];
    let mut kept = [HUGE; PLACES];
    let mut decisions = [0u64; PLACES];
    let most = rows_of(jobs, weights, &mut row, &mut kept, &mut decisions);
    read_back(jobs, weights, &decisions, most)
}
