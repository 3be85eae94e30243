// The rules for windows that reading and writing share. The windows stand in two columns: their release frames, and their deadline frames.
ghost use Rattle.std.specs.Prelude.{ℕ, ◌≡◌, ◌<◌, ◌≤◌, length, get_or, slice_set};
ghost use Rattle.base.specs.Limits.{max_tasks};
ghost use Rattle.base.specs.Lowest.{found};
ghost use Rattle.table.specs.Windows.{bad_window, nested};
ghost use Rattle.table.specs.Kinds.{fails_earlier, bad_window_answer, kind_answer, nested_answer, nesting_answer, windows_answer};
ghost use Rattle.table.specs.WindowColumns.{windows_lent, windows_of, Mirrored, greatest_number};

use crate::{Refusal, Task, Windows, are_nested, is_bad_window};
use base::MAX_TASKS;

// The window at a place of two columns, as a task of no ticks.
fn window_at(releases: &[u32], deadlines: &[u32], k: usize) -> Task
    requires { (k < length releases.now) × (k < length deadlines.now) }
    ensures { result ≡ windows_lent releases deadlines k }
{
    Task {
        release: releases[k],
        deadline: deadlines[k],
        mandatory: 0,
        optional: 0,
    }
}

// The window at a position is not nested with some earlier one. All of them are looked at, without a branch.
fn crosses_earlier(releases: &[u32], deadlines: &[u32], k: usize) -> bool
    requires { (k < length releases.now) × (k < length deadlines.now) }
    ensures { result ≡ fails_earlier nested (windows_lent releases deadlines) k }
{
    let task = window_at(releases, deadlines, k);
    let mut crossing = false;
    for j in 0..k {
        crossing |= !are_nested(window_at(releases, deadlines, j), task);
    }
    crossing
}

// The first position below the count whose window is bad.
fn first_bad_window(releases: &[u32], deadlines: &[u32], count: usize) -> Option<usize>
    requires { (count ≤ length releases.now) × (count ≤ length deadlines.now) }
    ensures { result ≡ found (λ k. bad_window (windows_lent releases deadlines k)) count }
{
    for k in 0..count {
        if is_bad_window(window_at(releases, deadlines, k)) {
            return Some(k);
        }
    }
    None
}

// The first position below the count whose window is not nested with that of some earlier one.
fn first_crossing(releases: &[u32], deadlines: &[u32], count: usize) -> Option<usize>
    requires { (count ≤ length releases.now) × (count ≤ length deadlines.now) }
    ensures { result ≡ found (fails_earlier nested (windows_lent releases deadlines)) count }
{
    for k in 0..count {
        if crosses_earlier(releases, deadlines, k) {
            return Some(k);
        }
    }
    None
}

// The first deadlines of a column mirrored: of two the later becomes the lesser. Windows are similar exactly where they are nested with their deadlines
// mirrored.
fn mirrored(deadlines: &[u32], count: usize) -> [u32; MAX_TASKS]
    requires count_le_max_tasks { count ≤ max_tasks }
    requires count_in_bounds { count ≤ length deadlines.now }
    ensures mirrored { Mirrored count deadlines.now result }
    ensures within { (k : ℕ) → k < count → get_or deadlines.now k 0 ≤ greatest_number }
{
    let mut column = [0; MAX_TASKS];
    for k in 0..count {
        column[k] = u32::MAX - deadlines[k];
    }
    column
}

// Refused is the first window that is bad.
fn bad_window_answer(releases: &[u32], deadlines: &[u32], count: usize) -> Result<(), Refusal>
    requires { (count ≤ length releases.now) × (count ≤ length deadlines.now) }
    ensures { result ≡ bad_window_answer (windows_lent releases deadlines) count }
{
    match first_bad_window(releases, deadlines, count) {
        Some(bad) => Err(Refusal::Window(bad)),
        None => Ok(()),
    }
}

// Refused is the first position such that the windows up to it are of neither kind: the greater of the first that crosses an earlier window and the first
// that is not similar to one. Where none crosses an earlier one all are nested, and nothing else is looked for.
fn kind_answer(releases: &[u32], deadlines: &[u32], count: usize) -> Result<(), Refusal>
    requires count_le_max_tasks { count ≤ max_tasks }
    requires count_in_bounds { (count ≤ length releases.now) × (count ≤ length deadlines.now) }
    ensures { result ≡ kind_answer (windows_lent releases deadlines) count }
{
    let Some(crossing) = first_crossing(releases, deadlines, count) else {
        return Ok(());
    };
    let column = mirrored(deadlines, count);
    match first_crossing(releases, &column, count) {
        Some(dissimilar) => Err(Refusal::Kind(crossing.max(dissimilar))),
        None => Ok(()),
    }
}

// Refused is the first window that crosses an earlier one: 7 as document 01 has it, for forms of table that are nested alone.
fn nesting_answer(releases: &[u32], deadlines: &[u32], count: usize) -> Result<(), Refusal>
    requires { (count ≤ length releases.now) × (count ≤ length deadlines.now) }
    ensures { result ≡ nesting_answer (windows_lent releases deadlines) count }
{
    match first_crossing(releases, deadlines, count) {
        Some(crossing) => Err(Refusal::Kind(crossing)),
        None => Ok(()),
    }
}

// What the windows of two columns answer together with a rule of the form's own, for forms of table that are nested alone: the first window that is bad is
// refused, else what the own rule refuses, else the first window that crosses an earlier one.
pub fn nested_answer(
    own: Result<(), Refusal>,
    releases: &[u32],
    deadlines: &[u32],
    count: usize,
) -> Result<(), Refusal>
    requires { (count ≤ length releases.now) × (count ≤ length deadlines.now) }
    ensures { result ≡ nested_answer own (windows_lent releases deadlines) count }
{
    bad_window_answer(releases, deadlines, count)?;
    own?;
    nesting_answer(releases, deadlines, count)
}

// What the windows of two columns answer: the first that is bad is refused, else the first up to which they are of neither kind.
pub fn columns_answer(releases: &[u32], deadlines: &[u32], count: usize) -> Result<(), Refusal>
    requires count_le_max_tasks { count ≤ max_tasks }
    requires count_in_bounds { (count ≤ length releases.now) × (count ≤ length deadlines.now) }
    ensures { result ≡ windows_answer (windows_lent releases deadlines) count }
{
    bad_window_answer(releases, deadlines, count)?;
    kind_answer(releases, deadlines, count)
}

impl Windows {
    // So many windows, each of no frames until it is set.
    pub fn blank(count: usize) -> Windows
        requires { count ≤ max_tasks }
        ensures { (result.count ≡ count) × (length result.releases ≡ max_tasks) × (length result.deadlines ≡ max_tasks) }
    {
        Windows {
            count,
            releases: [0; MAX_TASKS],
            deadlines: [0; MAX_TASKS],
        }
    }

    // Sets the window at a place to that of a task.
    pub fn set(&mut self, k: usize, task: Task)
        requires { k < max_tasks }
        ensures count { self.new.count ≡ self.old.count }
        ensures frames { (self.new.releases ≡ slice_set self.old.releases k task.release)
            × (self.new.deadlines ≡ slice_set self.old.deadlines k task.deadline) }
    {
        self.releases[k] = task.release;
        self.deadlines[k] = task.deadline;
    }

    // What the windows answer: the first that is bad is refused, else the first up to which they are of neither kind.
    pub fn answer(&self) -> Result<(), Refusal>
        ensures { result ≡ windows_answer (windows_of self.now) self.now.count }
    {
        columns_answer(&self.releases, &self.deadlines, self.count)
    }

    // What they answer together with a rule of the form's own, for forms of table that are nested alone: the first window that is bad is refused, else what the
    // own rule refuses, else the first window that crosses an earlier one.
    pub fn nested_answer(&self, own: Result<(), Refusal>) -> Result<(), Refusal>
        ensures { result ≡ nested_answer own (windows_of self.now) self.now.count }
    {
        nested_answer(own, &self.releases, &self.deadlines, self.count)
    }
}
