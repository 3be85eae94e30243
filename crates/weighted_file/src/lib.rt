// The weighted table value, a table and beside it a weight for each task; the widths and lengths of its file; and the rules that reading and writing share.
#![tactic(auto)]

ghost use Rattle.std.specs.Prelude.{◌≡◌, ◌≤◌, length, get_or, position};
ghost use Rattle.base.specs.Limits.{max_tasks};
ghost use Rattle.table.specs.declared.Refusal.TheVariants.{Weight};
ghost use Rattle.table.specs.Answers.{lowest_refusal};
ghost use Rattle.weighted_file.specs.Weights.{no_weighted, bad_weight, weighted_rules};

use base::{MAX_TASKS, MAX_WEIGHT};
use table::{HEADER_WIDTH, Refusal, TASK_WIDTH, Table};

// The widths of a weight, and of a task with its weight.
pub const WEIGHT_WIDTH: usize = 4;

pub const WEIGHTED_WIDTH: usize = TASK_WIDTH + WEIGHT_WIDTH;

// The most bytes of a weighted file: those of as many tasks as a table has places. Definitions say max_weighted_file.
pub const MAX_WEIGHTED_FILE: usize = (HEADER_WIDTH + WEIGHTED_WIDTH * MAX_TASKS + 7) / 8;

// How many bytes a program reads of a weighted file: one more than the longest has. Definitions say weighted_bytes_read.
pub const WEIGHTED_BYTES_READ: usize = MAX_WEIGHTED_FILE + 1;

// A table whose tasks each carry a weight, by position.
#[repr(C)]
#[derive(Clone, Copy)]
pub struct Weighted {
    pub table: Table,
    pub weights: [u32; MAX_TASKS],
}

// A weight is 0 or above the limit.
fn bad_weight(weight: u32) -> bool
    ensures { result ≡ bad_weight weight }
{
    weight == 0 || MAX_WEIGHT < weight
}

// The first of some weights that is bad.
fn first_bad(weights: &[u32]) -> Option<usize>
    ensures { result ≡ position bad_weight weights.now }
{
    weights.iter().position(|weight| bad_weight(*weight))
}

// The first of some weights that is bad is refused.
fn weight_answer(weights: &[u32]) -> Result<(), Refusal>
    ensures { result ≡ lowest_refusal Weight (λ k. bad_weight (get_or weights.now k 0)) (length weights.now) }
{
    match first_bad(weights) {
        Some(bad) => Err(Refusal::Weight(bad)),
        None => Ok(()),
    }
}

impl Weighted {
    // The weighted table that is 0 throughout.
    pub fn none() -> Weighted
        ensures { result ≡ no_weighted }
    {
        let table = Table::none();
        Weighted {
            table,
            weights: [0; MAX_TASKS],
        }
    }

    // What the windows and the weights of a weighted table answer: the first window that is bad is refused, else the first weight that is, else the first
    // window that crosses an earlier one.
    pub fn rules_answer(self) -> Result<(), Refusal>
        requires { self.table.count ≤ max_tasks }
        ensures { result ≡ weighted_rules self }
    {
        let weights = weight_answer(&self.weights[..self.table.count as usize]);
        self.table.nested_answer(weights)
    }
}
