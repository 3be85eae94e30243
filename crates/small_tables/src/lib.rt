// All tables of small sizes, and the rules of documents 01 and 02 on them by trying everything: every keep list, every tick, and every running. It knows
// nothing of how the planner chooses and places.
#![tactic(auto)]

mod kinds;
mod lists;
mod nest_order;
mod owners;
mod runnings;
mod search;
mod similar_order;
mod small;

pub use kinds::{Kind, first_of_neither, kind_of};
pub use lists::EXCEEDED;
pub use owners::{RUNS, same_runs};
pub use runnings::{Runnings, all_runnings};
pub use search::{best, is_first_unmet, placed, score};
pub use small::{Family, PLACES, has_few_ticks, tasks_of};
