// The C interface: the calls under plain names, for a program in C or Rust that links the static library. A list passes as a pointer and a
// length. include/planner.h declares them.
#![tactic(auto)]

ghost use Rattle.std.specs.Prelude.{◌≡◌, length};
ghost use Rattle.table.specs.Reading.{plain_read};
ghost use Rattle.table.specs.Writing.{write_reply, written_over};
ghost use Rattle.table.specs.Moving.{move_reply, moved_over};
ghost use Rattle.schedule.specs.Judging.{judge_reply};
ghost use Rattle.schedule.specs.BusyCount.{busy_reply};
ghost use Rattle.schedule.specs.RunCheck.{check_answer};
ghost use Rattle.schedule.specs.Queries.{run_at_tick, run_from_tick, stretch_of};
ghost use Rattle.plans.specs.Planning.{lent_before, lent_after, plan_reply, lists_left};
ghost use Rattle.weighted_file.specs.Weights.{weighted_read, weighted_write_reply, weighted_written_over};
ghost use Rattle.exports.specs.FileRead.{read_in_c, weighted_read_in_c};
ghost use Rattle.exports.specs.QueryReplies.{checked_reply, found_reply};

use plans::Planned;
use schedule::{Busy, Judged, NO_RUN, Run, RunsRefusal, Stretch};
use table::{Table, Written};
use weighted_file::Weighted;

// The reply of reading: the answer's number and place, and the table, which is 0 throughout on a refusal.
#[repr(C)]
#[derive(Clone, Copy)]
pub struct TableRead {
    pub number: u32,
    pub place: usize,
    pub table: Table,
}

// The reply of reading a weighted table: the same, with the weighted table.
#[repr(C)]
#[derive(Clone, Copy)]
pub struct WeightedTableRead {
    pub number: u32,
    pub place: usize,
    pub table: Weighted,
}

// The reply of the check of a run list: the answer's number and place.
#[repr(C)]
#[derive(Clone, Copy)]
pub struct Checked {
    pub number: u32,
    pub place: usize,
}

// The reply of a query for one run: the answer's number and place, whether there is a run, and the run, which is 0 throughout where there is none.
#[repr(C)]
#[derive(Clone, Copy)]
pub struct FoundRun {
    pub number: u32,
    pub place: usize,
    pub found: bool,
    pub run: Run,
}

// Reading, as `reading::read` has it: the table is put straight into this reply, and not first into a result.
#[unsafe(no_mangle)]
pub extern "C" fn planner_read(file: &[u8]) -> TableRead
    ensures { result ≡ read_in_c file.now }
{
    match reading::answer(file) {
        Ok(header) => TableRead {
            number: 0,
            place: 0,
            table: reading::table_in(file, header),
        },
        Err(refused) => TableRead {
            number: refused.number(),
            place: refused.place(),
            table: Table::none(),
        },
    }
}

// Writing.
#[unsafe(no_mangle)]
pub extern "C" fn planner_write(table: Table, out: &mut [u8]) -> Written
    ensures reply { result ≡ write_reply table (length out.old) }
    ensures content { out.new ≡ written_over table out.old }
{
    writing::write(table, out)
}

// Moving.
#[unsafe(no_mangle)]
pub extern "C" fn planner_shift(file: &[u8], frames: i32, out: &mut [u8]) -> Written
    ensures reply { result ≡ move_reply file.now frames (length out.old) }
    ensures content { out.new ≡ moved_over file.now frames out.old }
{
    moving::shift(file, frames, out)
}

// Planning at a launch tick.
#[unsafe(no_mangle)]
pub extern "C" fn planner_plan(
    file: &[u8],
    launch: u32,
    marks: &mut [u8],
    starts: &mut [u32],
    ends: &mut [u32],
    tasks: &mut [u32],
) -> Planned
    ensures reply { result ≡ plan_reply launch (plain_read file.now) (lent_before marks starts ends tasks) }
    ensures lists_after { lent_after marks starts ends tasks
        ≡ lists_left launch (plain_read file.now) result (lent_before marks starts ends tasks) }
{
    planner::plan(file, launch, marks, starts, ends, tasks)
}

// Judging at a launch tick.
#[unsafe(no_mangle)]
pub extern "C" fn planner_judge(file: &[u8], launch: u32, marks: &[u8], runs: &[Run]) -> Judged
    ensures { result ≡ judge_reply launch (plain_read file.now) marks.now runs.now }
{
    judging::judge(file, launch, marks, runs)
}

// Reading a weighted table.
#[unsafe(no_mangle)]
pub extern "C" fn planner_weighted_read(file: &[u8]) -> WeightedTableRead
    ensures { result ≡ weighted_read_in_c file.now }
{
    match weighted_reading::read(file) {
        Ok(table) => WeightedTableRead {
            number: 0,
            place: 0,
            table,
        },
        Err(refusal) => WeightedTableRead {
            number: refusal.number(),
            place: refusal.place(),
            table: Weighted::none(),
        },
    }
}

// Writing a weighted table.
#[unsafe(no_mangle)]
pub extern "C" fn planner_weighted_write(table: Weighted, out: &mut [u8]) -> Written
    ensures reply { result ≡ weighted_write_reply table (length out.old) }
    ensures content { out.new ≡ weighted_written_over table out.old }
{
    weighted_writing::write(table, out)
}

// Planning a weighted table at a launch tick.
#[unsafe(no_mangle)]
pub extern "C" fn planner_weighted_plan(
    file: &[u8],
    launch: u32,
    marks: &mut [u8],
    starts: &mut [u32],
    ends: &mut [u32],
    tasks: &mut [u32],
) -> Planned
    ensures reply { result ≡ plan_reply launch (weighted_read file.now) (lent_before marks starts ends tasks) }
    ensures lists_after { lent_after marks starts ends tasks
        ≡ lists_left launch (weighted_read file.now) result (lent_before marks starts ends tasks) }
{
    weighted_planner::plan(file, launch, marks, starts, ends, tasks)
}

// Judging by a weighted table at a launch tick.
#[unsafe(no_mangle)]
pub extern "C" fn planner_weighted_judge(
    file: &[u8],
    launch: u32,
    marks: &[u8],
    runs: &[Run],
) -> Judged
    ensures { result ≡ judge_reply launch (weighted_read file.now) marks.now runs.now }
{
    weighted_judging::judge(file, launch, marks, runs)
}

// The busy count of the interval from a to b.
#[unsafe(no_mangle)]
pub extern "C" fn planner_busy(runs: &[Run], a: u32, b: u32) -> Busy
    ensures { result ≡ busy_reply runs.now a b }
{
    busy::busy(runs, a, b)
}

// The answer of a query for one run, as C gets it.
fn found_reply(answer: Result<Option<Run>, RunsRefusal>) -> FoundRun
    ensures { result ≡ found_reply answer }
{
    match answer {
        Ok(run) => FoundRun {
            number: 0,
            place: 0,
            found: run.is_some(),
            run: run.unwrap_or(NO_RUN),
        },
        Err(refusal) => FoundRun {
            number: refusal.number(),
            place: refusal.place(),
            found: false,
            run: NO_RUN,
        },
    }
}

// What the busy count and the queries refuse of a run list.
#[unsafe(no_mangle)]
pub extern "C" fn planner_check_runs(runs: &[Run]) -> Checked
    ensures { result ≡ checked_reply (check_answer runs.now) }
{
    match queries::check(runs) {
        Ok(()) => Checked {
            number: 0,
            place: 0,
        },
        Err(refusal) => Checked {
            number: refusal.number(),
            place: refusal.place(),
        },
    }
}

// The run that holds a tick.
#[unsafe(no_mangle)]
pub extern "C" fn planner_run_at(runs: &[Run], tick: u32) -> FoundRun
    ensures { result ≡ found_reply (run_at_tick runs.now tick) }
{
    found_reply(queries::run_at(runs, tick))
}

// The first run that starts at a tick or after it.
#[unsafe(no_mangle)]
pub extern "C" fn planner_run_from(runs: &[Run], tick: u32) -> FoundRun
    ensures { result ≡ found_reply (run_from_tick runs.now tick) }
{
    found_reply(queries::run_from(runs, tick))
}

// Where the runs stand that share a tick with the interval from a to b.
#[unsafe(no_mangle)]
pub extern "C" fn planner_runs_touching(runs: &[Run], a: u32, b: u32) -> Stretch
    ensures { result ≡ stretch_of runs.now a b }
{
    queries::stretch(runs, a, b)
}
