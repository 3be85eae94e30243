// What runs now and what runs next: the text for a tick of a file's plan, as bytes in a lent list.
#![tactic(auto)]

ghost use Rattle.std.specs.Prelude.{◌≡◌, ◌+◌, ◌≤◌, length};
ghost use Rattle.base.specs.Limits.{max_plan_runs};
ghost use Rattle.schedule.specs.LentRuns.{OneLength, runs_lent, runs_before};
ghost use Rattle.lines.specs.Putting.{Put};
ghost use Rattle.printed_plan.specs.Printing.{PrintsWithin};
ghost use Rattle.printed_plan.specs.NowText.{found_line, now_lines, now_text, PlanAccepted};
ghost use Rattle.printed_plan.specs.ProgramInput.{input_bytes, now_front, now_output, PrintsFromFirst};

use base::MAX_PLAN_RUNS;
use report::{MAX_TEXT, NUMBER_BYTES};
use schedule::{Run, RunsRefusal, Stretch};
use table::{FILE_BYTES_READ, Refusal};

// The bytes of the three numbers before a table file; definitions say now_front.
const NOW_FRONT: usize = 3 * NUMBER_BYTES;

// How many bytes are read of an input, the three numbers and a table file: one more than the longest that is accepted has. Definitions say
// input_bytes now_front.
pub const NOW_INPUT_BYTES: usize = NOW_FRONT + FILE_BYTES_READ;

// The line of a query for one run: a word with the run's start, end and task, or with NONE.
fn put_found(
    out: &mut [u8],
    at: usize,
    word: &[u8],
    answer: Result<Option<Run>, RunsRefusal>,
) -> usize
    requires { at + length (found_line word.now answer) ≤ length out.old }
    ensures { Put (found_line word.now answer) at out.old result out.new }
{
    let Some(run) = answer.unwrap_or(None) else {
        let next = lines::put_word(out, at, word);
        let no_numbers: [u64; 0] = [];
        return lines::put_line(out, next, b" NONE", &no_numbers);
    };
    let numbers = [
        u64::from(run.start),
        u64::from(run.end),
        u64::from(run.task),
    ];
    lines::put_line(out, at, word, &numbers)
}

// The text for a tick and the `span` ticks from it on, put at the front of a list: the NOW line, the NEXT line, and a RUN line for each run that shares a tick
// with those. An interval that goes past the greatest number of 32 bits is cut off there: no run ends later.
fn put_now(
    out: &mut [u8],
    starts: &[u32],
    ends: &[u32],
    tasks: &[u32],
    tick: u32,
    span: u32,
) -> usize
    requires one_length { OneLength starts ends tasks }
    requires room { length starts.now ≤ max_plan_runs }
    requires span_in_bounds { length (now_lines (runs_lent starts ends tasks) tick span) ≤ length out.old }
    ensures { Put (now_lines (runs_before starts ends tasks) tick span)
        0 out.old result out.new }
{
    let records: [Run; MAX_PLAN_RUNS] = schedule::runs_of(starts, ends, tasks);
    let runs = &records[..starts.len()];
    let holding = queries::run_at(runs, tick);
    let next = put_found(out, 0, b"NOW", holding);
    let following = queries::run_from(runs, tick);
    let at = put_found(out, next, b"NEXT", following);
    let Stretch { first, runs: count } = queries::stretch(runs, tick, tick.saturating_add(span));
    let end = first + count;
    report::put_runs(
        out,
        at,
        &starts[first..end],
        &ends[first..end],
        &tasks[first..end],
    )
}

// Plans a file at a launch tick and prints what runs at a tick and next, and the runs of the `span` ticks from it on, or the refusal, at the front
// of a lent list; the number of bytes printed. A list shorter than MAX_TEXT is left as it is, and the reply is 0. The runs of a plan are never
// refused: NONE says that there is no run.
pub fn print_now(file: &[u8], launch: u32, tick: u32, span: u32, out: &mut [u8]) -> usize
    ensures text { PrintsWithin (now_text launch tick span file.now) out.old result out.new }
    ensures plan_accepted { PlanAccepted launch file.now }
{
    if out.len() < MAX_TEXT {
        return 0;
    }
    let plan = report::plan_file(file, launch);
    let reply = plan.reply;
    if reply.number != 0 {
        return report::print_refusal(out, reply.number, reply.place);
    }
    let runs = reply.runs;
    let starts = plan.starts;
    let ends = plan.ends;
    let tasks = plan.tasks;
    put_now(
        out,
        &starts[..runs],
        &ends[..runs],
        &tasks[..runs],
        tick,
        span,
    )
}

// Prints what an input gets: that of the file behind its launch tick, its tick and its number of ticks, or, where it is too short for them, refusal
// 1 with the input's length. A list shorter than MAX_TEXT is left as it is, and the reply is 0.
pub fn print_now_input(input: &[u8], out: &mut [u8]) -> usize
    ensures text { PrintsWithin (now_output input.now) out.old result out.new }
{
    if input.len() < NOW_FRONT {
        let refusal = Refusal::Short(input.len());
        return report::print_refusal(out, refusal.number(), refusal.place());
    }
    let launch = report::number_in(input);
    let tick = report::number_in(&input[NUMBER_BYTES..]);
    let span = report::number_in(&input[2 * NUMBER_BYTES..]);
    print_now(&input[NOW_FRONT..], launch, tick, span, out)
}

// The same from the first bytes of an input: what is printed follows from them. They stand in the first `filled` places of `first`: the whole
// input, or as many bytes as there are places.
pub fn print_now_from_first(
    first: [u8; NOW_INPUT_BYTES],
    filled: usize,
    text: &mut [u8; MAX_TEXT],
) -> usize
    ensures printed { PrintsFromFirst now_output (input_bytes now_front) first filled text.old result text.new }
    ensures size { length first ≡ input_bytes now_front }
    ensures within { result ≤ length text.new }
{
    let end = table::bytes_read(filled, NOW_INPUT_BYTES);
    print_now_input(&first[..end], text)
}
