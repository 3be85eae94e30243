// The printed plan: the text of a file's plan or refusal at a launch tick, as bytes in a lent list.
#![tactic(auto)]

ghost use Rattle.std.specs.Prelude.{◌≡◌, [], ◌∷◌, ◌+◌, ◌*◌, ◌≤◌, length};
ghost use Rattle.schedule.specs.LentRuns.{OneLength, runs_lent, runs_before};
ghost use Rattle.lines.specs.Putting.{Put};
ghost use Rattle.lines.specs.Text.{line};
ghost use Rattle.printed_plan.specs.Printing.{drop_word, drop_lines, run_word, run_lines, plan_lines, refusal_text, printed, PrintsWithin};
ghost use Rattle.printed_plan.specs.ProgramInput.{number_bytes, number_in, input_bytes, plan_front, plan_output, PrintsFromFirst};
ghost use Rattle.report.specs.FilePlans.{file_plan};

use base::{MAX_PLAN_RUNS, MAX_TASKS};
use lines::MAX_FIELD;
use plans::Planned;
use table::{FILE_BYTES_READ, Refusal};

// No line is longer: a word of at most 7 bytes, 3 numbers, each with a space, and a newline; definitions say max_line.
const MAX_LINE: usize = 7 + 3 * MAX_FIELD + 1;

// No text is longer: the PLAN line, a DROP line for each task and a RUN line for each run; definitions say max_text.
pub const MAX_TEXT: usize = (1 + MAX_TASKS + MAX_PLAN_RUNS) * MAX_LINE;

// The bytes of a number before a table file; definitions say number_bytes.
pub const NUMBER_BYTES: usize = 4;

// How many bytes are read of an input, the launch tick and a table file: one more than the longest that is accepted has. Definitions say
// input_bytes plan_front.
pub const INPUT_BYTES: usize = NUMBER_BYTES + FILE_BYTES_READ;

// The DROP line of a position.
fn put_drop(out: &mut [u8], at: usize, position: usize) -> usize
    requires { at + length (line drop_word (position ∷ [])) ≤ length out.old }
    ensures { Put (line drop_word (position ∷ [])) at out.old result out.new }
{
    lines::put_line(out, at, b"DROP", &[position as u64])
}

// The DROP lines of a keep list: one for each mark 0, rising.
fn put_drops(out: &mut [u8], at: usize, marks: &[u8]) -> usize
    requires { at + length (drop_lines marks.now) ≤ length out.old }
    ensures { Put (drop_lines marks.now) at out.old result out.new }
{
    let mut next = at;
    for (position, mark) in marks.iter().enumerate() {
        let dropped = *mark == 0;
        if dropped {
            next = put_drop(out, next, position);
        }
    }
    next
}

// The RUN line of a run: start, end, task.
fn put_run(out: &mut [u8], at: usize, start: u32, end: u32, task: u32) -> usize
    requires { at + length (line run_word (start ∷ end ∷ task ∷ [])) ≤ length out.old }
    ensures { Put (line run_word (start ∷ end ∷ task ∷ [])) at out.old result out.new }
{
    let numbers = [u64::from(start), u64::from(end), u64::from(task)];
    lines::put_line(out, at, b"RUN", &numbers)
}

// The RUN lines of runs in three columns.
pub fn put_runs(out: &mut [u8], at: usize, starts: &[u32], ends: &[u32], tasks: &[u32]) -> usize
    requires one_length { OneLength starts ends tasks }
    requires tasks_in_bounds { at + length (run_lines (runs_lent starts ends tasks)) ≤ length out.old }
    ensures { Put (run_lines (runs_before starts ends tasks)) at out.old result out.new }
{
    let mut next = at;
    for (i, start) in starts.iter().enumerate() {
        next = put_run(out, next, *start, ends[i], tasks[i]);
    }
    next
}

// The text of a plan put at the front of a list: the PLAN line with tasks, kept, discarded; the DROP lines; the RUN lines.
#[tactic(auto, using(printed_plan::proofs::LineLaws::plan_length))]
fn put_plan(
    out: &mut [u8],
    count: u32,
    kept: u32,
    discarded: u32,
    marks: &[u8],
    starts: &[u32],
    ends: &[u32],
    tasks: &[u32],
) -> usize
    requires one_length { OneLength starts ends tasks }
    requires tasks_in_bounds { length (plan_lines count kept discarded marks.now (runs_lent starts ends tasks)) ≤ length out.old }
    ensures { Put (plan_lines count kept discarded marks.now (runs_before starts ends tasks))
        0 out.old result out.new }
{
    let numbers = [u64::from(count), u64::from(kept), u64::from(discarded)];
    let drops = lines::put_line(out, 0, b"PLAN", &numbers);
    let runs = put_drops(out, drops, marks);
    put_runs(out, runs, starts, ends, tasks)
}

// What planning a file leaves to print: the reply, the task count, and the marks and the columns of the runs, in lists that are long enough for every table.
#[derive(Clone, Copy)]
pub struct FilePlan {
    pub reply: Planned,
    pub count: u32,
    pub marks: [u8; MAX_TASKS],
    pub starts: [u32; MAX_PLAN_RUNS],
    pub ends: [u32; MAX_PLAN_RUNS],
    pub tasks: [u32; MAX_PLAN_RUNS],
}

// Plans a file at a launch tick: the printed plan and what runs now are made of it.
pub fn plan_file(file: &[u8], launch: u32) -> FilePlan
    ensures { result ≡ file_plan launch file.now }
{
    let mut marks = [0u8; MAX_TASKS];
    let mut starts = [0u32; MAX_PLAN_RUNS];
    let mut ends = [0u32; MAX_PLAN_RUNS];
    let mut tasks = [0u32; MAX_PLAN_RUNS];
    let planned = planner::plan_counted(
        file,
        launch,
        &mut marks,
        &mut starts,
        &mut ends,
        &mut tasks,
    );
    FilePlan {
        reply: planned.reply,
        count: planned.count,
        marks,
        starts,
        ends,
        tasks,
    }
}

// Prints a refusal at the front of a lent list: its number and place. A list shorter than MAX_TEXT is left as it is, and the reply is 0.
#[tactic(auto, using(printed_plan::proofs::PrintLaws::prints_none, printed_plan::proofs::TextLaws::refusal_length), unfolding(printed_plan::specs::Printing::refusal_text))]
pub fn print_refusal(out: &mut [u8], number: u32, place: usize) -> usize
    ensures { PrintsWithin (refusal_text number place) out.old result out.new }
{
    if out.len() < MAX_TEXT {
        return 0;
    }
    lines::put_line(out, 0, b"REFUSED", &[u64::from(number), place as u64])
}

// Plans a file at a launch tick and prints its plan or its refusal at the front of a lent list; the number of bytes printed. A list shorter than
// MAX_TEXT is left as it is, and the reply is 0.
pub fn print(file: &[u8], launch: u32, out: &mut [u8]) -> usize
    ensures text { PrintsWithin (printed launch file.now) out.old result out.new }
{
    if out.len() < MAX_TEXT {
        return 0;
    }
    let plan = plan_file(file, launch);
    let reply = plan.reply;
    if reply.number != 0 {
        return print_refusal(out, reply.number, reply.place);
    }
    let runs = reply.runs;
    put_plan(
        out,
        plan.count,
        reply.kept,
        reply.discarded,
        &plan.marks[..plan.count as usize],
        &plan.starts[..runs],
        &plan.ends[..runs],
        &plan.tasks[..runs],
    )
}

// The number at the front of some bytes: 4 of them, high byte first.
#[tactic(auto, unfolding(printed_plan::specs::ProgramInput::number_in))]
pub fn number_in(bytes: &[u8]) -> u32
    requires { number_bytes ≤ length bytes.now }
    ensures { result ≡ number_in bytes.now }
{
    u32::from_be_bytes([bytes[0], bytes[1], bytes[2], bytes[3]])
}

// Prints what an input gets: that of the file behind its launch tick, or, where it is too short for one, refusal 1 with the input's length. A list
// shorter than MAX_TEXT is left as it is, and the reply is 0.
pub fn print_input(input: &[u8], out: &mut [u8]) -> usize
    ensures text { PrintsWithin (plan_output input.now) out.old result out.new }
{
    if input.len() < NUMBER_BYTES {
        let refusal = Refusal::Short(input.len());
        return print_refusal(out, refusal.number(), refusal.place());
    }
    let launch = number_in(input);
    print(&input[NUMBER_BYTES..], launch, out)
}

// The same from the first bytes of an input: what is printed follows from them. They stand in the first `filled` places of `first`: the whole input, or as
// many bytes as there are places.
pub fn print_from_first(first: [u8; INPUT_BYTES], filled: usize, text: &mut [u8; MAX_TEXT]) -> usize
    ensures printed { PrintsFromFirst plan_output (input_bytes plan_front) first filled text.old result text.new }
    ensures size { length first ≡ input_bytes plan_front }
    ensures within { result ≤ length text.new }
{
    let end = table::bytes_read(filled, INPUT_BYTES);
    print_input(&first[..end], text)
}
