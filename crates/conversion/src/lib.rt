// Table files and lines of text, one made from the other in a lent list: plain tables, and weighted ones.
#![tactic(auto)]

ghost use Rattle.std.specs.Prelude.{◌≡◌, List, [], ◌∷◌, ◌++◌, ℕ, ◌+◌, ◌≤◌, ◌<◌, length, take, IfOk};
ghost use Rattle.base.specs.Limits.{max_tasks};
ghost use Rattle.base.specs.Places.{places};
ghost use Rattle.lines.specs.Putting.{Put};
ghost use Rattle.lines.specs.Text.{decimal, line};
ghost use Rattle.table.specs.Answers.{answered, answer_of, written_of};
ghost use Rattle.table.specs.Layout.{file_bytes_read, FirstOf, FirstOfFile};
ghost use Rattle.table.specs.Reading.{table_in, read_answer};
ghost use Rattle.table.specs.Tables.{task_row};
ghost use Rattle.weighted_file.specs.Weights.{weighted_bytes_read};
ghost use Rattle.table_text.specs.TableText.{row_line, row_lines, head_line, max_rows_text};
ghost use Rattle.table_text.specs.Conversions.{
  shown_reply,
  shown_over,
  text_reply,
  text_over,
  ShowsText,
  ShownRestores,
  file_reply,
  file_over,
  weighted_text_reply,
  weighted_text_over,
  ShowsWeighted,
  WeightedRestores,
  weighted_file_reply,
  weighted_file_over,
};
ghost use Rattle.conversion.specs.Showing.{unweighted, shown_row, shown_text, read_text};

use base::MAX_TASKS;
use lines::{MAX_FIELD, NEWLINE};
use table::{FILE_BYTES_READ, MAX_FILE, Refusal, Table, Task, WriteRefusal, Written};
use table_text::WrongLine;
use weighted_file::{MAX_WEIGHTED_FILE, WEIGHTED_BYTES_READ, Weighted};

// No text of a table of at most 64 tasks is longer: a line for the table and one for each task, of at most 4 numbers, each with a byte behind it. Definitions say
// max_table_text.
pub const MAX_TABLE_TEXT: usize = (1 + MAX_TASKS) * (4 * MAX_FIELD);

// The same of a weighted table, with at most 5 numbers. Definitions say max_weighted_text.
pub const MAX_WEIGHTED_TEXT: usize = (1 + MAX_TASKS) * (5 * MAX_FIELD);

// A line of numbers put at a place: the first, the others with a space before each, a newline.
#[tactic(auto, using(lines::proofs::LineLaws::line_length))]
fn put_numbers(out: &mut [u8], at: usize, first: u64, others: &[u64]) -> usize
    requires { at + length (line (decimal first) others.now) ≤ length out.old }
    ensures { Put (line (decimal first) others.now) at out.old result out.new }
{
    let next = lines::put_decimal(out, at, first);
    let end = lines::put_fields(out, next, others);
    lines::put_byte(out, end, NEWLINE)
}

// The line of a table's task count, p and q, put at the front of a list.
#[tactic(auto, unfolding(table_text::specs::TableText::head_line, table_text::specs::TableText::row_line))]
fn put_head(out: &mut [u8], table: Table) -> usize
    requires { length (head_line table.count table.p table.q) ≤ length out.old }
    ensures { Put (head_line table.count table.p table.q) 0 out.old result out.new }
{
    let others = [u64::from(table.p), u64::from(table.q)];
    put_numbers(out, 0, u64::from(table.count), &others)
}

// The line of a task put at a place: the first `width` of its numbers and its weight.
fn put_task(out: &mut [u8], at: usize, task: Task, weight: u32, width: usize) -> usize
    requires width_nonzero { (0 < width) × (width ≤ 5) }
    requires weight_in_bounds { at + length (row_line (take width (task_row task ++ (weight ∷ [])))) ≤ length out.old }
    ensures { Put (row_line (take width (task_row task ++ (weight ∷ [])))) at out.old result out.new }
{
    let others = [
        u64::from(task.deadline),
        u64::from(task.mandatory),
        u64::from(task.optional),
        u64::from(weight),
    ];
    put_numbers(out, at, u64::from(task.release), &others[..width - 1])
}

// The lines of a table's tasks put at a place.
fn put_tasks(out: &mut [u8], at: usize, weighted: Weighted, width: usize) -> usize
    requires width_nonzero { (0 < width) × (width ≤ 5) }
    requires count_le_max_tasks { weighted.table.count ≤ max_tasks }
    requires count_in_bounds { at + length (row_lines (places (shown_row width weighted) weighted.table.count)) ≤ length out.old }
    ensures { Put (row_lines (places (shown_row width weighted) weighted.table.count)) at out.old result out.new }
{
    let table = weighted.table;
    let count = table.count as usize;
    let mut next = at;
    for i in 0..count {
        next = put_task(out, next, table.tasks[i], weighted.weights[i], width);
    }
    next
}

// The text of a table put at the front of a list.
fn put_table(out: &mut [u8], weighted: Weighted, width: usize) -> usize
    requires width_nonzero { (0 < width) × (width ≤ 5) }
    requires count_le_max_tasks { weighted.table.count ≤ max_tasks }
    requires weighted_in_bounds { length (shown_text width weighted) ≤ length out.old }
    ensures { Put (shown_text width weighted) 0 out.old result out.new }
{
    let next = put_head(out, weighted.table);
    put_tasks(out, next, weighted, width)
}

// Shows what was read as text at the front of a lent list, where `bound` is that of its form: reading's refusal, then that of a shorter list, and else how many
// bytes the text has.
fn show(
    read: Result<Weighted, Refusal>,
    width: usize,
    bound: usize,
    out: &mut [u8],
) -> Result<usize, WriteRefusal>
    requires lt_width { (2 < width) × (width ≤ 5) × (bound ≡ max_rows_text width) }
    requires count_le_max_tasks { IfOk read (λ weighted. weighted.table.count ≤ max_tasks) }
    ensures reply { written_of result ≡ shown_reply (max_rows_text width) (answer_of read) (read_text width read) (length out.old) }
    ensures content { out.new ≡ shown_over (max_rows_text width) (answer_of read) (read_text width read) out.old }
{
    let weighted = read?;
    if out.len() < bound {
        return Err(WriteRefusal::Room);
    }
    Ok(put_table(out, weighted, width))
}

// The table of a file, as it is shown, with weights of 0.
fn read_unweighted(file: &[u8]) -> Result<Weighted, Refusal>
    ensures { result ≡ answered (read_answer file.now) (unweighted (table_in file.now)) }
{
    let table = reading::read(file)?;
    Ok(Weighted {
        table,
        weights: [0; MAX_TASKS],
    })
}

// Shows a table file as text at the front of a lent list: reading's refusals, then 9 for a list shorter than MAX_TABLE_TEXT, and else how many bytes
// the text has.
pub fn to_text(file: &[u8], out: &mut [u8]) -> Written
    ensures reply { result ≡ text_reply file.now (length out.old) }
    ensures content { out.new ≡ text_over file.now out.old }
    ensures restores { ShownRestores file.now result out.new }
{
    let read = read_unweighted(file);
    Written::from(show(read, 4, MAX_TABLE_TEXT, out))
}

// Shows a weighted file in the same way: reading's refusals, then 9 for a list shorter than MAX_WEIGHTED_TEXT, and else how many bytes the text has.
pub fn weighted_to_text(file: &[u8], out: &mut [u8]) -> Written
    ensures reply { result ≡ weighted_text_reply file.now (length out.old) }
    ensures content { out.new ≡ weighted_text_over file.now out.old }
    ensures restores { WeightedRestores file.now result out.new }
{
    let read = weighted_reading::read(file);
    Written::from(show(read, 5, MAX_WEIGHTED_TEXT, out))
}

// Shows an input as `to_text` does. The first `filled` places of `first` are its first bytes: the whole input, or as many as there are places. They settle what is
// shown. Clause `size` ties the array to the number of which `shown` speaks.
pub fn to_text_from_first(
    first: [u8; FILE_BYTES_READ],
    filled: usize,
    out: &mut [u8; MAX_TABLE_TEXT],
) -> Written
    ensures shown { (input : List ℕ) → FirstOfFile first filled input
        → ShowsText input out.old result out.new }
    ensures size { length first ≡ file_bytes_read }
    ensures within { result.bytes ≤ length out.new }
{
    let end = table::bytes_read(filled, FILE_BYTES_READ);
    to_text(&first[..end], out)
}

// Shows an input as `weighted_to_text` does, from its first bytes in the same way.
pub fn weighted_to_text_from_first(
    first: [u8; WEIGHTED_BYTES_READ],
    filled: usize,
    out: &mut [u8; MAX_WEIGHTED_TEXT],
) -> Written
    ensures shown { (input : List ℕ) → FirstOf weighted_bytes_read first filled input
        → ShowsWeighted input out.old result out.new }
    ensures size { length first ≡ weighted_bytes_read }
    ensures within { result.bytes ≤ length out.new }
{
    let end = table::bytes_read(filled, WEIGHTED_BYTES_READ);
    weighted_to_text(&first[..end], out)
}

// Makes the file of a text's table at the front of a lent list that has room for every file: the first wrong line, or what writing replies.
#[tactic(auto, using(crate::proofs::FileReplies::file_fits), unfolding(table_text::specs::Conversions::file_reply, table_text::specs::Conversions::file_over, table_text::specs::Conversions::made_reply, table_text::specs::Conversions::made_over))]
pub fn from_text(text: &[u8], out: &mut [u8; MAX_FILE]) -> Result<Written, WrongLine>
    ensures reply { result ≡ file_reply text.now (length out.old) }
    ensures content { out.new ≡ file_over text.now out.old }
    ensures within { IfOk result (λ written. written.bytes ≤ length out.new) }
{
    let table = text_reading::parse(text)?;
    Ok(writing::write(table, out))
}

// Makes the file of a weighted text in the same way, with weighted writing's reply.
#[tactic(auto, using(crate::proofs::FileReplies::weighted_fits), unfolding(table_text::specs::Conversions::weighted_file_reply, table_text::specs::Conversions::weighted_file_over, table_text::specs::Conversions::made_reply, table_text::specs::Conversions::made_over))]
pub fn weighted_from_text(
    text: &[u8],
    out: &mut [u8; MAX_WEIGHTED_FILE],
) -> Result<Written, WrongLine>
    ensures reply { result ≡ weighted_file_reply text.now (length out.old) }
    ensures content { out.new ≡ weighted_file_over text.now out.old }
    ensures within { IfOk result (λ written. written.bytes ≤ length out.new) }
{
    let weighted = text_reading::parse_weighted(text)?;
    Ok(weighted_writing::write(weighted, out))
}
