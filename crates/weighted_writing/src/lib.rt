// Writing a weighted table (an entry point): which refusal is sent, and the file that is written.
#![tactic(auto)]

ghost use Rattle.std.specs.Prelude.{◌≡◌, [], ◌∷◌, ◌++◌, ◌+◌, ◌*◌, ◌^◌, ◌≤◌, ◌<◌, length};
ghost use Rattle.base.specs.Limits.{max_tasks};
ghost use Rattle.base.specs.Lent.{written_front};
ghost use Rattle.bits.specs.PutBits.{put_bits};
ghost use Rattle.bits.specs.Rows.{row_bits};
ghost use Rattle.table.specs.Tables.{task_row};
ghost use Rattle.table.specs.Answers.{written_of};
ghost use Rattle.weighted_file.specs.Weights.{
  weighted_widths,
  weighted_width,
  weighted_length,
  file_of_weighted,
  weighted_write_reply,
  weighted_written_over,
};

use bits::Cursor;
use table::{Refusal, Task, WriteRefusal, Written};
use weighted_file::{WEIGHT_WIDTH, WEIGHTED_WIDTH, Weighted};

// A task put at the cursor and its weight behind it; the cursor moves behind both.
fn put_row(task: Task, weight: u32, at: &mut Cursor, out: &mut [u8])
    requires weighted_width_bound { at.old.at + weighted_width ≤ 8 * length out.old }
    requires weighted_width_bound_2 { at.old.at + weighted_width < 2 ^ 64 }
    ensures moved { at.new.at ≡ at.old.at + weighted_width }
    ensures bits { out.new ≡ put_bits out.old at.old.at (row_bits weighted_widths (task_row task ++ (weight ∷ []))) }
{
    writing::put_task(task, at, out);
    at.put(out, WEIGHT_WIDTH, u64::from(weight));
}

// The file of a weighted table put at the head of a list that is long enough; the list beyond it keeps its content.
fn put_weighted(weighted: Weighted, out: &mut [u8])
    requires count_le_max_tasks { weighted.table.count ≤ max_tasks }
    requires count_in_bounds { weighted_length weighted.table.count ≤ length out.old }
    ensures { out.new ≡ written_front (file_of_weighted weighted) out.old }
{
    let table = weighted.table;
    let mut at = writing::put_header(table, out);
    for k in 0..table.count as usize {
        put_row(table.tasks[k], weighted.weights[k], &mut at, out);
    }
}

// How many bytes writing a weighted table puts into a list of `room` bytes, or its refusal: 2, and past it the tasks and the weights are looked at.
fn write_reply(weighted: Weighted, room: usize) -> Result<usize, WriteRefusal>
    ensures { written_of result ≡ weighted_write_reply weighted room }
{
    let table = weighted.table;
    if table::bad_count(table.count) {
        return Err(WriteRefusal::Rule(Refusal::Count));
    }
    writing::table_reply(
        table,
        weighted.rules_answer(),
        table::rows_length(WEIGHTED_WIDTH, table.count),
        room,
    )
}

// Writing, by how many bytes were put or why it is refused.
fn write_into(weighted: Weighted, out: &mut [u8]) -> Result<usize, WriteRefusal>
    ensures reply { written_of result ≡ weighted_write_reply weighted (length out.old) }
    ensures content { out.new ≡ weighted_written_over weighted out.old }
{
    let bytes = write_reply(weighted, out.len())?;
    put_weighted(weighted, out);
    Ok(bytes)
}

// Writing: a weighted table of any numbers gets the reply of request 7, and its file where nothing is refused. What stands in it beyond its count is
// disregarded.
pub fn write(weighted: Weighted, out: &mut [u8]) -> Written
    ensures reply { result ≡ weighted_write_reply weighted (length out.old) }
    ensures content { out.new ≡ weighted_written_over weighted out.old }
{
    Written::from(write_into(weighted, out))
}
