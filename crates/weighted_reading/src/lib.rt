// Reading a weighted table file (an entry point): which refusal is sent, and which weighted table is read.
#![tactic(auto)]

ghost use Rattle.std.specs.Prelude.{◌≡◌, ◌+◌, ◌*◌, ◌^◌, ◌≤◌, ◌<◌, length, get_or};
ghost use Rattle.base.specs.Limits.{max_tasks};
ghost use Rattle.bits.specs.Rows.{fields_from};
ghost use Rattle.table.specs.Tables.{task_of};
ghost use Rattle.table.specs.Layout.{row_start};
ghost use Rattle.reading.specs.Headers.{HeaderOf};
ghost use Rattle.weighted_file.specs.Weights.{weighted_widths, weighted_width, weighted_in, weighted_read_result, weighted_reading_of, weighted_read_reply};
ghost use Rattle.weighted_reading.specs.TablesRead.{without_weights};

use base::MAX_TASKS;
use bits::Cursor;
use reading::Header;
use table::{HEADER_WIDTH, NO_TASK, Refusal, Table, Task};
use weighted_file::{WEIGHT_WIDTH, WEIGHTED_WIDTH, Weighted};

// The task at the cursor, and the weight behind its optional ticks; the cursor moves behind both.
fn take_weighted(file: &[u8], at: &mut Cursor) -> (Task, u32)
    requires weighted_width_bound { at.old.at + weighted_width ≤ 8 * length file.now }
    requires weighted_width_bound_2 { at.old.at + weighted_width < 2 ^ 64 }
    ensures task { result.0 ≡ task_of (fields_from weighted_widths file.now at.old.at) }
    ensures weight { result.1 ≡ get_or (fields_from weighted_widths file.now at.old.at) 4 0 }
    ensures moved { at.new.at ≡ at.old.at + weighted_width }
{
    let task = reading::take_task(file, at);
    let mut row = at.take_near_end(file, WEIGHT_WIDTH);
    (task, row.take(WEIGHT_WIDTH))
}

// The weighted table that a file holds, from its header: row after row; the places beyond its count are 0.
fn weighted_in(file: &[u8], header: Header) -> Weighted
    requires header_of { HeaderOf file.now header }
    requires count_le_max_tasks { header.count ≤ max_tasks }
    requires count_bound { row_start weighted_width header.count ≤ 8 * length file.now }
    ensures { result ≡ weighted_in file.now }
{
    let mut weighted = Weighted {
        table: Table {
            count: header.count,
            p: header.p,
            q: header.q,
            tasks: [NO_TASK; MAX_TASKS],
        },
        weights: [0; MAX_TASKS],
    };
    let mut at = Cursor { at: HEADER_WIDTH };
    for k in 0..header.count as usize {
        let (task, weight) = take_weighted(file, &mut at);
        weighted.table.tasks[k] = task;
        weighted.weights[k] = weight;
    }
    weighted
}

// Reading: a file of any bytes and any length gets the answer of request 7, the weighted table that it holds or a refusal. The rows are taken once, and the
// rules are looked at in the table made.
pub fn read(file: &[u8]) -> Result<Weighted, Refusal>
    ensures reply { result ≡ weighted_read_result file.now }
    ensures as_reply { weighted_reading_of result ≡ weighted_read_reply file.now }
{
    let header = reading::front_answer(file, WEIGHTED_WIDTH)?;
    let weighted = weighted_in(file, header);
    weighted.rules_answer()?;
    Ok(weighted)
}

// The same with the table alone, for the judge, which looks at no weight.
pub fn read_table(file: &[u8]) -> Result<Table, Refusal>
    ensures { result ≡ without_weights (weighted_read_result file.now) }
{
    let weighted = read(file)?;
    Ok(weighted.table)
}
