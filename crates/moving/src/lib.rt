// Moving a table file by a signed number of frames (an entry point).
#![tactic(auto)]

ghost use Rattle.std.specs.Prelude.{◌≡◌, ◌≤◌, length};
ghost use Rattle.base.specs.Limits.{max_tasks};
ghost use Rattle.table.specs.Answers.{written_of};
ghost use Rattle.table.specs.Moving.{moved_frame, move_reply, moved_over};
ghost use Rattle.moving.specs.Moved.{moved_as, task_as, table_as};

use base::{LAST_FRAME, MAX_TASKS};
use table::{NO_TASK, Table, Task, WriteRefusal, Written};

// A frame moved by a number of frames, if it lies neither below 0 nor above the last frame.
fn moved_frame(frame: u32, shift: i32) -> Option<u32>
    ensures { result ≡ moved_as (moved_frame shift frame) }
{
    frame
        .checked_add_signed(shift)
        .filter(|moved| *moved <= LAST_FRAME)
}

// A task with both frames moved, if neither comes to lie outside.
#[tactic(auto, unfolding(table::specs::Moving::moved_outside, table::specs::Moving::moved_task))]
fn moved_task(task: Task, shift: i32) -> Option<Task>
    ensures { result ≡ task_as shift task }
{
    Some(Task {
        release: moved_frame(task.release, shift)?,
        deadline: moved_frame(task.deadline, shift)?,
        mandatory: task.mandatory,
        optional: task.optional,
    })
}

// The table with every task moved. Refused is the first that moves outside.
fn moved_table(table: Table, shift: i32) -> Result<Table, WriteRefusal>
    requires { table.count ≤ max_tasks }
    ensures { result ≡ table_as shift table }
{
    let mut tasks = [NO_TASK; MAX_TASKS];
    for (k, task) in table.tasks[..table.count as usize].iter().enumerate() {
        match moved_task(*task, shift) {
            Some(moved) => tasks[k] = moved,
            None => return Err(WriteRefusal::Outside(k)),
        }
    }
    Ok(Table { tasks, ..table })
}

// Moving, by how many bytes were put or why it is refused.
fn shift_into(file: &[u8], frames: i32, out: &mut [u8]) -> Result<usize, WriteRefusal>
    ensures reply { written_of result ≡ move_reply file.now frames (length out.old) }
    ensures content { out.new ≡ moved_over file.now frames out.old }
{
    let table = reading::read(file)?;
    let moved = moved_table(table, frames)?;
    if out.len() < file.len() {
        return Err(WriteRefusal::Room);
    }
    writing::put_table(moved, out);
    Ok(file.len())
}

// Moving: the file of any bytes, moved by any number of frames, gets the reply of documents 01 and 02, and the file of the moved table is
// written where nothing is refused.
pub fn shift(file: &[u8], frames: i32, out: &mut [u8]) -> Written
    ensures reply { result ≡ move_reply file.now frames (length out.old) }
    ensures content { out.new ≡ moved_over file.now frames out.old }
{
    Written::from(shift_into(file, frames, out))
}
