// The table value and its constructors; the widths and lengths of its file; the tests of its header; the rules for windows that reading and writing share;
// the answers, and the reply of calls that write.
#![tactic(auto)]

ghost use Rattle.std.specs.Prelude.{◌≡◌, ◌≤◌, ◌<◌, min, length, get_or, position};
ghost use Rattle.base.specs.Limits.{max_tasks, bad_period};
ghost use Rattle.table.specs.Tables.{no_task, no_table, task_at, table_of};
ghost use Rattle.table.specs.declared.WriteRefusal.TheVariants.{Rule};
ghost use Rattle.table.specs.Answers.{refusal_number, refusal_place, write_number, write_place, declined, wrote, written_of};
ghost use Rattle.table.specs.Windows.{bad_window, contains, nested};
ghost use Rattle.table.specs.Kinds.{bad_window_answer, nested_answer, table_windows_answer};
ghost use Rattle.table.specs.WindowColumns.{Holds};
ghost use Rattle.table.specs.Layout.{bad_count, rows_length, file_length};
ghost use Rattle.table.specs.RowLimits.{widest_row};

mod rules;
mod windows;

use base::{MAX_PERIOD, MAX_TASKS};
pub use rules::{columns_answer, nested_answer};
pub use windows::Windows;

// The widths of a file's fields in bits: the task count, p and q, a frame, a number of ticks.
pub const COUNT_WIDTH: usize = 7;

pub const PERIOD_WIDTH: usize = 12;

pub const FRAME_WIDTH: usize = 17;

pub const TICKS_WIDTH: usize = 14;

// The widths of a file's header and of one task.
pub const HEADER_WIDTH: usize = COUNT_WIDTH + 2 * PERIOD_WIDTH;

pub const TASK_WIDTH: usize = 2 * FRAME_WIDTH + 2 * TICKS_WIDTH;

// The most bytes of a file: those of as many tasks as a table has places. Definitions say max_file.
pub const MAX_FILE: usize = (HEADER_WIDTH + TASK_WIDTH * MAX_TASKS + 7) / 8;

// How many bytes a program reads of a file: one more than the longest file has. Definitions say file_bytes_read.
pub const FILE_BYTES_READ: usize = MAX_FILE + 1;

// How many bytes are read of an input of some length, where no more than `size` are.
pub fn bytes_read(length: usize, size: usize) -> usize
    ensures { result ≡ min length size }
{
    length.min(size)
}

// A task: its window in frames, and its two lengths in ticks.
#[repr(C)]
#[derive(Clone, Copy, Debug, PartialEq, Eq)]
pub struct Task {
    pub release: u32,
    pub deadline: u32,
    pub mandatory: u32,
    pub optional: u32,
}

// A task of which every number is 0: what stands at a place that holds no task.
pub const NO_TASK: Task = Task {
    release: 0,
    deadline: 0,
    mandatory: 0,
    optional: 0,
};

// A table: how many tasks it has, its period p/q, and places for its tasks.
#[repr(C)]
#[derive(Clone, Copy, Debug, PartialEq, Eq)]
pub struct Table {
    pub count: u32,
    pub p: u32,
    pub q: u32,
    pub tasks: [Task; MAX_TASKS],
}

// Why reading refuses: a case for each cause, with its place where it has one of its own.
#[derive(Clone, Copy, Debug, PartialEq, Eq)]
pub enum Refusal {
    // Fewer than 4 bytes, or fewer than the count needs; the file's length.
    Short(usize),
    // The task count is 0 or above the limit.
    Count,
    // More bytes than the count needs; the length needed.
    Long(usize),
    // A padding bit is set.
    Padding,
    // p or q is 0 or above the limit, or p is below q.
    Period,
    // A release frame is not below the deadline frame; the task's position.
    Window(usize),
    // The tasks up to some position are of no kind that is served; the position.
    Kind(usize),
    // A weight of a weighted table is 0 or above the limit; the task's position. Plain reading never answers it.
    Weight(usize),
}

// The reply of writing, of moving and of showing a file as text: the refusal's number and place, or 0 and the number of bytes written.
#[repr(C)]
#[derive(Clone, Copy)]
pub struct Written {
    pub number: u32,
    pub place: usize,
    pub bytes: usize,
}

impl Refusal {
    // The refusal's number.
    pub fn number(self) -> u32
        ensures { result ≡ refusal_number self }
    {
        match self {
            Refusal::Short(_) => 1,
            Refusal::Count => 2,
            Refusal::Long(_) => 3,
            Refusal::Padding => 4,
            Refusal::Period => 5,
            Refusal::Window(_) => 6,
            Refusal::Kind(_) => 7,
            Refusal::Weight(_) => 16,
        }
    }

    // The refusal's place, and 0 where it has none.
    pub fn place(self) -> usize
        ensures { result ≡ refusal_place self }
    {
        match self {
            Refusal::Short(length) => length,
            Refusal::Long(needed) => needed,
            Refusal::Window(position) | Refusal::Kind(position) | Refusal::Weight(position) =>
                position,
            Refusal::Count | Refusal::Padding | Refusal::Period => 0,
        }
    }
}

// Why a call that writes bytes refuses.
#[derive(Clone, Copy, Debug, PartialEq, Eq)]
pub enum WriteRefusal {
    // A rule that reading has too.
    Rule(Refusal),
    // A field of a task is wider than its bits; the task's position.
    Wide(usize),
    // A moved frame of a task is outside; the task's position.
    Outside(usize),
    // The lent list is too short.
    Room,
}

impl WriteRefusal {
    // The refusal's number.
    pub fn number(self) -> u32
        ensures { result ≡ write_number self }
    {
        match self {
            WriteRefusal::Rule(refusal) => refusal.number(),
            WriteRefusal::Room => 9,
            WriteRefusal::Outside(_) => 10,
            WriteRefusal::Wide(_) => 12,
        }
    }

    // The refusal's place, and 0 where it has none.
    pub fn place(self) -> usize
        ensures { result ≡ write_place self }
    {
        match self {
            WriteRefusal::Rule(refusal) => refusal.place(),
            WriteRefusal::Outside(position) | WriteRefusal::Wide(position) => position,
            WriteRefusal::Room => 0,
        }
    }
}

impl From<Refusal> for WriteRefusal {
    ghost from_gives = { λ refusal refused. refused ≡ Rule refusal };

    fn from(refusal: Refusal) -> WriteRefusal {
        WriteRefusal::Rule(refusal)
    }
}

// The reply of a call by what it comes to: how many bytes it wrote, or why it refuses.
impl From<Result<usize, WriteRefusal>> for Written {
    ghost from_gives = { λ written reply. reply ≡ written_of written };

    fn from(written: Result<usize, WriteRefusal>) -> Written {
        match written {
            Ok(bytes) => Written::wrote(bytes),
            Err(refusal) => Written::declined(refusal.number(), refusal.place()),
        }
    }
}

impl Written {
    // The reply of a refusal.
    pub fn declined(number: u32, place: usize) -> Written
        ensures { result ≡ declined number place }
    {
        Written {
            number,
            place,
            bytes: 0,
        }
    }

    // The reply that so many bytes were written.
    pub fn wrote(bytes: usize) -> Written
        ensures { result ≡ wrote bytes }
    {
        Written {
            number: 0,
            place: 0,
            bytes,
        }
    }
}

// The task count is 0 or above the limit.
pub fn bad_count(count: u32) -> bool
    ensures { result ≡ bad_count count }
{
    count == 0 || (MAX_TASKS as u32) < count
}

// p or q is 0 or above the limit, or p is below q.
pub fn bad_period(p: u32, q: u32) -> bool
    ensures { result ≡ bad_period p q }
{
    p == 0 || q == 0 || MAX_PERIOD < p || MAX_PERIOD < q || p < q
}

// The bytes of a file of `count` rows of `width` bits.
pub fn rows_length(width: usize, count: u32) -> usize
    requires width_le_widest_row { width ≤ widest_row }
    requires count_le_max_tasks { count ≤ max_tasks }
    ensures { result ≡ rows_length width count }
{
    (HEADER_WIDTH + width * count as usize).div_ceil(8)
}

// The bytes of a file of `count` tasks.
pub fn file_length(count: u32) -> usize
    requires { count ≤ max_tasks }
    ensures { result ≡ file_length count }
{
    rows_length(TASK_WIDTH, count)
}

// The release frame is not below the deadline frame.
pub fn is_bad_window(task: Task) -> bool
    ensures { result ≡ bad_window task }
{
    task.deadline <= task.release
}

// The first of some tasks whose window is bad.
fn first_bad(tasks: &[Task]) -> Option<usize>
    ensures { result ≡ position bad_window tasks.now }
{
    tasks.iter().position(|task| is_bad_window(*task))
}

// The window of `a` contains that of `b`.
fn window_contains(a: Task, b: Task) -> bool
    ensures { result ≡ contains a b }
{
    (a.release <= b.release) & (b.deadline <= a.deadline)
}

// One of two windows contains the other.
fn are_nested(a: Task, b: Task) -> bool
    ensures { result ≡ nested a b }
{
    window_contains(a, b) | window_contains(b, a)
}

impl Table {
    // The table of the first `count` of some tasks: every place beyond them is 0.
    pub fn new(count: u32, p: u32, q: u32, tasks: [Task; MAX_TASKS]) -> Table
        ensures { result ≡ table_of count p q (λ k. get_or tasks k no_task) }
    {
        let places = (count as usize).min(MAX_TASKS);
        let mut kept = [NO_TASK; MAX_TASKS];
        for k in 0..places {
            kept[k] = tasks[k];
        }
        Table {
            count,
            p,
            q,
            tasks: kept,
        }
    }

    // The table that is 0 throughout.
    pub fn none() -> Table
        ensures { result ≡ no_table }
    {
        Table::new(0, 0, 0, [NO_TASK; MAX_TASKS])
    }

    // The windows of a table's tasks, so that the searches need not be lent the table.
    fn windows(self) -> Windows
        requires { self.count ≤ max_tasks }
        ensures { Holds result (task_at self) self.count }
    {
        let count = self.count as usize;
        let mut windows = Windows::blank(count);
        for (k, task) in self.tasks[..count].iter().enumerate() {
            windows.set(k, *task);
        }
        windows
    }

    // The first window of a table that is bad is refused. The tasks are looked at where they stand.
    pub fn bad_window_answer(self) -> Result<(), Refusal>
        requires { self.count ≤ max_tasks }
        ensures { result ≡ bad_window_answer (task_at self) self.count }
    {
        match first_bad(&self.tasks[..self.count as usize]) {
            Some(bad) => Err(Refusal::Window(bad)),
            None => Ok(()),
        }
    }

    // What the windows of a table answer: the first that is bad is refused, else the first up to which they are of neither kind.
    pub fn window_answer(self) -> Result<(), Refusal>
        requires { self.count ≤ max_tasks }
        ensures { result ≡ table_windows_answer self }
    {
        self.windows().answer()
    }

    // What they answer together with a rule of the form's own, for forms of table that are nested alone.
    pub fn nested_answer(self, own: Result<(), Refusal>) -> Result<(), Refusal>
        requires { self.count ≤ max_tasks }
        ensures { result ≡ nested_answer own (task_at self) self.count }
    {
        self.windows().nested_answer(own)
    }
}
