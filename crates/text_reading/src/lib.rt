// A table written by hand: from lines of text to a table value, plain or weighted, and from a refusal of writing back to the line it is about. One scan reads
// both: `width` is how many numbers the line of a task has.
#![tactic(auto)]

ghost use Rattle.std.specs.Prelude.{◌≡◌, ◌+◌, ◌^◌, ◌≤◌, ◌<◌, IfErr, MatchResult};
ghost use Rattle.table.specs.Tables.{task_of};
ghost use Rattle.table_text.specs.TableText.{due, parse_reply, about_task, refused_line};
ghost use Rattle.table_text.specs.WeightedText.{weighted_parse_reply};
ghost use Rattle.text_reading.specs.Scanning.{
  line_numbers,
  no_line,
  with_fault,
  with_digit,
  with_number,
  with_byte,
  with_line,
  end_line,
  step,
  start,
  scanned,
};

use base::MAX_TASKS;
use lines::{NEWLINE, NINE, ZERO};
use table::{Table, Task};
use table_text::WrongLine;
use weighted_file::Weighted;

// The numbers of a task's line in the text of a plain table, and in that of a weighted one.
const TASK_NUMBERS: usize = 4;

const WEIGHTED_NUMBERS: usize = 5;

// The most numbers of a line.
const LINE_NUMBERS: usize = WEIGHTED_NUMBERS;

// The greatest number to which a digit can be added: a number has at most 9 digits, zeros before it not counted.
const LAST_TENTH: u32 = 99_999_999;

// What was read of a line.
#[derive(Clone, Copy)]
struct Line {
    // It has a fault: what no line may have.
    pub bad: bool,
    // How many numbers it has so far, and these.
    pub seen: usize,
    pub numbers: [u32; LINE_NUMBERS],
    // The number being read, if one is: its value so far.
    pub number: Option<u32>,
}

// What was read of a text of which no line is wrong so far.
#[derive(Clone, Copy)]
struct Scan {
    // The number of the line being read, from 1.
    pub line: usize,
    // What the lines before hold; the weights of a plain table are 0.
    pub weighted: Weighted,
    // The line being read.
    pub current: Line,
}

impl Line {
    // A line of which nothing was read.
    #[tactic(auto, unfolding(crate::specs::Scanning::no_line))]
    fn new() -> Line
        ensures { result ≡ no_line }
    {
        Line {
            bad: false,
            seen: 0,
            numbers: [0; LINE_NUMBERS],
            number: None,
        }
    }

    // The line with a fault.
    #[tactic(auto, unfolding(crate::specs::Scanning::with_fault))]
    fn with_fault(self) -> Line
        ensures { result ≡ with_fault self }
    {
        Line { bad: true, ..self }
    }

    // The line with a digit more of the number being read.
    #[tactic(auto, using(std::proofs::lemmas::Bool::Decides::nat_tests), unfolding(crate::specs::Scanning::with_digit))]
    fn with_digit(self, digit: u32) -> Line
        requires { digit < 10 }
        ensures { result ≡ with_digit self digit }
    {
        let value = self.number.unwrap_or(0);
        if LAST_TENTH < value {
            return self.with_fault();
        }
        Line {
            number: Some(10 * value + digit),
            ..self
        }
    }

    // The line once the number being read, where there is one, is complete.
    #[tactic(auto, using(std::proofs::lemmas::Bool::Decides::nat_tests), unfolding(crate::specs::Scanning::with_number, crate::specs::Scanning::number_ended))]
    fn with_number(self) -> Line
        ensures { result ≡ with_number self }
    {
        let Some(value) = self.number else {
            return self;
        };
        if LINE_NUMBERS <= self.seen {
            return self.with_fault();
        }
        let mut numbers = self.numbers;
        numbers[self.seen] = value;
        Line {
            seen: self.seen + 1,
            numbers,
            number: None,
            ..self
        }
    }

    // The line with a byte more, which is no newline: a digit, a blank, or a byte that no line may have.
    #[tactic(auto, using(std::proofs::lemmas::Bool::Decides::nat_tests), unfolding(crate::specs::Scanning::with_byte, lines::specs::Splitting::is_digit, lines::specs::Splitting::is_blank))]
    fn with_byte(self, byte: u8) -> Line
        ensures { result ≡ with_byte self byte }
    {
        match byte {
            ZERO..=NINE => self.with_digit(u32::from(byte - ZERO)),
            b' ' | b'\t' | b'\r' => self.with_number(),
            _ => self.with_fault(),
        }
    }
}

// How many numbers are due on a line, in a text for `count` tasks.
#[tactic(auto, using(std::proofs::lemmas::Bool::Decides::nat_tests), unfolding(table_text::specs::TableText::due))]
fn numbers_due(width: usize, line: usize, count: u32) -> usize
    ensures { result ≡ due width line count }
{
    if line <= 1 {
        return 3;
    }
    if line <= count as usize + 1 {
        return width;
    }
    0
}

// The task of a line's first four numbers.
fn task_of(numbers: [u32; LINE_NUMBERS]) -> Task
    ensures { result ≡ task_of numbers }
{
    let [release, deadline, mandatory, optional, _] = numbers;
    Task {
        release,
        deadline,
        mandatory,
        optional,
    }
}

// What a line gives, put into the weighted table in place: line 1 gives task count, p and q, and line k + 2 gives the task at position k and its weight.
#[tactic(auto, using(std::proofs::lemmas::Bool::Decides::nat_tests), unfolding(crate::specs::Scanning::with_line))]
fn put_line(weighted: &mut Weighted, line: usize, numbers: [u32; LINE_NUMBERS])
    ensures { weighted.new ≡ with_line weighted.old line numbers }
{
    let table = &mut weighted.table;
    if line <= 1 {
        table.count = numbers[0];
        table.p = numbers[1];
        table.q = numbers[2];
        return;
    }
    if table.count as usize + 1 < line {
        return;
    }
    let place = line - 2;
    if MAX_TASKS <= place {
        return;
    }
    table.tasks[place] = task_of(numbers);
    weighted.weights[place] = numbers[4];
}

impl Scan {
    // Nothing was read.
    #[tactic(auto, unfolding(crate::specs::Scanning::start))]
    fn new() -> Scan
        ensures { result ≡ start }
    {
        Scan {
            line: 1,
            weighted: Weighted::none(),
            current: Line::new(),
        }
    }

    // The line being read ends: it is wrong where it has a fault or not as many numbers as are due, and else its numbers go into the weighted table.
    #[tactic(auto, using(std::proofs::lemmas::Bool::Decides::nat_tests), unfolding(crate::specs::Scanning::end_line, crate::specs::Scanning::ends_wrong))]
    fn end_line(self, width: usize) -> Result<Scan, WrongLine>
        requires { self.line + 1 < 2 ^ 64 }
        ensures { result ≡ end_line width self }
    {
        let line = self.line;
        let ended = self.current.with_number();
        let due = numbers_due(width, line, self.weighted.table.count);
        if ended.bad || ended.seen != due {
            return Err(WrongLine { line, due });
        }
        let mut weighted = self.weighted;
        put_line(&mut weighted, line, ended.numbers);
        Ok(Scan {
            line: line + 1,
            weighted,
            current: Line::new(),
        })
    }

    // A byte more of the text, read in place: one that is no newline changes only the line being read. Where a wrong line ends, nothing changes.
    #[tactic(auto, using(std::proofs::lemmas::Bool::Decides::nat_tests), unfolding(crate::specs::Scanning::step))]
    fn step(&mut self, width: usize, byte: u8) -> Result<(), WrongLine>
        requires { self.old.line + 1 < 2 ^ 64 }
        ensures reply { MatchResult result (λ _. Ok self.new ≡ step width self.old byte) (λ wrong. Err wrong ≡ step width self.old byte) }
        ensures unchanged { IfErr result (λ _. self.new ≡ self.old) }
    {
        if byte == NEWLINE {
            *self = self.end_line(width)?;
            return Ok(());
        }
        self.current = self.current.with_byte(byte);
        Ok(())
    }
}

// A text of any bytes, with so many numbers on the line of a task: its first wrong line, or its weighted table. The end counts as two newlines, of which the
// first ends a line that lacks its own, and the second makes a blank line, which is wrong where a line is missing.
fn scan_text(text: &[u8], width: usize) -> Result<Weighted, WrongLine>
    requires width_le_line_numbers { width ≤ line_numbers }
    requires width_nonzero { 0 < width }
    ensures { result ≡ scanned width text.now }
{
    let mut scan = Scan::new();
    for byte in text {
        scan.step(width, *byte)?;
    }
    let ended = scan.end_line(width)?;
    let closed = ended.end_line(width)?;
    Ok(closed.weighted)
}

// The text of a plain table, of any bytes: its first wrong line, or its table.
pub fn parse(text: &[u8]) -> Result<Table, WrongLine>
    ensures { result ≡ parse_reply text.now }
{
    let weighted = scan_text(text, TASK_NUMBERS)?;
    Ok(weighted.table)
}

// The text of a weighted table, of any bytes: its first wrong line, or its weighted table.
pub fn parse_weighted(text: &[u8]) -> Result<Weighted, WrongLine>
    ensures { result ≡ weighted_parse_reply text.now }
{
    scan_text(text, WEIGHTED_NUMBERS)
}

// A refusal of writing is about one task.
#[tactic(auto, using(std::proofs::lemmas::Bool::Decides::nat_tests), unfolding(table_text::specs::TableText::about_task))]
fn is_about_task(number: u32) -> bool
    ensures { result ≡ about_task number }
{
    matches!(number, 6 | 7 | 12 | 16)
}

// The line that a refusal of writing is about: line k + 2 where it is about the task at position k, and else line 1.
#[tactic(auto, using(std::proofs::lemmas::Bool::Decides::nat_tests), unfolding(table_text::specs::TableText::refused_line))]
pub fn refused_line(number: u32, place: usize) -> usize
    ensures { result ≡ refused_line number place }
{
    if is_about_task(number) && place < MAX_TASKS {
        return place + 2;
    }
    1
}
