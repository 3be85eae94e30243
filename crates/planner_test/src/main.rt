// Plans the sample flights, P1 to P12 of document 01, P9 with the lengths chosen in `samples`, and variants of them, and prints the plans; and plans all tables
// of small sizes and compares each plan with the rules tried on everything. The cases are the lines of the file `stdin`, of which a line that starts with `#`
// is a comment.
//
// A sample, at a launch tick, has its number, and a variant that of its sample: the table with every deadline a frame later, or one with a window without a
// tick, as P11 has it, with other lengths or beside other windows. Then come of P1 to P3 the release tick and the deadline tick; of P4 to P11 and their
// variants the reply's number, place, kept, discarded and runs; of P12 the number, place and bytes. Below a plan stand the lists: at each place the mark,
// and the start, the end and the task of the run, 77 where nothing was written.
//
// A line on small tables has the number of tasks and the period; then the launch tick at which they are planned, how many tables there are, how many were
// planned, how many of these are similar and not nested, how many were refused by 7 and refused by 8; the sums of kept, discarded and runs. Behind `runnings`
// it has how many tables were tried on all runnings, and how many runnings these have in all; behind `differ` how many tables have a plan other than the
// search over every keep list finds, how many a reply other than all runnings say, to how many plans the judge doesn't say yes, and which table is the first
// that any of the three is about, counted from 1 on, or 0 where there is none.
//
// The sizes. In all of them a task has 0 or 1 mandatory ticks.
// - All tables whose windows lie within frames 0 to 4, which are three or four ticks from the end of frame 0 on: 1 task with the period 1/1, and 2 tasks with
//   1/1, 3/2 and 5/4, each with 0 to 3 optional ticks; 3 tasks with 3/2 and 5/4 and 0 to 1 optional ticks. Windows of one frame are among them, which are
//   empty: their release tick is their deadline tick, or one after it.
// - All tables of such windows of more than one frame, of which two are empty at 5/4: 3 tasks with 1/1, 3/2 and 5/4 and 0 to 3 optional ticks; 4 tasks with 1/1
//   and 0 to 1 optional ticks.
// - All tables of 4 tasks with 1/1 and 0 to 2 optional ticks whose windows are among three, one in the other or one after the other, within frames 0 to 7,
//   which are six ticks.
//
// How they are tried.
// - All sizes on all keep lists. The kind and the place of 7 are found from all pairs of windows; the choice, the placing and the place of 8 by trying every
//   keep list.
// - The tables within frames 0 to 4 on all runnings too. Whether 8 is due, its place, and the fewest parts discarded are found once more, from the definition
//   of a running, by trying every way to give each tick to a task or to none. Of six ticks and 4 tasks there would be 15,625 ways a table.
//
// How the numbers of the runnings are known. With 1 task at 1/1, four windows have no tick, three have 1, two have 2 and one has 3; a task with m mandatory
// and o optional ticks in a window of t ticks has (t over m) runnings, and (t over m + o) more where o is above 0, which over all m and o come to 4, 9, 16 and
// 27 for t from 0 to 3, so to 4 * 4 + 3 * 9 + 2 * 16 + 27 = 102. The others were counted by a program in another language, written from document 01's
// sentence and the frame clock alone: for each choice of windows it goes through all maps from ticks to tasks or none that give a task ticks of its window
// only, and for each choice of lengths it adds up those that give every task its mandatory ticks, or these and its optional ticks. It gave the counts of
// planned, 7 and 8 and the sums of kept and discarded too.
//
// A line that starts with `altered` has a sample's plan with one part altered, which is printed below it, as many places of the lists as a small table has: the
// plans that the last lines are about are altered in the same way.
//
// Plans with one part altered, of 4,096 tables of three tasks, of which 3,256 are planned, 384 refused by 7 and 456 by 8. The same program gave that 3,198 of
// those planned have a run, and that in 1,628 task 0 has an optional tick. The comparisons must differ where they look at the part:
// - The search looks at all of a reply, so with a part of it altered all 4,096 differ. With the mark of task 0 turned all that are planned differ, and with a
//   part of a run altered all that have a run.
// - The runnings say whether there is a plan (3,712 tables of one of the kinds), the place of 8 (456), and how many parts a plan discards (3,256).
// - The judge says no to other counts (3,256); to one run more, which is empty, and none is due with a refusal (4,096); to a mark that changes task 0's work
//   (1,628); and to a run that is longer, shorter or another task's (3,198). Where the number is altered to that of a refusal, no runs are due (3,198).
#![tactic(auto)]

mod alterations;
mod checks;
mod judges;
mod samples;

// The case on a line that starts with a given byte.
fn case(start: u8, line: &[u8]) {
    match start {
        b'c' => samples::clock(line),
        b'p' => samples::plan(line),
        b's' => samples::shift(line),
        b'a' => samples::altered(line),
        b'1'..=b'4' => checks::family(line),
        _ => {}
    }
}

fn main() {
    cases::for_each_line(case);
}
