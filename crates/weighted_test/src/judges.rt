// Judging.
ghost use Rattle.std.specs.Prelude.{◌≤◌, length};
ghost use Rattle.schedule.specs.LentRuns.{OneLength};

use schedule::{Judged, Run};

// The places of the lists.
const ROOM: usize = 7;

// Prints the reply of judging.
fn show_verdict(verdict: Judged) {
    cases::show(
        b" # # # # #\n",
        &[
            u64::from(verdict.number),
            verdict.place as u64,
            u64::from(verdict.yes),
            u64::from(verdict.kept),
            u64::from(verdict.discarded),
        ],
    );
}

// Prints what the weighted judge says of marks and of the first runs of three columns.
pub fn show(
    file: &[u8],
    launch: u32,
    marks: &[u8],
    runs: usize,
    starts: &[u32],
    ends: &[u32],
    tasks: &[u32],
)
    requires one_length { OneLength starts ends tasks }
    requires room { length starts.now ≤ 7 }
{
    if starts.len() < runs {
        return;
    }
    let records: [Run; ROOM] = schedule::runs_of(starts, ends, tasks);
    show_verdict(weighted_judging::judge(file, launch, marks, &records[..runs]));
}

// A case: a file, the launch tick, the marks as bytes, and the starts, the ends and the tasks of the runs.
pub fn case(line: &[u8]) {
    let mut file = [0u8; 64];
    let length = cases::bytes(line, 1, &mut file);
    let mut marks = [0u8; ROOM];
    let count = cases::bytes(line, 3, &mut marks);
    let mut starts = [0u32; ROOM];
    let mut ends = [0u32; ROOM];
    let mut tasks = [0u32; ROOM];
    let runs = cases::numbers(line, 4, &mut starts);
    cases::numbers(line, 5, &mut ends);
    cases::numbers(line, 6, &mut tasks);
    show(
        &file[..length],
        cases::number(line, 2),
        &marks[..count],
        runs,
        &starts,
        &ends,
        &tasks,
    );
}
