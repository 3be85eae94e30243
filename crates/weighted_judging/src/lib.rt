// Judging a keep list and a run list against a weighted table file (an entry point). The judge looks at no weight: on the table of an accepted file it is
// that of plain tables, with its counts; only reading differs.
#![tactic(auto)]

ghost use Rattle.std.specs.Prelude.{◌≡◌};
ghost use Rattle.schedule.specs.LentRuns.{OneLength, runs_before};
ghost use Rattle.schedule.specs.Judging.{judge_reply, Sound};
ghost use Rattle.weighted_file.specs.Weights.{weighted_read};

use schedule::{Judged, Run};

// Judging a weighted file by runs that stand in three columns of one length, as a planner writes them. Nothing is copied.
pub fn judge_columns(
    file: &[u8],
    launch: u32,
    marks: &[u8],
    starts: &[u32],
    ends: &[u32],
    tasks: &[u32],
) -> Judged
    requires { OneLength starts ends tasks }
    ensures { result ≡ judge_reply launch (weighted_read file.now) marks.now (runs_before starts ends tasks) }
{
    judging::judge_reading_columns(
        weighted_reading::read_table(file),
        launch,
        marks,
        starts,
        ends,
        tasks,
    )
}

// Judging: any bytes, launch tick, marks and run list get the reply of documents 01 and 02.
pub fn judge(file: &[u8], launch: u32, marks: &[u8], runs: &[Run]) -> Judged
    ensures reply { result ≡ judge_reply launch (weighted_read file.now) marks.now runs.now }
    ensures sound { Sound launch (weighted_read file.now) marks.now runs.now result }
{
    judging::judge_reading(weighted_reading::read_table(file), launch, marks, runs)
}
