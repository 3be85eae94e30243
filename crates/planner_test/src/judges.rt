// What the judge says of a plan.
ghost use Rattle.std.specs.Prelude.{◌≤◌, length};
ghost use Rattle.schedule.specs.LentRuns.{OneLength};

use plans::Planned;
use schedule::{Judged, Run};
use small_tables::RUNS;

// The verdict is yes, with the counts of the plan.
fn is_yes(verdict: Judged, reply: Planned) -> bool {
    verdict.yes && verdict.kept == reply.kept && verdict.discarded == reply.discarded
}

// The judge says yes, at the launch tick of the plan, to the part of the lists that was written: a mark for each of `count` tasks, and the runs, of which
// there are at most RUNS. Where planning refused there is nothing to judge, and no runs.
pub fn agrees(
    reply: Planned,
    file: &[u8],
    launch: u32,
    count: usize,
    marks: &[u8],
    starts: &[u32],
    ends: &[u32],
    tasks: &[u32],
) -> bool
    requires count_in_bounds { count ≤ length marks.now }
    requires one_length { OneLength starts ends tasks }
    requires room { length starts.now ≤ 7 }
{
    let runs = reply.runs;
    if reply.number != 0 {
        return runs == 0;
    }
    if starts.len() < runs {
        return false;
    }
    let records: [Run; RUNS] = schedule::runs_of(starts, ends, tasks);
    is_yes(
        judging::judge(file, launch, &marks[0..count], &records[..runs]),
        reply,
    )
}
