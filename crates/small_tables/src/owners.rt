// Plans of small tables, tick by tick: each tick has an owner, which is a position or nobody.

// The ticks 0 to 7. No window of a small table has the first or the last.
pub const TICKS: usize = 8;

// The most runs of four tasks.
pub const RUNS: usize = 7;

// The owner of a free tick.
pub const NOBODY: u32 = 4;

// The runs are the longest stretches of one owner, each later by the launch tick, in the order of time, and there are as many.
pub fn same_runs(
    owners: [u32; TICKS],
    launch: u32,
    runs: usize,
    starts: [u32; RUNS],
    ends: [u32; RUNS],
    tasks: [u32; RUNS],
) -> bool {
    let mut same = true;
    let mut last = NOBODY;
    let mut run: usize = 0;
    for (tick, owner) in owners.iter().enumerate() {
        let later = launch.wrapping_add(tick as u32);
        if *owner != last && last != NOBODY {
            same = same && ends.get(run) == Some(&later);
            run = run.wrapping_add(1);
        }
        if *owner != last && *owner != NOBODY {
            same = same && starts.get(run) == Some(&later) && tasks.get(run) == Some(owner);
        }
        last = *owner;
    }
    same && run == runs
}
