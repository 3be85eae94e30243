// The lists that are lent to planning.
use crate::print;

// What stands at each place before a call, in the marks and in the columns of the runs.
pub const MARK: u8 = 77;

const TICK: u32 = 77;

// Prints a mark and a run.
pub fn show_row(mark: u8, start: u32, end: u32, task: u32) {
    print::show(
        b"  # # # #\n",
        &[
            u64::from(mark),
            u64::from(start),
            u64::from(end),
            u64::from(task),
        ],
    );
}

// The lists, of so many places each: marks, and the columns of the runs.
#[derive(Clone, Copy)]
pub struct Lists<const ROOM: usize> {
    pub marks: [u8; ROOM],
    pub starts: [u32; ROOM],
    pub ends: [u32; ROOM],
    pub tasks: [u32; ROOM],
}

impl<const ROOM: usize> Lists<ROOM> {
    // The lists before a call.
    pub fn new() -> Self {
        Lists {
            marks: [MARK; ROOM],
            starts: [TICK; ROOM],
            ends: [TICK; ROOM],
            tasks: [TICK; ROOM],
        }
    }

    // Prints the lists place by place, also those places that were not written.
    pub fn show(&self) {
        let runs = self.starts.iter().zip(&self.ends).zip(&self.tasks);
        for (mark, ((start, end), task)) in self.marks.iter().zip(runs) {
            show_row(*mark, *start, *end, *task);
        }
    }
}
