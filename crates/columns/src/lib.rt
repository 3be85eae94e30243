// Columns of numbers: a number put in at a place, and a part copied into a lent column.
#![tactic(auto)]

ghost use Rattle.std.specs.Prelude.{◌≡◌, ◌++◌, ◌+◌, ◌≤◌, ◌<◌, length, get_or, drop};
ghost use Rattle.base.specs.Places.{places_from};
ghost use Rattle.columns.specs.Columns.{Inserted};

// A number put in at place `at`: what stood from there to place `end`, excluded, moves up by one, and what stood at `end` is lost. They are
// moved in a loop: copy_within has tests at each call that planning pays for each run that it puts in.
pub fn insert(column: &mut [u32], at: usize, end: usize, number: u32)
    requires at_le_end { at ≤ end }
    requires end_in_bounds { end < length column.old }
    ensures { Inserted at end number column.old column.new }
{
    for k in (at..end).rev() {
        column[k + 1] = column[k];
    }
    column[at] = number;
}

// The `count` numbers of a column from place `first` on, copied to the front of a lent column, which keeps what stands beyond them.
pub fn copy(column: &[u32], first: usize, count: usize, out: &mut [u32])
    requires count_in_bounds { first + count ≤ length column.now }
    requires count_in_bounds_2 { count ≤ length out.old }
    ensures { out.new ≡ places_from (λ k. get_or column.now k 0) first count ++ drop count out.old }
{
    out[..count].copy_from_slice(&column[first..first + count]);
}
