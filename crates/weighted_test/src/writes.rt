// Writing.
use crate::reads;
use table::Task;
use weighted_file::Weighted;

// The numbers of a weighted table: count, p, q, and five for each task, of which the last is the weight.
const NUMBERS: usize = 323;

// The weighted table whose numbers a field has.
fn weighted_of(line: &[u8], field: usize) -> Weighted {
    let mut numbers = [0u32; NUMBERS];
    cases::numbers(line, field, &mut numbers);
    let mut weighted = Weighted::none();
    [weighted.table.count, weighted.table.p, weighted.table.q] = [
        numbers[0], numbers[1], numbers[2],
    ];
    let places = weighted.table.tasks.iter_mut().zip(&mut weighted.weights);
    for ((task, weight), row) in places.zip(numbers[3..].chunks_exact(5)) {
        if let [release, deadline, mandatory, optional, last] = row {
            *task = Task {
                release: *release,
                deadline: *deadline,
                mandatory: *mandatory,
                optional: *optional,
            };
            *weight = *last;
        }
    }
    weighted
}

// Writes a weighted table into a list and prints the reply and the list; what was written is read again.
fn write_into(weighted: Weighted, list: &mut [u8]) {
    let reply = weighted_writing::write(weighted, list);
    cases::show_written(reply.number, reply.place, reply.bytes, list);
    if reply.bytes == 0 {
        return;
    }
    if let Some(written) = list.get(..reply.bytes) {
        cases::text(b"  read again:");
        reads::show(written);
    }
}

// A case: how many bytes the lent list has, and the weighted table.
pub fn case(line: &[u8]) {
    let mut list = [cases::PATTERN; 600];
    let room = (cases::number(line, 1) % 601) as usize;
    write_into(weighted_of(line, 2), &mut list[0..room]);
}
