// The sample flights: P1 to P12 of document 01, P9 with the lengths chosen in `samples`, and variants, which have the number of their sample.
use crate::{alterations, judges};
use cases::Lists;
use plans::Planned;

// The places of the lent lists.
const ROOM: usize = 6;

// A sample's number, a frame and a launch tick: its release tick and its deadline tick with the period 1001/10.
pub fn clock(line: &[u8]) {
    let frame = cases::number(line, 2) % 131_072;
    let launch = cases::number(line, 3) % 86_400_000;
    cases::show(
        b"P # # #\n",
        &[
            u64::from(cases::number(line, 1)),
            u64::from(clock::release_tick(launch, frame, 1001, 10)),
            u64::from(clock::deadline_tick(launch, frame, 1001, 10)),
        ],
    );
}

// Prints a sample's number and the reply of planning.
fn show_reply(sample: u32, reply: Planned) {
    cases::show(
        b"P # # # # # #\n",
        &[
            u64::from(sample),
            u64::from(reply.number),
            reply.place as u64,
            u64::from(reply.kept),
            u64::from(reply.discarded),
            reply.runs as u64,
        ],
    );
}

// Prints what the judge says of a plan, and nothing where planning refused.
fn show_verdict(number: u32, agrees: bool) {
    if number != 0 {
        return;
    }
    if agrees {
        cases::text(b"  judge: yes\n");
    } else {
        cases::text(b"  judge: no\n");
    }
}

// Plans a file at a launch tick into lists of so many places, and prints these, the reply and the lists.
fn plan_within(sample: u32, file: &[u8], launch: u32, places: [u32; 4]) {
    let [a, b, c, d] = places.map(|count| (count % 7) as usize);
    let mut lists = Lists::<ROOM>::new();
    let reply = planner::plan(
        file,
        launch,
        &mut lists.marks[0..a],
        &mut lists.starts[0..b],
        &mut lists.ends[0..c],
        &mut lists.tasks[0..d],
    );
    cases::show(
        b"places # # # #\n",
        &[a as u64, b as u64, c as u64, d as u64],
    );
    show_reply(sample, reply);
    lists.show();
}

// Plans the file of a sample of `count` tasks at a launch tick, and prints the reply, the lists, and what the judge says of a plan at a launch tick that is
// `later` ticks after it.
fn plan_file(sample: u32, file: &[u8], launch: u32, count: usize, later: u32) {
    let mut lists = Lists::<ROOM>::new();
    let reply = planner::plan(
        file,
        launch,
        &mut lists.marks,
        &mut lists.starts,
        &mut lists.ends,
        &mut lists.tasks,
    );
    show_reply(sample, reply);
    lists.show();
    let agrees = judges::agrees(
        reply,
        file,
        launch.wrapping_add(later),
        count % 4,
        &lists.marks,
        &lists.starts,
        &lists.ends,
        &lists.tasks,
    );
    show_verdict(reply.number, agrees);
}

// A sample's number, its file, the launch tick, its number of tasks, and how many ticks after the launch tick the judge is asked, 0 where it is left out; or,
// where the number of tasks is 0, the places of each of the four lists.
pub fn plan(line: &[u8]) {
    let sample = cases::number(line, 1);
    let launch = cases::number(line, 3);
    let count = (cases::number(line, 4) % 4) as usize;
    let mut file = [0u8; 32];
    let length = cases::file(line, 2, &mut file);
    if count != 0 {
        plan_file(
            sample,
            &file[..length],
            launch,
            count,
            cases::number(line, 5),
        );
        return;
    }
    let mut places = [0u32; 4];
    cases::numbers(line, 5, &mut places);
    plan_within(sample, &file[..length], launch, places);
}

// A sample's number and its file, which is moved by -1.
pub fn shift(line: &[u8]) {
    let mut file = [0u8; 32];
    let length = cases::file(line, 2, &mut file);
    let mut list = [cases::MARK; 32];
    let reply = moving::shift(&file[..length], -1, &mut list);
    cases::show(
        b"P # # # #\n",
        &[
            u64::from(cases::number(line, 1)),
            u64::from(reply.number),
            reply.place as u64,
            reply.bytes as u64,
        ],
    );
}

// A sample's number, its file, the launch tick, and the part of its plan that is altered: prints the title and a line with the altered reply, and of the
// altered lists the first four places.
pub fn altered(line: &[u8]) {
    let mut file = [0u8; 32];
    let length = cases::file(line, 2, &mut file);
    let made = alterations::planned(&file[..length], cases::number(line, 3));
    let plan = alterations::altered(made, cases::number(line, 4));
    cases::show_title(line);
    cases::text(b"\n");
    show_reply(cases::number(line, 1), plan.reply);
    for i in 0..4 {
        cases::show_row(plan.marks[i], plan.starts[i], plan.ends[i], plan.tasks[i]);
    }
}
