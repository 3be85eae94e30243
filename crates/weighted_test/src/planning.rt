// Planning.
use crate::judges;
use cases::Lists;
use plans::Planned;

// The places of the lent lists.
const ROOM: usize = 7;

// Prints the reply of planning.
fn show_reply(reply: Planned) {
    cases::show(
        b" # # # # #\n",
        &[
            u64::from(reply.number),
            reply.place as u64,
            u64::from(reply.kept),
            u64::from(reply.discarded),
            reply.runs as u64,
        ],
    );
}

// Plans a weighted file of `count` tasks at a launch tick into lists of ROOM places, and prints the reply, the lists, and what the judge says of a plan.
fn plan_file(file: &[u8], launch: u32, count: usize) {
    let mut lists = Lists::<ROOM>::new();
    let reply = weighted_planner::plan(
        file,
        launch,
        &mut lists.marks,
        &mut lists.starts,
        &mut lists.ends,
        &mut lists.tasks,
    );
    show_reply(reply);
    lists.show();
    if reply.number != 0 {
        return;
    }
    let judged = count % 8;
    cases::text(b"  judge:");
    judges::show(
        file,
        launch,
        &lists.marks[0..judged],
        reply.runs,
        &lists.starts,
        &lists.ends,
        &lists.tasks,
    );
}

// Plans a weighted file at a launch tick into lists of so many places, and prints the reply and the lists.
fn plan_within(file: &[u8], launch: u32, places: [u32; 4]) {
    let [a, b, c, d] = places.map(|count| (count % 8) as usize);
    let mut lists = Lists::<ROOM>::new();
    let reply = weighted_planner::plan(
        file,
        launch,
        &mut lists.marks[0..a],
        &mut lists.starts[0..b],
        &mut lists.ends[0..c],
        &mut lists.tasks[0..d],
    );
    show_reply(reply);
    lists.show();
}

// A case: a weighted file, the launch tick, and its number of tasks; or, where that is 0, the places of each of the four lists.
pub fn case(line: &[u8]) {
    let mut file = [0u8; 64];
    let length = cases::bytes(line, 1, &mut file);
    let launch = cases::number(line, 2);
    let count = (cases::number(line, 3) % 8) as usize;
    if count != 0 {
        plan_file(&file[..length], launch, count);
        return;
    }
    let mut places = [0u32; 4];
    cases::numbers(line, 4, &mut places);
    plan_within(&file[..length], launch, places);
}

// Plans a plain file at a launch tick, and prints the reply and the lists.
fn plan_plain(file: &[u8], launch: u32) {
    let mut lists = Lists::<ROOM>::new();
    let reply = planner::plan(
        file,
        launch,
        &mut lists.marks,
        &mut lists.starts,
        &mut lists.ends,
        &mut lists.tasks,
    );
    cases::text(b"  unweighted:");
    show_reply(reply);
    lists.show();
}

// A case: a weighted file, the launch tick, its number of tasks, and the plain file of its table, which is planned behind it.
pub fn unweighted(line: &[u8]) {
    case(line);
    let mut file = [0u8; 64];
    let length = cases::file(line, 4, &mut file);
    plan_plain(&file[..length], cases::number(line, 2));
}
