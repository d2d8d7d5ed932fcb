// Running a sequence of actions from each state of a set.
#![tactic(auto)]

mod effects;
mod even;
mod fire;
mod step;
mod task;

ghost use Rattle.std.specs.Prelude.{◌≡◌, ◌≤◌, ◌<◌, ◌^◌, length, get_or, position, nat_le};
ghost use Rattle.std.proofs.Math.Bool.{So};
ghost use Rattle.rules.specs.Word.{first};
ghost use Rattle.rules.specs.Over as O;
ghost use Rattle.rules.specs.Over.{meet_of, join_of};
ghost use Rattle.rules.specs.Lists.{list_over};
ghost use Rattle.words.specs.Width.{prop_width, state_width};
ghost use Rattle.words.specs.Memory.{put_at};
ghost use Rattle.graph.specs.Verdict.{laid, verdict};
ghost use Rattle.graph.specs.Format.{plain, actions_of, start_of};
ghost use Rattle.run.specs.Even.{Led};
ghost use Rattle.run.specs.Course.{Some, PerAction, course, leaves_of, brings_of, sets_of};
ghost use Rattle.run.specs.Run.{numbers_rule, sequence_rule, end_rule, run_taken, run_rule, idle_steps, Ends, reported, report_rule, run_verdict};

use crate::effects::{Evens, read_effects, read_needs, read_owned};
use crate::even::{lacking, walk_evenly};
use crate::fire::{Rows, lay_labels};
use crate::step::{Walked, brings, came, leaves, pack, walk};
use crate::task::Task;
use graph::checks::{check_output, check_set};
use graph::file::{byte, check_file};
use graph::format::PLAIN_VERSION;
use graph::limits::{MAX_ACTIONS, MAX_EFFECTS};
use graph::refusal::Refusal;
use graph::view::View;
use words::members::Members;
use words::sets::{PROP_WIDTH, Props, Set, States, wide};
use words::tables::ROW;

// The longest list that a run takes.
const MAX_STEPS: usize = 65535;

// What a run answers: the number of sets written, and that of idle steps.
#[derive(Clone, Copy, PartialEq, Eq, Debug)]
pub struct Ran {
    pub sets: usize,
    pub idle: usize,
}

// The greatest number of the list. No way leads out of the loop, so that it takes many numbers at a time.
// Kept (point 3): by `fold` with `max` the list is looked at one number at a time, and a run of 1000 steps took 1.5 times as long.
fn greatest(list: &[u8]) -> u8
    ensures { result ≡ O.greatest (length list.now) (λ i. get_or list.now i 0) }
{
    let mut most = 0u8;
    for &a in list {
        most = most.max(a);
    }
    most
}

// The index of the first number of A or above.
fn first_unknown(list: &[u8], actions: usize) -> Option<usize>
    ensures { result ≡ position (λ a. nat_le actions a) list.now }
{
    list.iter().position(|&a| actions <= a as usize)
}

// Cause 11, of a list that is not too long.
fn check_numbers(list: &[u8], actions: usize) -> Result<(), Refusal>
    ensures { verdict result ≡ numbers_rule actions list.now }
{
    if (greatest(list) as usize) < actions {
        return Ok(());
    }
    match first_unknown(list, actions) {
        Some(i) => Err(Refusal::Sequence(i)),
        None => Ok(()),
    }
}

// Cause 11.
fn check_sequence(list: &[u8], actions: usize) -> Result<(), Refusal>
    ensures { verdict result ≡ sequence_rule actions list.now }
{
    if MAX_STEPS < list.len() {
        return Err(Refusal::Sequence(MAX_STEPS));
    }
    check_numbers(list, actions)
}

// What all of several states have, and what some of them have.
#[derive(Clone, Copy)]
struct Shared {
    all: u32,
    some: u32,
}

// Version 1: of the start states of the set. Only the members cost time.
// Kept (point 5): as `start_course` says.
fn shared_by_members(file: &View<'_>, set: States) -> Shared
    requires { Some file.now.counts.states set.0 }
    ensures { (result.all ≡ meet_of file.now.counts.states set.0 (start_of file.now.bytes.now file.now.counts) (first prop_width))
        × (result.some ≡ join_of file.now.counts.states set.0 (start_of file.now.bytes.now file.now.counts)) }
{
    let mut all = Props::first(PROP_WIDTH).0;
    let mut some = 0u32;
    for s in Members(set.0) {
        let x = file.start(s);
        all = all & x;
        some = some | x;
    }
    Shared { all, some }
}

// Version 1: of all start states. No word of the set is looked at, so that the loop takes several states at a time.
// Kept (point 2): with `shared_by_members` alone, a run of ten steps from all of 64 states took 1.1 times as long.
fn shared_by_all(file: &View<'_>) -> Shared
    ensures { (result.all ≡ meet_of file.now.counts.states (first file.now.counts.states) (start_of file.now.bytes.now file.now.counts) (first prop_width))
        × (result.some ≡ join_of file.now.counts.states (first file.now.counts.states) (start_of file.now.bytes.now file.now.counts)) }
{
    let mut all = Props::first(PROP_WIDTH).0;
    let mut some = 0u32;
    for s in 0..file.counts.states {
        let x = file.start(s);
        all = all & x;
        some = some | x;
    }
    Shared { all, some }
}

// Version 1: what some state of the set lacks at the start, and above that what some state of it has.
// Kept (point 5): with the task, whose type says the same of the set, in place of `file` and `set`, here and in `lay`, runs of 1000 steps took 1.5 times as long.
fn start_course(file: &View<'_>, set: States) -> u64
    requires { Some file.now.counts.states set.0 }
    ensures { result ≡ course file.now.counts.states set.0 (start_of file.now.bytes.now file.now.counts) }
{
    let shared = if set.0 == States::first(file.counts.states).0 {
        shared_by_all(file)
    } else {
        shared_by_members(file, set)
    };
    pack(
        Props::first(PROP_WIDTH).without(Props(shared.all)),
        Props(shared.some),
    )
}

// Version 1: the states of the set move, the others keep what they started with.
// Kept (point 5): here and below: the output is lent by the caller; in `Task` it would be borrowed for as long as the file is read, and no call could write it and read the task.
fn move_members(set: States, course: u64, out: &mut [u32])
    requires { (set.0 < 2 ^ length out.old) × (length out.old ≤ state_width) }
    ensures { out.new ≡ sets_of (length out.old) (λ s. get_or out.old s 0) set.0 course }
{
    for s in Members(set.0) {
        out[s] = came(course, Props(out[s])).0;
    }
}

// Version 1: all states move. No word of the set is looked at, so that the loop takes several states at a time.
// Kept (point 2): with `move_members` alone, a run of ten steps from all of 64 states took 1.3 times as long.
fn move_all(course: u64, out: &mut [u32])
    ensures { out.new ≡ sets_of (length out.old) (λ s. get_or out.old s 0) (first (length out.old)) course }
{
    for x in out.iter_mut() {
        *x = came(course, Props(*x)).0;
    }
}

// Version 1: the states of the set move where they lie.
fn move_states(set: States, course: u64, out: &mut [u32])
    requires { (set.0 < 2 ^ length out.old) × (length out.old ≤ state_width) }
    ensures { out.new ≡ sets_of (length out.old) (λ s. get_or out.old s 0) set.0 course }
{
    if set.0 == States::first(out.len()).0 {
        move_all(course, &mut *out);
        return;
    }
    move_members(set, course, &mut *out);
}

// Version 1: the end sets of all states, at the front of the output.
// Kept (point 5): as `start_course` says.
fn lay(file: &View<'_>, set: States, course: u64, out: &mut [u32])
    requires { Some file.now.counts.states set.0 × (file.now.counts.states ≤ length out.old) }
    ensures { out.new ≡ put_at 0 (sets_of file.now.counts.states (start_of file.now.bytes.now file.now.counts) set.0 course) out.old }
{
    // By a copy of the view, of which no store to the output can be a part: else a run of ten steps took 1.1 to 1.2 times as long.
    let view = *file;
    view.lay_starts(&mut *out);
    move_states(set, course, &mut out[..view.counts.states]);
}

// Version 1: of each action what the steps go by, what it needs, what it leaves and what it brings.
// Kept (point 6): with the three words of an action in a struct, in one list, runs of 1000 steps took 1.5 to 1.6 times as long.
// Kept (point 2): with `read_needs` for the first of the three and a loop for the others, runs of 1000 steps took 1.3 times as long.
fn read_steps(file: &View<'_>, needs: &mut [u64], leave: &mut [u64], bring: &mut [u64])
    requires { So (plain file.now.counts) × PerAction file.now.counts.actions needs.old leave.old bring.old }
    ensures { (needs.new ≡ list_over file.now.counts.actions (actions_of file.now.bytes.now file.now.counts).pre)
        × (leave.new ≡ list_over file.now.counts.actions (leaves_of (actions_of file.now.bytes.now file.now.counts)))
        × (bring.new ≡ list_over file.now.counts.actions (brings_of (actions_of file.now.bytes.now file.now.counts))) }
{
    // Kept (point 3): `iter_mut` can go over one of the lists only, and the action is read by the same index: the others would be written by it as they are.
    for a in 0..needs.len() {
        let del = Props(file.deleted(a));
        let add = Props(file.added(a));
        needs[a] = wide(file.precondition(a));
        leave[a] = leaves(del, add);
        bring[a] = brings(del, add);
    }
}

// Version 1: the run, through memory for the actions' words. The output is written once the list has ended.
fn run_in(
    task: &Task<'_>,
    needs: &mut [u64],
    leave: &mut [u64],
    bring: &mut [u64],
    out: &mut [u32],
) -> Result<Ran, Refusal>
    requires { (task.now.file.counts.states ≤ length out.old) × So (plain task.now.file.counts) × PerAction task.now.file.counts.actions needs.old leave.old bring.old }
    ensures { Ends task.now.file.bytes.now task.now.file.counts task.now.set.0 task.now.list.now result out.old out.new }
{
    read_steps(&task.file, &mut *needs, &mut *leave, &mut *bring);
    let from = start_course(&task.file, task.set);
    let did = walk(task.list, &*needs, &*leave, &*bring, from);
    if did.made < task.list.len() {
        return Err(Refusal::Precondition(did.made));
    }
    lay(&task.file, task.set, did.course, &mut *out);
    Ok(Ran {
        sets: task.file.counts.states,
        idle: did.idle,
    })
}

// Version 1: the run.
fn run_plain(task: &Task<'_>, out: &mut [u32]) -> Result<Ran, Refusal>
    requires { (task.now.file.counts.states ≤ length out.old) × So (plain task.now.file.counts) }
    ensures { Ends task.now.file.bytes.now task.now.file.counts task.now.set.0 task.now.list.now result out.old out.new }
{
    let a = task.file.counts.actions;
    let mut needs = [0u64; MAX_ACTIONS];
    let mut leave = [0u64; MAX_ACTIONS];
    let mut bring = [0u64; MAX_ACTIONS];
    run_in(task, &mut needs[..a], &mut leave[..a], &mut bring[..a], out)
}

// Version 2: the run, on from where the word alone led. The output is written once the list has ended.
fn run_rows(
    task: &Task<'_>,
    evens: &Evens<'_>,
    from: Walked,
    out: &mut [u32],
) -> Result<Ran, Refusal>
    requires { (task.now.file.counts.states ≤ length out.old) × Led task.now.file.bytes.now task.now.file.counts task.now.set.0 task.now.list.now
        evens.now.needs.now evens.now.owned.now evens.now.when.now evens.now.goes.now from }
    ensures { Ends task.now.file.bytes.now task.now.file.counts task.now.set.0 task.now.list.now result out.old out.new }
{
    let mut rows = Rows {
        labels: [0u64; ROW],
        fired: [0u64; MAX_EFFECTS],
    };
    task.file.start_labels(&mut rows.labels);
    let went = rows.walk(task, evens, from);
    if went.made < task.list.len() {
        return Err(Refusal::Precondition(went.made));
    }
    lay_labels(&rows.labels, &mut out[..task.file.counts.states]);
    Ok(Ran {
        sets: task.file.counts.states,
        idle: went.idle,
    })
}

// Version 2: the run, through memory for what the steps go by. The word alone leads as far as effects fire in every state of the set or in none, mostly to the
// end; else the states are turned round there.
fn run_evenly_in(
    task: &Task<'_>,
    needs: &mut [u64],
    when: &mut [u64],
    goes: &mut [u64],
    out: &mut [u32],
) -> Result<Ran, Refusal>
    requires { (task.now.file.counts.states ≤ length out.old) × (length needs.old ≡ task.now.file.counts.actions)
        × (length when.old ≡ task.now.file.counts.effects) × (length goes.old ≡ task.now.file.counts.effects) }
    ensures { Ends task.now.file.bytes.now task.now.file.counts task.now.set.0 task.now.list.now result out.old out.new }
{
    read_needs(&task.file, &mut *needs);
    let mut owned = [0u64; ROW];
    read_owned(&task.file, &mut owned);
    read_effects(&task.file, &mut *when, &mut *goes);
    let evens = Evens {
        needs: &*needs,
        owned: &owned,
        when: &*when,
        goes: &*goes,
    };
    let led = walk_evenly(
        task.list,
        &evens,
        Walked {
            course: start_course(&task.file, task.set),
            made: 0,
            idle: 0,
        },
    );
    if led.made < task.list.len() {
        if lacking(task.list, &evens, led) {
            return Err(Refusal::Precondition(led.made));
        }
        return run_rows(task, &evens, led, &mut *out);
    }
    lay(&task.file, task.set, led.course, &mut *out);
    Ok(Ran {
        sets: task.file.counts.states,
        idle: led.idle,
    })
}

// Version 2: the run.
fn run_effects(task: &Task<'_>, out: &mut [u32]) -> Result<Ran, Refusal>
    requires { task.now.file.counts.states ≤ length out.old }
    ensures { Ends task.now.file.bytes.now task.now.file.counts task.now.set.0 task.now.list.now result out.old out.new }
{
    let a = task.file.counts.actions;
    let n = task.file.counts.effects;
    let mut needs = [0u64; MAX_ACTIONS];
    let mut when = [0u64; MAX_EFFECTS];
    let mut goes = [0u64; MAX_EFFECTS];
    run_evenly_in(task, &mut needs[..a], &mut when[..n], &mut goes[..n], out)
}

// The run, once every check is passed. Without a step nothing else need be read.
fn run_passed(task: &Task<'_>, out: &mut [u32]) -> Result<Ran, Refusal>
    requires { task.now.file.counts.states ≤ length out.old }
    ensures { Ends task.now.file.bytes.now task.now.file.counts task.now.set.0 task.now.list.now result out.old out.new }
{
    if task.list.len() == 0 {
        task.file.lay_starts(&mut *out);
        return Ok(Ran {
            sets: task.file.counts.states,
            idle: 0,
        });
    }
    if task.file.counts.version == PLAIN_VERSION {
        return run_plain(task, &mut *out);
    }
    run_effects(task, &mut *out)
}

// The caller's checks over a file that was taken, then the run.
fn run_taken(file: &View<'_>, set: States, list: &[u8], out: &mut [u32]) -> Result<Ran, Refusal>
    ensures { (run_verdict result ≡ reported (idle_steps file.now.bytes.now file.now.counts set.0 list.now) (run_taken file.now.bytes.now file.now.counts set.0 list.now (length out.old)))
        × (out.new ≡ laid (run_taken file.now.bytes.now file.now.counts set.0 list.now (length out.old)) out.old) }
{
    check_set(file.counts.states, set)?;
    check_output(file.counts.states, out.len())?;
    check_sequence(list, file.counts.actions)?;
    let task = Task {
        file: *file,
        set,
        list,
    };
    run_passed(&task, &mut *out)
}

// Runs the list from each state of the set, writes the N end sets at the front of the output, and counts the idle steps.
pub fn run(file: &[u8], set: States, list: &[u8], out: &mut [u32]) -> Result<Ran, Refusal>
    ensures { (run_verdict result ≡ report_rule file.now set.0 list.now (length out.old))
        × (out.new ≡ laid (run_rule file.now set.0 list.now (length out.old)) out.old) }
{
    let view = check_file(file)?;
    run_taken(&view, set, list, &mut *out)
}
