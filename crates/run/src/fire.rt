// Version 2: a step of an action in every state of a set at once. The sets of all states are kept by proposition, a word of states for each, so that an effect
// finds by a few words in what states it fires; and, as in version 1, one word tells what some state of the set lacks and what some state of it has. Where all
// effects of a step fire in every state of the set or in none, only that word is kept up; the words by proposition are settled when they are needed.
ghost use Rattle.std.specs.Prelude.{◌≡◌, ◌≤◌, ◌<◌, ◌^◌, length};
ghost use Rattle.rules.specs.Test.{fails, choose};
ghost use Rattle.rules.specs.Word as W;
ghost use Rattle.rules.specs.Over.{keep};
ghost use Rattle.rules.specs.Lists.{list_over};
ghost use Rattle.rules.specs.Layer.{label_in};
ghost use Rattle.words.specs.Width.{prop_width, state_width};
ghost use Rattle.words.specs.Rows.{row_length};
ghost use Rattle.graph.specs.Format.{actions_of};
ghost use Rattle.run.specs.Fire as F;
ghost use Rattle.run.specs.Fire.{effects_of, set_in, fired_by, of_effect, join_fired, of_effects, removed_by, joined_by, applied_in, stepped_in};
ghost use Rattle.run.specs.Fire.{settled_label, settled, even_answer, next_of, same_rows, told, answer_in, ready_in, labels_at, idle_at, first_lack, Stepping};
ghost use Rattle.run.specs.Even.{Tells};

use crate::effects::Evens;
use crate::even::walk_evenly;
use crate::step::{Walked, brings, leaves};
use crate::task::Task;
use graph::file::byte;
use graph::limits::MAX_EFFECTS;
use graph::view::View;
use words::columns::spread;
use words::members::{Members, meet_at, single};
use words::sets::{PROP_WIDTH, Props, Set, States, wide};
use words::tables::ROW;

// The states of the set that have all of these propositions.
fn having(labels: &[u64; ROW], set: States, props: Props) -> u64
    ensures { result ≡ F.having labels.now set.0 props.0 }
{
    meet_at(&labels[..], wide(props.0), set.0)
}

// Of proposition p, which the states `label` have: whether some state of the set lacks it, and whether some has it.
fn literals(label: u64, p: usize, set: States) -> u64
    requires { p < prop_width }
    ensures { result ≡ F.literals_in set.0 p label }
{
    let had = label & set.0;
    let lacking = if had == set.0 { 0 } else { single(p) };
    let having = if had == 0 { 0 } else { single(PROP_WIDTH + p) };
    lacking | having
}

// What some state of the set lacks, and above that what some state of it has.
fn course_of(labels: &[u64; ROW], set: States) -> u64
    ensures { result ≡ F.course_in set.0 labels.now }
{
    let mut course = 0u64;
    for (p, label) in labels.iter().enumerate() {
        course = course | literals(*label, p, set);
    }
    course
}

// The states of the set in which an effect with this antecedent fires. Mostly the course tells it: all of them, or none. Else only what some state lacks is
// looked at, and of that the labels are kept up, since some state has it.
fn firing(labels: &[u64; ROW], set: States, course: u64, when: u32) -> u64
    requires { (course ≡ F.course_in set.0 (settled set.0 course labels.now)) }
    ensures { result ≡ F.having (settled set.0 course labels.now) set.0 when }
{
    let needed = wide(when);
    if course & needed == 0 {
        return set.0;
    }
    let somewhere = needed << PROP_WIDTH;
    if course & somewhere != somewhere {
        return 0;
    }
    let lacked = (course % (1u64 << PROP_WIDTH)) as u32;
    having(labels, set, Props(when).common(Props(lacked)))
}

// The label of proposition p.
fn settled_label(label: u64, p: usize, set: States, course: u64) -> u64
    requires { p < prop_width }
    ensures { result ≡ settled_label set.0 course p label }
{
    if (course >> p) % 2 == 0 {
        return label | set.0;
    }
    if (course >> (PROP_WIDTH + p)) % 2 == 0 {
        return label ^ (label & set.0);
    }
    label
}

// All labels, of which only those were kept up that differ within the set.
fn settle(labels: &mut [u64; ROW], set: States, course: u64)
    ensures { labels.new ≡ settled set.0 course labels.old }
{
    for (p, label) in labels.iter_mut().enumerate() {
        *label = settled_label(*label, p, set, course);
    }
}

// What the effects of a step do: the deletes and the adds of those that fire in every state of the set, and which ones fire in some of its states only.
#[derive(Clone, Copy)]
pub struct Fired {
    pub del: u32,
    pub add: u32,
    pub some: u64,
}

// The same with one effect more, which fires in the states t.
fn with_effect(did: Fired, file: &View<'_>, e: usize, t: u64, set: States) -> Fired
    requires { (e < file.now.counts.effects) }
    ensures { result ≡ join_fired did (of_effect (actions_of file.now.bytes.now file.now.counts) set.0 e t) }
{
    if t == set.0 {
        return Fired {
            del: did.del | file.deleted(e),
            add: did.add | file.added(e),
            some: did.some,
        };
    }
    if t == 0 {
        return did;
    }
    Fired {
        del: did.del,
        add: did.add,
        some: did.some | single(e),
    }
}

// In what states of the set each effect of the word `by` fires, and what they do by that.
fn fire(
    file: &View<'_>,
    by: u64,
    set: States,
    course: u64,
    labels: &[u64; ROW],
    fired: &mut [u64; MAX_EFFECTS],
) -> Fired
    requires { (by < 2 ^ file.now.counts.effects)
        × (course ≡ F.course_in set.0 (settled set.0 course labels.now)) }
    ensures { (result ≡ of_effects (actions_of file.now.bytes.now file.now.counts) set.0 by (settled set.0 course labels.now))
        × (fired.new ≡ fired_by (actions_of file.now.bytes.now file.now.counts) set.0 by (settled set.0 course labels.now) fired.old) }
{
    let mut did = Fired {
        del: 0,
        add: 0,
        some: 0,
    };
    for e in Members(by) {
        let t = firing(labels, set, course, file.antecedent(e));
        fired[e] = t;
        did = with_effect(did, file, e, t, set);
    }
    did
}

// Takes `t` away from the word of each member. Only the members cost time, and where `t` is empty they do not.
// Kept (point 2): `spread` joins where this takes away. One function over a trait with a law for each, as `Fold` is, would have two instances of as many lines
// as this loop.
// Kept (point 5): the row as `spread` of `words` has it, of any length up to the width.
fn strip(row: &mut [u64], set: Props, t: u64)
    requires { length row.old ≤ prop_width }
    ensures { row.new ≡ list_over (length row.old) (λ q. W.without (label_in row.old q) (keep (W.bit q set.0) t)) }
{
    if t == 0 {
        return;
    }
    for q in Members(Props::first(row.len()).common(set).word()) {
        row[q] = row[q] ^ (row[q] & t);
    }
}

// Removes the deletes of these effects, each in the states in which it fires.
// Kept (point 2): one function for this and `join_adds` would take two closures, `|e| file.deleted(e)` and `|labels, set, t| strip(labels, set, t)`, and its
// contract would speak of what they answer: it is longer than these two.
fn remove_deletes(file: &View<'_>, by: u64, fired: &[u64; MAX_EFFECTS], labels: &mut [u64; ROW])
    requires { (by < 2 ^ file.now.counts.effects) }
    ensures { labels.new ≡ removed_by (actions_of file.now.bytes.now file.now.counts) by fired.now labels.old }
{
    for e in Members(by) {
        strip(&mut *labels, Props(file.deleted(e)), fired[e]);
    }
}

// Joins the adds of these effects, each in the states in which it fires.
fn join_adds(file: &View<'_>, by: u64, fired: &[u64; MAX_EFFECTS], labels: &mut [u64; ROW])
    requires { (by < 2 ^ file.now.counts.effects) }
    ensures { labels.new ≡ joined_by (actions_of file.now.bytes.now file.now.counts) by fired.now labels.old }
{
    for e in Members(by) {
        spread(&mut *labels, Props(file.added(e)), fired[e]);
    }
}

// What a single step did: nothing, because some state of the set lacks its precondition; or it changed some state of the set, which makes this of what some
// state lacks and some has; or it changed none.
#[derive(Clone, Copy)]
pub enum Stepped {
    Missing,
    Changed(u64),
    Unchanged,
}

// Deletes and adds in every state of the set. The word tells whether that changes any of them, and nothing else is kept up.
fn apply_evenly(course: u64, del: Props, add: Props) -> Stepped
    ensures { result ≡ even_answer course del.0 add.0 }
{
    let left = course & leaves(del, add);
    if left == course {
        return Stepped::Unchanged;
    }
    Stepped::Changed(left | brings(del, add))
}

// Whether the rows differ. No way leads out of the loop, so that it takes several words at a time.
// Kept (point 4): by `!=` of the two arrays, runs in which such steps are made took 1.1 to 1.2 times as long.
// Kept (point 3): `for (x, y) in xs.iter().zip(ys)` is as fast and no plainer: what it did so far is a fact about what the two iterators still have to give.
fn differ(xs: &[u64; ROW], ys: &[u64; ROW]) -> bool
    ensures { result ≡ fails (same_rows xs.now ys.now) }
{
    let mut differing = 0u64;
    for p in 0..ROW {
        differing = differing | (xs[p] ^ ys[p]);
    }
    differing != 0
}

// What a step did that made `labels` of `before`.
fn tell(before: &[u64; ROW], labels: &[u64; ROW], set: States) -> Stepped
    ensures { result ≡ told set.0 before.now labels.now }
{
    if differ(before, labels) {
        return Stepped::Changed(course_of(labels, set));
    }
    Stepped::Unchanged
}

// The rows that steps are made on: of each proposition the states that have it, and room for the states in which each effect fires.
#[derive(Drop)]
pub struct Rows {
    pub labels: [u64; ROW],
    pub fired: [u64; MAX_EFFECTS],
}

impl Rows {
    // These effects in every state of the set: each fires by what held before them all, all deletes are removed, then all adds joined. Those that fire in every
    // state of the set are done at once. Where some fire in some states only, the labels before and after are compared: a delete and an add may cancel out.
    fn apply(&mut self, file: &View<'_>, by: u64, set: States, course: u64) -> Stepped
        requires { (by < 2 ^ file.now.counts.effects) × (course ≡ F.course_in set.0 (settled set.0 course self.old.labels)) }
        ensures { (settled set.0 (next_of course result) self.new.labels
            ≡ applied_in (actions_of file.now.bytes.now file.now.counts) set.0 by (settled set.0 course self.old.labels))
            × (result ≡ told set.0 (settled set.0 course self.old.labels)
            (applied_in (actions_of file.now.bytes.now file.now.counts) set.0 by (settled set.0 course self.old.labels))) }
    {
        let did = fire(file, by, set, course, &self.labels, &mut self.fired);
        if did.some == 0 {
            return apply_evenly(course, Props(did.del), Props(did.add));
        }
        settle(&mut self.labels, set, course);
        let before = self.labels;
        strip(
            &mut self.labels,
            Props(did.del).without(Props(did.add)),
            set.0,
        );
        remove_deletes(file, did.some, &self.fired, &mut self.labels);
        spread(&mut self.labels, Props(did.add), set.0);
        join_adds(file, did.some, &self.fired, &mut self.labels);
        tell(&before, &self.labels, set)
    }

    // An action in every state of the set, or in none, where some state of the set lacks its precondition.
    fn step(
        &mut self,
        file: &View<'_>,
        owned: &[u64; ROW],
        a: usize,
        set: States,
        course: u64,
    ) -> Stepped
        requires { (owned.now ≡ list_over row_length (effects_of (actions_of file.now.bytes.now file.now.counts))) × (a < file.now.counts.actions)
            × (course ≡ F.course_in set.0 (settled set.0 course self.old.labels)) }
        ensures { (result ≡ answer_in (actions_of file.now.bytes.now file.now.counts) set.0 a (settled set.0 course self.old.labels))
            × (settled set.0 (next_of course result) self.new.labels
            ≡ choose (ready_in (actions_of file.now.bytes.now file.now.counts) set.0 a (settled set.0 course self.old.labels))
            (stepped_in (actions_of file.now.bytes.now file.now.counts) set.0 a (settled set.0 course self.old.labels))
            (settled set.0 course self.old.labels)) }
    {
        if course & wide(file.precondition(a)) != 0 {
            return Stepped::Missing;
        }
        self.apply(file, owned[a], set, course)
    }

    // The steps of the list, on from where the word alone led: up to the first that lacks its precondition, or through all of them. Behind a step that changed
    // something the word leads on, as far as it does.
    pub fn walk(&mut self, task: &Task<'_>, evens: &Evens<'_>, from: Walked) -> Walked
        requires { Tells (actions_of task.now.file.bytes.now task.now.file.counts) evens.now.needs.now evens.now.owned.now evens.now.when.now evens.now.goes.now
            × Stepping (actions_of task.now.file.bytes.now task.now.file.counts) task.now.set.0 task.now.list.now self.old.labels
            (settled task.now.set.0 from.course self.old.labels) from.made from.course from.idle }
        ensures { (result.made ≡ first_lack (actions_of task.now.file.bytes.now task.now.file.counts) task.now.set.0 task.now.list.now self.old.labels)
            × (result.idle ≡ idle_at (actions_of task.now.file.bytes.now task.now.file.counts) task.now.set.0 task.now.list.now self.old.labels result.made)
            × (self.new.labels ≡ labels_at (actions_of task.now.file.bytes.now task.now.file.counts) task.now.set.0 task.now.list.now self.old.labels result.made) }
    {
        let mut course = from.course;
        let mut idle = from.idle;
        // Kept (point 3): no `for` over the list, since behind a step that changed something the word leads some steps on.
        let mut i = from.made;
        while i < task.list.len() {
            let did = self.step(
                &task.file,
                evens.owned,
                byte(task.list, i),
                task.set,
                course,
            );
            i += 1;
            if let Stepped::Unchanged = did {
                idle += 1;
                continue;
            }
            let Stepped::Changed(next) = did else {
                settle(&mut self.labels, task.set, course);
                return Walked {
                    course,
                    made: i - 1,
                    idle,
                };
            };
            let ahead = walk_evenly(
                task.list,
                evens,
                Walked {
                    course: next,
                    made: i,
                    idle,
                },
            );
            course = ahead.course;
            idle = ahead.idle;
            i = ahead.made;
        }
        settle(&mut self.labels, task.set, course);
        Walked {
            course,
            made: i,
            idle,
        }
    }
}

// Just p, if the word has s.
fn moved_bit(word: u64, s: usize, p: usize) -> u32
    requires { (s < state_width) × (p < prop_width) }
    ensures { result ≡ keep (W.bit s word) (W.single p) }
{
    (((word >> s) % 2) as u32) << p
}

// The set of state s. No way leads out of the loop, so that it takes many words at a time.
fn set_in(labels: &[u64; ROW], s: usize) -> u32
    requires { (s < state_width) }
    ensures { result ≡ set_in labels.now s }
{
    let mut set = 0u32;
    for (p, label) in labels.iter().enumerate() {
        set = set | moved_bit(*label, s, p);
    }
    set
}

// The sets of all states.
// Kept (point 5): the output is lent by the caller, as long as there are states.
pub fn lay_labels(labels: &[u64; ROW], out: &mut [u32])
    requires { length out.old ≤ state_width }
    ensures { out.new ≡ list_over (length out.old) (set_in labels.now) }
{
    for (s, x) in out.iter_mut().enumerate() {
        *x = set_in(labels, s);
    }
}
