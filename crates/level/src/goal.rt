// A word of a proposition layer that keeps a goal from being met for a set of states. Only the words of the goal's members are read.
ghost use Rattle.std.specs.Prelude.{◌≡◌, ◌≤◌, ◌<◌, ◌^◌, length};
ghost use Rattle.std.proofs.Math.Bool.{So};
ghost use Rattle.rules.specs.Layer.{size};
ghost use Rattle.words.specs.Width.{prop_width};
ghost use Rattle.level.specs.Meets.{all_of, label_meets, pair_meets, Above, Found, Judged};

use graph::layout::pair_at;
use words::members::Members;
use words::sets::{Props, Set, States};

// The first goal whose label lacks a state of the set, and n where none does.
// Kept (point 1): the clause speaks of the number by the definition Found, in which n stands for none.
fn lacking(layer: &[u64], n: usize, set: States, goal: Props) -> usize
    requires { (n ≤ prop_width) × (n ≤ length layer.now) × (goal.0 < 2 ^ n) }
    ensures { Found (label_meets layer.now set.0) n goal.0 result }
{
    for p in Members(goal.word()) {
        if !set.within(States(layer[p])) {
            return p;
        }
    }
    n
}

// The first of these above p whose mutex word with p meets a state of the set, and n where none does.
// Kept (point 1): as `lacking`.
fn clashing(layer: &[u64], n: usize, set: States, p: usize, above: u64) -> usize
    requires { (n ≤ prop_width) × (size n ≤ length layer.now) × (above < 2 ^ n) × Above p above }
    ensures { Found (pair_meets n layer.now set.0 p) n above result }
{
    for q in Members(above) {
        let at = pair_at(n, p, q);
        if set.meets(States(layer[at])) {
            return q;
        }
    }
    n
}

// The place of such a mutex word of two goals, where the labels meet the goal; the layer's size where there is none. Each goal goes with those above it.
// Kept (point 1): the clause speaks of the place by the definition Judged, in which the layer's size stands for none: `failing` and `failing_at` hand it on.
// Kept (point 3): a `for` would hold the iterator, whose members that are left are what each goal goes with.
// Kept (point 5): here and below: a type of the layers of n propositions would be made in `at` and `failing_at`, and taken apart again where Judged speaks of the list and of n.
fn clash(layer: &[u64], n: usize, set: States, goal: Props) -> usize
    requires { (n ≤ prop_width) × (length layer.now ≡ size n) × (goal.0 < 2 ^ n) × So (all_of n goal.0 (label_meets layer.now set.0)) }
    ensures { Judged n layer.now set.0 goal.0 result }
{
    let mut left = Members(goal.word());
    while let Some(p) = left.next() {
        let q = clashing(layer, n, set, p, left.0);
        if q < n {
            return pair_at(n, p, q);
        }
    }
    layer.len()
}

// The place of a word that keeps the goal from being met, and the layer's size where it is met. No pair is read of a layer whose labels do not meet the goal.
pub fn failing(layer: &[u64], n: usize, set: States, goal: Props) -> usize
    requires { (n ≤ prop_width) × (length layer.now ≡ size n) × (goal.0 < 2 ^ n) }
    ensures { Judged n layer.now set.0 goal.0 result }
{
    let p = lacking(layer, n, set, goal);
    if p < n {
        return p;
    }
    clash(layer, n, set, goal)
}
