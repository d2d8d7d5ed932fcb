// The states that hold a goal in a layer, as one word, and the first layer where their weight is enough. Some states are known to be too few (`short`):
// once all that are left are among these, it is not looked any further.
ghost use Rattle.std.specs.Prelude.{◌≡◌, ◌≤◌, ◌<◌, ◌^◌, length};
ghost use Rattle.rules.specs.Word.{without};
ghost use Rattle.rules.specs.Over.{join_of};
ghost use Rattle.rules.specs.Layer.{size, mutex_in};
ghost use Rattle.rules.specs.Shared.{needs_label, needs_apart};
ghost use Rattle.rules.specs.Share as S;
ghost use Rattle.words.specs.Width.{prop_width};
ghost use Rattle.level.specs.Meets.{Above};
ghost use Rattle.share.specs.Sums.{Weighed, Looked};

use crate::weights::weight_by;
use graph::layout::pair_at;
use level::layers::Layers;
use words::members::Members;
use words::sets::{Props, Set, States};

// The share that is asked for: of the weights of the start states, with their total.
#[derive(Clone, Copy)]
pub struct Share<'a> {
    pub weights: &'a [u16],
    pub total: u32,
    pub numerator: u16,
    pub denominator: u16,
    pub ghost weighed: { Weighed weights.now total },
}

// Of these states those that have each goal.
fn with_labels(layer: &[u64], n: usize, all: States, goal: Props, short: States) -> States
    requires { (n ≤ prop_width) × (n ≤ length layer.now) × (goal.0 < 2 ^ n) }
    ensures { Looked (needs_label n all.0 layer.now goal.0) short.0 result.0 }
{
    let mut held = all;
    for p in Members(goal.word()) {
        held = held.common(States(layer[p]));
        if held.within(short) {
            return held;
        }
    }
    held
}

// Of these states those for which p is mutex with none of the goals above it.
fn free_of(layer: &[u64], n: usize, p: usize, above: u64, states: States, short: States) -> States
    requires { (n ≤ prop_width) × (size n ≤ length layer.now) × (above < 2 ^ n) × Above p above }
    ensures { Looked (without states.0 (join_of n above (mutex_in n layer.now p))) short.0 result.0 }
{
    let mut free = states;
    for q in Members(above) {
        let at = pair_at(n, p, q);
        free = free.without(States(layer[at]));
        if free.within(short) {
            return free;
        }
    }
    free
}

// Of these states those for which no two goals are mutex. Each goal goes with those above it.
// Kept (point 3): a `for` would hold the iterator, whose members that are left are what each goal goes with.
// Kept (point 5): here and below: as `clash` of `level` says; `needs_apart` and `holders` speak of the list and of n.
fn free_in(layer: &[u64], n: usize, goal: Props, states: States, short: States) -> States
    requires { (n ≤ prop_width) × (length layer.now ≡ size n) × (goal.0 < 2 ^ n) }
    ensures { Looked (without states.0 (needs_apart n layer.now goal.0)) short.0 result.0 }
{
    let mut left = Members(goal.word());
    let mut free = states;
    while let Some(p) = left.next() {
        free = free_of(layer, n, p, left.0, free, short);
        if free.within(short) {
            return free;
        }
    }
    free
}

// Of these states those that hold the goal in a layer.
fn holders(layer: &[u64], n: usize, all: States, goal: Props, short: States) -> States
    requires { (n ≤ prop_width) × (length layer.now ≡ size n) × (goal.0 < 2 ^ n) }
    ensures { Looked (S.holders n all.0 layer.now goal.0) short.0 result.0 }
{
    let held = with_labels(layer, n, all, goal, short);
    if held.within(short) {
        return held;
    }
    free_in(layer, n, goal, held, short)
}

// The first layer from 0 to depth where the weight is enough, and depth + 1 where it is in none. For a share of nothing it is at once.
// Kept (point 1): the clause equates it with the definition first_enough, which has depth + 1 where the weight is enough in no layer.
pub fn first_enough(layers: &Layers<'_>, goal: Props, share: &Share<'_>) -> usize
    requires { goal.0 < 2 ^ layers.now.shape.props }
    ensures { result ≡ S.first_enough layers.now.shape layers.now.depth (S.share_of share.now.weights.now share.now.numerator share.now.denominator) goal.0 layers.now.words.now }
{
    let wanted = share.total as u64 * share.numerator as u64;
    if wanted == 0 {
        return 0;
    }
    let n = layers.shape.props;
    let all = States::first(share.weights.len());
    let mut short = States::EMPTY;
    let mut have = 0u32;
    let end = layers.depth + 1;
    for t in 0..end {
        let held = holders(layers.at(t), n, all, goal, short);
        if !held.within(short) {
            have = weight_by(share.weights, held, short, have);
            if wanted <= have as u64 * share.denominator as u64 {
                return t;
            }
            short = held;
        }
    }
    end
}
