// The weights of the start states, and cause 18.
ghost use Rattle.std.specs.Prelude.{◌≡◌, ◌≤◌, ◌<◌, ◌^◌, length};
ghost use Rattle.rules.specs.Share as S;
ghost use Rattle.words.specs.Width.{state_width};
ghost use Rattle.graph.specs.Verdict.{verdict};
ghost use Rattle.share.specs.Sums.{max_total, total_for, rule_by};

use graph::refusal::Refusal;
use words::members::Members;
use words::sets::{Set, States};

// The total of the weights.
// Kept (point 5): here and below: `Share` has the fact, but with the total, which this makes; the others read no more than the weights.
fn total(weights: &[u16]) -> u32
    requires { length weights.now ≤ state_width }
    ensures { (result ≡ S.total weights.now) × (result ≤ max_total) }
{
    let mut sum = 0u32;
    for weight in weights {
        sum += *weight as u32;
    }
    sum
}

// The total of as many weights as there are states, and 0 of another number of them.
pub fn total_for(states: usize, weights: &[u16]) -> u32
    requires { states ≤ state_width }
    ensures { (result ≡ total_for states weights.now) × (result ≤ max_total) }
{
    if weights.len() != states {
        return 0;
    }
    total(weights)
}

// Cause 18, by the total: weights that are all zero, or not one for each state, have none.
pub fn check_weights(total: u32, numerator: u16, denominator: u16) -> Result<(), Refusal>
    ensures { verdict result ≡ rule_by total numerator denominator }
{
    if total == 0 {
        return Err(Refusal::Share);
    }
    if denominator == 0 {
        return Err(Refusal::Share);
    }
    if denominator < numerator {
        return Err(Refusal::Share);
    }
    Ok(())
}

// The weight of the states of a set.
fn weight(weights: &[u16], set: States) -> u32
    requires { (length weights.now ≤ state_width) × (set.0 < 2 ^ length weights.now) }
    ensures { (result ≡ S.weight_of weights.now set.0) × (result ≤ max_total) }
{
    let mut sum = 0u32;
    for s in Members(set.0) {
        sum += weights[s] as u32;
    }
    sum
}

// The same by the weight of other states: where the set has all of them, only those that are new are weighed.
pub fn weight_by(weights: &[u16], set: States, others: States, sum: u32) -> u32
    requires { (length weights.now ≤ state_width) × (set.0 < 2 ^ length weights.now) × (sum ≡ S.weight_of weights.now others.0) }
    ensures { (result ≡ S.weight_of weights.now set.0) × (result ≤ max_total) }
{
    let mut known = others;
    let mut have = sum;
    if !others.within(set) {
        known = States::EMPTY;
        have = 0;
    }
    have + weight(weights, set.without(known))
}
