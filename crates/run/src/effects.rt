// Version 2: what the steps go by, read from the file once.
ghost use Rattle.std.specs.Prelude.{◌≡◌, length};
ghost use Rattle.rules.specs.Lists.{list_over};
ghost use Rattle.words.specs.Rows.{row_length};
ghost use Rattle.graph.specs.Format.{actions_of};
ghost use Rattle.run.specs.Fire.{effects_of};
ghost use Rattle.run.specs.Even.{Fit, goes_of};

use crate::step::pack;
use graph::view::View;
use words::members::single;
use words::sets::{Props, wide};
use words::tables::ROW;

// Of each action the precondition and, as a word, its effects; of each effect the antecedent, and what goes of the word where it fires in every state of the set.
// Kept (point 6): with the two words of an effect in a struct, runs of small problems took 1.1 to 1.2 times as long.
#[derive(Clone, Copy)]
pub struct Evens<'a> {
    pub needs: &'a [u64],
    pub owned: &'a [u64; ROW],
    pub when: &'a [u64],
    pub goes: &'a [u64],
    pub ghost fit: { Fit needs.now owned.now when.now goes.now },
}

// The precondition of each action.
pub fn read_needs(file: &View<'_>, needs: &mut [u64])
    requires { length needs.old ≡ file.now.counts.actions }
    ensures { needs.new ≡ list_over file.now.counts.actions (actions_of file.now.bytes.now file.now.counts).pre }
{
    for (a, need) in needs.iter_mut().enumerate() {
        *need = wide(file.precondition(a));
    }
}

// The effects of each action, in a row of empty words: a row that is answered by value would be made twice, and the stack has little room for it.
pub fn read_owned(file: &View<'_>, owned: &mut [u64; ROW])
    requires { owned.old ≡ list_over row_length (λ a. 0) }
    ensures { owned.new ≡ list_over row_length (effects_of (actions_of file.now.bytes.now file.now.counts)) }
{
    for e in 0..file.counts.effects {
        let a = file.owner(e);
        owned[a] = owned[a] | single(e);
    }
}

// Of each effect the antecedent, and what goes of the word where it fires in every state of the set.
pub fn read_effects(file: &View<'_>, when: &mut [u64], goes: &mut [u64])
    requires { (length when.old ≡ file.now.counts.effects) × (length goes.old ≡ file.now.counts.effects) }
    ensures { (when.new ≡ list_over file.now.counts.effects (actions_of file.now.bytes.now file.now.counts).when)
        × (goes.new ≡ list_over file.now.counts.effects (goes_of (actions_of file.now.bytes.now file.now.counts))) }
{
    // Kept (point 3): `iter_mut` can go over one of the lists only, and the effect is read by the same index: the others would be written by it as they are.
    for e in 0..when.len() {
        when[e] = wide(file.antecedent(e));
        goes[e] = pack(Props(file.added(e)), Props(file.deleted(e)));
    }
}
