// The problem file's format: the counts of its parts, where each set lies, and how long the file is. No other module knows an offset.
ghost use Rattle.std.specs.Prelude.{◌≡◌, ◌+◌, ◌≤◌, ◌<◌};
ghost use Rattle.words.specs.Width.{state_width};
ghost use Rattle.graph.specs.Limits.{max_actions, max_effects};
ghost use Rattle.graph.specs.File.{Ranged};
ghost use Rattle.graph.specs.Format as F;

use rules::Shape;

pub const SET_BYTES: usize = 4;

// How many sets an action of version 1 has, and an effect of version 2.
pub const SETS_EACH: usize = 3;

pub const HEAD_BYTES: usize = 8;

pub const LONG_HEAD: usize = 9;

pub const PLAIN_VERSION: usize = 1;

pub const EFFECTS_VERSION: usize = 2;

pub const PROPS_OFFSET: usize = 5;

pub const ACTIONS_OFFSET: usize = 6;

pub const STATES_OFFSET: usize = 7;

pub const EFFECTS_OFFSET: usize = 8;

const ACTION_BYTES: usize = 12;

const EFFECT_BYTES: usize = 13;

// The version of a file and its four counts. In version 1 there is an effect for each action.
#[derive(Clone, Copy)]
pub struct Counts {
    pub version: usize,
    pub props: usize,
    pub actions: usize,
    pub effects: usize,
    pub states: usize,
}

// Version 1: where the three sets of action a lie.
pub(crate) fn action_at(a: usize) -> usize
    requires { a ≤ max_actions }
    ensures { result ≡ F.action_at a }
{
    HEAD_BYTES + ACTION_BYTES * a
}

impl Counts {
    // Version 2: where effect e lies, and its antecedent.
    // Kept (point 5): here and below: the counts are read before they are known to be in their ranges, and `counts_in`, which the theorems name, makes them; so the fact can't be in the type `Counts`.
    pub(crate) fn effect_at(self, e: usize) -> usize
        requires { Ranged self × (e ≤ max_effects) }
        ensures { result ≡ F.effect_at self e }
    {
        LONG_HEAD + SET_BYTES * self.actions + EFFECT_BYTES * e
    }

    pub(crate) fn when_at(self, e: usize) -> usize
        requires { Ranged self × (e ≤ max_effects) }
        ensures { result ≡ F.when_at self e }
    {
        self.effect_at(e) + 1
    }

    // Where the precondition of action a lies.
    pub(crate) fn pre_at(self, a: usize) -> usize
        requires { Ranged self × (a < self.actions) }
        ensures { (result ≡ F.pre_at self a) × (result + F.set_bytes ≤ F.states_at self) }
    {
        if self.version == PLAIN_VERSION {
            return action_at(a);
        }
        LONG_HEAD + SET_BYTES * a
    }

    // Where the sets of effect e lie, of which what it adds is the second.
    fn sets_at(self, e: usize) -> usize
        requires { Ranged self × (e ≤ max_effects) }
        ensures { (result ≡ F.sets_at self e) × (result ≤ 1000) }
    {
        if self.version == PLAIN_VERSION {
            return action_at(e);
        }
        self.when_at(e)
    }

    // Where what it adds lies.
    pub(crate) fn add_at(self, e: usize) -> usize
        requires { Ranged self × (e < self.effects) }
        ensures { (result ≡ F.add_at self e) × (result + F.set_bytes ≤ F.states_at self) }
    {
        self.sets_at(e) + SET_BYTES
    }

    // Where what it deletes lies.
    pub(crate) fn del_at(self, e: usize) -> usize
        requires { Ranged self × (e < self.effects) }
        ensures { (result ≡ F.del_at self e) × (result + F.set_bytes ≤ F.states_at self) }
    {
        self.sets_at(e) + 2 * SET_BYTES
    }

    // Where the start states begin.
    pub(crate) fn states_at(self) -> usize
        requires { Ranged self }
        ensures { (result ≡ F.states_at self) × (result ≤ 1000) }
    {
        if self.version == PLAIN_VERSION {
            return action_at(self.actions);
        }
        self.effect_at(self.effects)
    }

    // Where start state s lies.
    pub(crate) fn state_at(self, s: usize) -> usize
        requires { Ranged self × (s ≤ state_width) }
        ensures { result ≡ F.state_at self s }
    {
        self.states_at() + SET_BYTES * s
    }

    // How long the file is.
    pub(crate) fn right_length(self) -> usize
        requires { Ranged self }
        ensures { result ≡ F.right_length self }
    {
        self.state_at(self.states)
    }

    // How many propositions and vertices a graph of the file has.
    pub fn shape(self) -> Shape
        requires { Ranged self }
        ensures { result ≡ F.shape_in self }
    {
        Shape {
            props: self.props,
            vertices: self.effects + self.props,
        }
    }
}
