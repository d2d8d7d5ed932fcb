// The actions, their effects and the start states, read from the file through the view: each a thin function over `set_at`.
ghost use Rattle.std.specs.Prelude.{◌≡◌, ◌≤◌, ◌<◌, length};
ghost use Rattle.rules.specs.Domain as D;
ghost use Rattle.rules.specs.Lists.{list_over};
ghost use Rattle.rules.specs.Shared.{start_label};
ghost use Rattle.words.specs.Memory.{put_at};
ghost use Rattle.words.specs.Rows.{row_length};
ghost use Rattle.graph.specs.Format.{actions_of, start_of};

use crate::file::{owner_at, set_at};
use crate::format::PLAIN_VERSION;
use crate::view::View;
use words::columns::spread;
use words::members::single;
use words::sets::Props;

impl<'a> View<'a> {
    // The precondition of action a.
    pub fn precondition(&self, a: usize) -> u32
        requires { a < self.now.counts.actions }
        ensures { result ≡ (actions_of self.now.bytes.now self.now.counts).pre a }
    {
        set_at(self.bytes, self.counts.pre_at(a))
    }

    // The action that owns effect e.
    pub fn owner(&self, e: usize) -> usize
        requires { e < self.now.counts.effects }
        ensures { (result ≡ (actions_of self.now.bytes.now self.now.counts).owner e) × (result < self.now.counts.actions) }
    {
        if self.counts.version == PLAIN_VERSION {
            return e;
        }
        owner_at(self.bytes, self.counts, e)
    }

    // Its antecedent, what it adds and what it deletes.
    pub fn antecedent(&self, e: usize) -> u32
        requires { e < self.now.counts.effects }
        ensures { result ≡ (actions_of self.now.bytes.now self.now.counts).when e }
    {
        if self.counts.version == PLAIN_VERSION {
            return 0;
        }
        set_at(self.bytes, self.counts.when_at(e))
    }

    pub fn added(&self, e: usize) -> u32
        requires { e < self.now.counts.effects }
        ensures { result ≡ (actions_of self.now.bytes.now self.now.counts).add e }
    {
        set_at(self.bytes, self.counts.add_at(e))
    }

    pub fn deleted(&self, e: usize) -> u32
        requires { e < self.now.counts.effects }
        ensures { result ≡ (actions_of self.now.bytes.now self.now.counts).del e }
    {
        set_at(self.bytes, self.counts.del_at(e))
    }

    // What it needs: the precondition of its action and its antecedent together.
    pub fn condition(&self, e: usize) -> u32
        requires { e < self.now.counts.effects }
        ensures { result ≡ D.condition (actions_of self.now.bytes.now self.now.counts) e }
    {
        self.precondition(self.owner(e)) | self.antecedent(e)
    }

    // Start state s.
    pub fn start(&self, s: usize) -> u32
        requires { s < self.now.counts.states }
        ensures { result ≡ start_of self.now.bytes.now self.now.counts s }
    {
        set_at(self.bytes, self.counts.state_at(s))
    }

    // What every state starts with, at the front of a list.
    pub fn lay_starts(&self, out: &mut [u32])
        requires { self.now.counts.states ≤ length out.old }
        ensures { out.new ≡ put_at 0 (list_over self.now.counts.states (start_of self.now.bytes.now self.now.counts)) out.old }
    {
        for (s, set) in out[..self.counts.states].iter_mut().enumerate() {
            *set = self.start(s);
        }
    }

    // The labels of layer 0, in a row of empty words.
    pub fn start_labels(&self, labels: &mut [u64])
        requires { labels.old ≡ list_over row_length (λ p. 0) }
        ensures { labels.new ≡ list_over row_length (start_label self.now.counts.states (start_of self.now.bytes.now self.now.counts)) }
    {
        for s in 0..self.counts.states {
            spread(&mut *labels, Props(self.start(s)), single(s));
        }
    }
}
