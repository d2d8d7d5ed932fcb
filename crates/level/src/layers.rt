// The proposition layers up to a depth: the first that meets a goal, and whether and where one equals the next.
ghost use Rattle.std.specs.Prelude.{◌≡◌, ◌+◌, ◌≤◌, ◌<◌, ◌^◌, length, IfOk};
ghost use Rattle.std.proofs.Math.Bool.{So};
ghost use Rattle.rules.specs.Test.{below};
ghost use Rattle.rules.specs.Over.{all_below};
ghost use Rattle.rules.specs.Layer.{size, props_in};
ghost use Rattle.rules.specs.Level as L;
ghost use Rattle.graph.specs.Verdict.{verdict, verdict_by};
ghost use Rattle.graph.specs.Format.{shape_in};
ghost use Rattle.graph.specs.File.{Ranged};
ghost use Rattle.graph.specs.Checks.{Room, graph_rule};
ghost use Rattle.level.specs.Meets.{Judged, shown_at, PassedOver, same_at};
ghost use Rattle.level.specs.Rule as R;

use crate::goal::failing;
use graph::checks::check_graph;
use graph::format::Counts;
use graph::layout::{layer_size, layer_start, stride};
use graph::refusal::Refusal;
use rules::Shape;
use words::equal::same_words;
use words::sets::{Props, Set, States};

// What the layers say of a goal.
#[derive(Clone, Copy, PartialEq, Eq, Debug)]
pub enum Level {
    At(usize),
    Never,
    NotByDepth,
}

// What the word at this place shows of the set in a layer that meets the goal: a label all of it, a mutex word nothing.
pub fn shown(n: usize, set: States, place: usize) -> u64
    ensures { result ≡ shown_at n set.0 place }
{
    if place < n {
        return set.0;
    }
    0
}

// How many words are compared at once: at the front of two layers, and behind it.
const FIRST: usize = 8;

const BLOCK: usize = 16;

// Whether two layers are the same that are so before a place: block by block, up to the first that differs.
// Kept (point 3): it goes on by a block, whose length the compiler knows; of `chunks` it does not know it.
// Kept (point 5): here and below: both layers are parts of the words that `Layers` has; a type of two lists of one length would be made for one call.
// Kept (point 6): the place tells how far the layers are known to be the same.
fn same_from(one: &[u64], other: &[u64], from: usize) -> bool
    requires { (length other.now ≡ length one.now) × (from ≤ length one.now) × So (all_below from (same_at one.now other.now)) }
    ensures { result ≡ all_below (length one.now) (same_at one.now other.now) }
{
    let mut at = from;
    while BLOCK <= one.len() - at {
        let end = at + BLOCK;
        if !same_words(&one[at..end], &other[at..end]) {
            return false;
        }
        at = end;
    }
    same_words(&one[at..], &other[at..])
}

// The same from the start. Two layers that differ do so mostly among the first labels.
fn same_layers(one: &[u64], other: &[u64]) -> bool
    requires { length other.now ≡ length one.now }
    ensures { result ≡ all_below (length one.now) (same_at one.now other.now) }
{
    if one.len() < FIRST {
        return same_words(one, other);
    }
    if !same_words(&one[..FIRST], &other[..FIRST]) {
        return false;
    }
    same_from(one, other, FIRST)
}

// The words of a graph, read as layers up to a depth: there are as many words as that takes.
#[derive(Clone, Copy)]
pub struct Layers<'a> {
    pub words: &'a [u64],
    pub shape: Shape,
    pub depth: usize,
    pub ghost room: { Room shape depth words.now },
}

impl<'a> Layers<'a> {
    // Causes 6 to 9, or the layers: `asked` is what was found of the set and the goal, `Ok` for a call that takes neither.
    // Kept (point 5): the counts as `check_graph` has them, which are handed on to it.
    pub fn lent(
        c: Counts,
        depth: usize,
        asked: Result<(), Refusal>,
        words: &'a [u64],
    ) -> Result<Layers<'a>, Refusal>
        requires { Ranged c }
        ensures rule { verdict_by (λ l. tt) result ≡ graph_rule c depth (verdict asked) (length words.now) }
        ensures layers { IfOk result (λ l. (l.words ≡ words.entry) × (l.shape ≡ shape_in c) × (l.depth ≡ depth)) }
    {
        check_graph(c, depth, asked, words.len())?;
        let shape = c.shape();
        Ok(Layers {
            words,
            shape,
            depth,
        })
    }

    // Proposition layer t.
    pub fn at(&self, t: usize) -> &[u64]
        requires { t ≤ self.now.depth }
        ensures { result.now ≡ props_in self.now.shape self.now.words.now t }
    {
        let start = layer_start(self.shape, t);
        let end = start + layer_size(self.shape.props);
        &self.words[start..end]
    }

    // The place of a word of layer t that keeps the goal from being met, and the layer's size where it is met.
    pub fn failing_at(&self, t: usize, set: States, goal: Props) -> usize
        requires { (t ≤ self.now.depth) × (goal.0 < 2 ^ self.now.shape.props) }
        ensures { Judged self.now.shape.props (props_in self.now.shape self.now.words.now t) set.0 goal.0 result }
    {
        failing(self.at(t), self.shape.props, set, goal)
    }

    // The first layer from this one on whose word at the place shows that, and depth + 1 where none does: one word a layer is read.
    // Kept (point 1): the clause speaks of the layer by the definition PassedOver, in which depth + 1 stands for none.
    // Kept (point 3): by `for t in from..self.depth + 1`, and by `from..=self.depth`, each layer cost two operations more, and of small problems a level that is never met took up to 1.6 times as long.
    pub fn pass_over(&self, from: usize, set: States, place: usize, shows: u64) -> usize
        requires { (from ≤ self.now.depth + 1) × (place < size self.now.shape.props) }
        ensures { PassedOver self.now.shape self.now.words.now self.now.depth set.0 place shows from result }
    {
        let step = stride(self.shape);
        let mut t = from;
        while t <= self.depth {
            if self.words[t * step + place] & set.0 == shows {
                return t;
            }
            t += 1;
        }
        t
    }

    // The first layer from 0 to depth that meets a goal of its propositions, and depth + 1 where none does. After a layer that does not, those are passed over in which the same word fails.
    // Kept (point 1): the clause equates it with the definition first_met, which has depth + 1 where no layer meets the goal.
    // Kept (point 3): `t` goes on by what `pass_over` finds and not by one.
    fn first_met_of(&self, set: States, goal: Props) -> usize
        requires { goal.0 < 2 ^ self.now.shape.props }
        ensures { result ≡ L.first_met self.now.shape self.now.depth set.0 goal.0 self.now.words.now }
    {
        let n = self.shape.props;
        let mut t = 0;
        while t <= self.depth {
            let place = self.failing_at(t, set, goal);
            if layer_size(n) <= place {
                return t;
            }
            t = self.pass_over(t + 1, set, place, shown(n, set, place));
        }
        t
    }

    // The same of any goal: of one that has others, too, only those that the layers have count.
    pub fn first_met(&self, set: States, goal: Props) -> usize
        ensures { result ≡ L.first_met self.now.shape self.now.depth set.0 goal.0 self.now.words.now }
    {
        let held = goal.common(Props::first(self.shape.props));
        self.first_met_of(set, held)
    }

    // Whether the first words of layer t, so many, are those of the next one.
    // In place where it is asked, so that what the shape tells is found once a loop.
    #[inline(always)]
    fn rests_at(&self, t: usize, count: usize) -> bool
        requires { (t < self.now.depth) × (count ≤ size self.now.shape.props) }
        ensures { result ≡ all_below count (same_at (props_in self.now.shape self.now.words.now t) (props_in self.now.shape self.now.words.now (t + 1))) }
    {
        same_layers(&self.at(t)[..count], &self.at(t + 1)[..count])
    }

    // The first layer below depth that equals the next one, labels and mutex words, and depth where none does.
    // Kept (point 1): the clause equates it with the definition first_rest, which has depth where no layer equals the next.
    pub fn first_rest(&self) -> usize
        ensures { result ≡ L.first_rest self.now.shape self.now.depth self.now.words.now }
    {
        let count = layer_size(self.shape.props);
        for first in 0..self.depth {
            if self.rests_at(first, count) {
                return first;
            }
        }
        self.depth
    }

    // Whether there is one: sought from the top, where a built graph that rests shows it at once.
    pub fn rests(&self) -> bool
        ensures { result ≡ below (L.first_rest self.now.shape self.now.depth self.now.words.now) self.now.depth }
    {
        let whole = layer_size(self.shape.props);
        for t in (0..self.depth).rev() {
            if self.rests_at(t, whole) {
                return true;
            }
        }
        false
    }

    // The answer by the first layer that has what is sought: 'never' and 'not by depth' only once none has.
    pub fn level_by(&self, t: usize) -> Level
        ensures { R.level_said result ≡ L.level_by self.now.shape self.now.depth self.now.words.now t }
    {
        if t <= self.depth {
            return Level::At(t);
        }
        if self.rests() {
            return Level::Never;
        }
        Level::NotByDepth
    }

    // The level of a goal for a set of states.
    pub fn level(&self, set: States, goal: Props) -> Level
        ensures { R.level_said result ≡ L.level_of self.now.shape self.now.depth set.0 goal.0 self.now.words.now }
    {
        let t = self.first_met(set, goal);
        self.level_by(t)
    }
}
