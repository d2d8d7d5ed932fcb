// Two actions of a file of version 1 with the same three sets. Such actions have the same mark, so that only those with one mark are compared set by set.
ghost use Rattle.std.specs.Prelude.{◌≡◌, ◌≤◌, ◌<◌};
ghost use Rattle.graph.specs.Verdict.{verdict};
ghost use Rattle.graph.specs.File.{equal_actions, equals_earlier, first_equal, equal_rule};
ghost use Rattle.graph.specs.Format.{actions_of};
ghost use Rattle.graph.specs.Marks.{PlainFile, marks, mark_of, Last, Chained, Marked, After};

use crate::file::set_at;
use crate::format::{Counts, SET_BYTES, action_at};
use crate::limits::MAX_ACTIONS;
use crate::refusal::Refusal;

// So many actions are compared without marks.
const FEW: usize = 4;

// How many marks there are, and over how many numbers of 32 bits each reaches.
const MARKS: usize = 256;

const MARK_SPAN: usize = 16777216;

// At a mark that no action has, and behind the first action that has one.
const NONE: u8 = 0;

// What spreads an action over the numbers of 32 bits: a weight for what it adds, so that it does not count as a need, and 2^32 divided by the golden ratio.
const ADD_WEIGHT: usize = 5;

const SPREAD: usize = 2654435769;

const WRAP: usize = 4294967296;

// A file of version 1 that is whole, before its actions are compared.
#[derive(Clone, Copy)]
pub(crate) struct Plain<'a> {
    pub bytes: &'a [u8],
    pub counts: Counts,
    pub ghost plain: { PlainFile bytes.now counts },
}

impl<'a> Plain<'a> {
    pub(crate) fn new(bytes: &'a [u8], counts: Counts) -> Plain<'a>
        requires { PlainFile bytes.now counts }
        ensures { (result.bytes ≡ bytes.entry) × (result.counts ≡ counts) }
    {
        Plain { bytes, counts }
    }

    // The three sets of action a. The version is known, and is not asked for once more.
    fn needs_of(&self, a: usize) -> u32
        requires { a < self.now.counts.actions }
        ensures { result ≡ (actions_of self.now.bytes.now self.now.counts).pre a }
    {
        set_at(self.bytes, action_at(a))
    }

    fn adds_of(&self, a: usize) -> u32
        requires { a < self.now.counts.actions }
        ensures { result ≡ (actions_of self.now.bytes.now self.now.counts).add a }
    {
        set_at(self.bytes, action_at(a) + SET_BYTES)
    }

    fn dels_of(&self, a: usize) -> u32
        requires { a < self.now.counts.actions }
        ensures { result ≡ (actions_of self.now.bytes.now self.now.counts).del a }
    {
        set_at(self.bytes, action_at(a) + 2 * SET_BYTES)
    }

    // The mark of action a.
    fn mark(&self, a: usize) -> usize
        requires { a < self.now.counts.actions }
        ensures { (result ≡ mark_of (actions_of self.now.bytes.now self.now.counts) a) × (result < marks) }
    {
        let needs = self.needs_of(a) as usize;
        let adds = self.adds_of(a) as usize;
        let mixed = (needs + ADD_WEIGHT * adds) % WRAP;
        let spread = mixed * SPREAD % WRAP;
        spread / MARK_SPAN
    }

    // Whether two actions have the same three sets.
    fn same_sets(&self, b: usize, a: usize) -> bool
        requires { (b < self.now.counts.actions) × (a < self.now.counts.actions) }
        ensures { result ≡ equal_actions (actions_of self.now.bytes.now self.now.counts) b a }
    {
        if self.needs_of(b) != self.needs_of(a) {
            return false;
        }
        if self.adds_of(b) != self.adds_of(a) {
            return false;
        }
        self.dels_of(b) == self.dels_of(a)
    }

    // The first action after b and before the end that equals b, and the end where there is none.
    // Kept (point 1): the clause speaks of the number by the definition After; the next call takes it as its end, so that `first = self.equal_after(b, first)` needs no `if let`.
    fn equal_after(&self, b: usize, end: usize) -> usize
        requires { (b < self.now.counts.actions) × (end ≤ self.now.counts.actions) }
        ensures { After (actions_of self.now.bytes.now self.now.counts) b end result }
    {
        let next = b + 1;
        for later in next..end {
            let equal = self.same_sets(b, later);
            if equal {
                return later;
            }
        }
        end
    }

    // Whether an action equals an earlier one: of those with its mark the last is given, and each leads to the one before it.
    // Kept (point 3): a chain of places in `befores`, as `std::iter::successors(first, |b| ..).any(..)`: a second closure and its Option in place of one number that falls, and the clause Chained would speak of both.
    fn equals_earlier(&self, befores: &[u8], last: usize, a: usize) -> bool
        requires { (a < self.now.counts.actions) × Chained (actions_of self.now.bytes.now self.now.counts) a befores.now
            × Last (actions_of self.now.bytes.now self.now.counts) a (mark_of (actions_of self.now.bytes.now self.now.counts) a) last }
        ensures { result ≡ equals_earlier (actions_of self.now.bytes.now self.now.counts) a }
    {
        let mut left = last;
        while 0 < left {
            let b = left - 1;
            let equal = self.same_sets(b, a);
            if equal {
                return true;
            }
            left = befores[b] as usize;
        }
        false
    }

    // The first action that equals an earlier one, and the number of actions where there is none. Each is put before those with its mark.
    // Kept (point 1): the clause equates it with the definition first_equal, which has the number of actions where none equals an earlier one; so are those of the three functions below.
    // Kept (point 3): `befores` is read from all places in the same pass, so that no iterator can hold it while `befores[a]` is written.
    #[inline(always)]
    fn first_marked(&self, lasts: &mut [u8], befores: &mut [u8]) -> usize
        requires { Marked (actions_of self.now.bytes.now self.now.counts) 0 lasts.old × Chained (actions_of self.now.bytes.now self.now.counts) 0 befores.old }
        ensures { result ≡ first_equal (actions_of self.now.bytes.now self.now.counts) }
    {
        for a in 0..self.counts.actions {
            let m = self.mark(a);
            let last = lasts[m];
            if last != NONE {
                if self.equals_earlier(&befores[..], last as usize, a) {
                    return a;
                }
                befores[a] = last;
            }
            lasts[m] = (a + 1) as u8;
        }
        self.counts.actions
    }

    // The same with no action marked yet.
    // As `check_equal` says.
    #[inline(always)]
    fn first_of_many(&self) -> usize
        ensures { result ≡ first_equal (actions_of self.now.bytes.now self.now.counts) }
    {
        let mut lasts = [0u8; MARKS];
        let mut befores = [0u8; MAX_ACTIONS];
        self.first_marked(&mut lasts[..], &mut befores[..])
    }

    // The same without marks, of few actions: to clear the marks takes longer.
    // As `check_equal` says.
    #[inline(always)]
    fn first_of_few(&self) -> usize
        ensures { result ≡ first_equal (actions_of self.now.bytes.now self.now.counts) }
    {
        let mut first = self.counts.actions;
        for b in 0..self.counts.actions {
            first = self.equal_after(b, first);
        }
        first
    }

    // The same of any number of actions.
    // As `check_equal` says.
    #[inline(always)]
    fn first_equal(&self) -> usize
        ensures { result ≡ first_equal (actions_of self.now.bytes.now self.now.counts) }
    {
        if self.counts.actions <= FEW {
            return self.first_of_few();
        }
        self.first_of_many()
    }

    // Cause 15, of a file of version 1. As `check_actions` of `file` says.
    #[inline(always)]
    pub(crate) fn check_equal(&self) -> Result<(), Refusal>
        ensures { verdict result ≡ equal_rule self.now.bytes.now self.now.counts }
    {
        let a = self.first_equal();
        if a < self.counts.actions {
            return Err(Refusal::EqualAction(action_at(a)));
        }
        Ok(())
    }
}
