// Sets of propositions and of start states: a type each, so that one is never read as the other, and one trait for what sets do.
ghost use Rattle.std.specs.Prelude.{◌≡◌, ℕ, ◌≤◌, ◌<◌, ◌^◌};
ghost use Rattle.std.proofs.Common.{rules};
ghost use Rattle.rules.specs.Test.{same};
ghost use Rattle.rules.specs.Word as W;
ghost use Rattle.words.specs.Width.{prop_width, state_width, word_width};

pub const PROP_WIDTH: usize = 32;

pub const STATE_WIDTH: usize = 64;

// The width of a word, and one of all ones.
const WORD_WIDTH: usize = 64;

const ALL: u64 = 0xffff_ffff_ffff_ffff;

// A set of numbers below a width, bit i of its word for i.
pub trait Set: Copy {
    ghost width: { ℕ };

    ghost members: { Self → ℕ };

    // As a word of 64 bits.
    fn word(self) -> u64
        ensures is { result ≡ members self }
        ensures inside { result < 2 ^ width };

    fn from_word(word: u64) -> Self
        requires { word < 2 ^ width }
        ensures { members result ≡ word };

    // Just i.
    fn single(i: usize) -> Self
        requires { i < width }
        ensures { members result ≡ W.single i }
    {
        Self::from_word(1u64 << i)
    }

    // The first n.
    fn first(n: usize) -> Self
        requires { n ≤ width }
        ensures { members result ≡ W.first n }
    {
        if n == 0 {
            return Self::from_word(0);
        }
        Self::from_word(ALL >> (WORD_WIDTH - n))
    }

    fn has(self, i: usize) -> bool
        requires { i < width }
        ensures { result ≡ W.bit i (members self) }
    {
        (self.word() >> i) % 2 == 1
    }

    fn union(self, b: Self) -> Self
        ensures { members result ≡ W.union (members self) (members b) }
    {
        Self::from_word(self.word() | b.word())
    }

    fn common(self, b: Self) -> Self
        ensures { members result ≡ W.common (members self) (members b) }
    {
        Self::from_word(self.word() & b.word())
    }

    fn without(self, b: Self) -> Self
        ensures { members result ≡ W.without (members self) (members b) }
    {
        let own = self.word();
        Self::from_word(own ^ (own & b.word()))
    }

    fn within(self, b: Self) -> bool
        ensures { result ≡ W.within (members self) (members b) }
    {
        let own = self.word();
        own ^ (own & b.word()) == 0
    }

    fn meets(self, b: Self) -> bool
        ensures { result ≡ W.meets (members self) (members b) }
    {
        self.word() & b.word() != 0
    }

    fn is_empty(self) -> bool
        ensures { result ≡ same (members self) 0 }
    {
        self.word() == 0
    }

    ghost narrow: { width ≤ word_width };
}

// A set of propositions, bit p for proposition p.
#[derive(Clone, Copy, Debug, PartialEq, Eq)]
pub struct Props(pub u32);

impl Props {
    pub const EMPTY: Props = Props(0);
}

impl Set for Props {
    ghost width = { prop_width };

    ghost members = { λ s. s.0 };

    ghost narrow = { Prim.search rules };

    fn word(self) -> u64 {
        u64::from(self.0)
    }

    fn from_word(word: u64) -> Props {
        Props(word as u32)
    }
}

// A set of propositions as a word of 64 bits.
// Kept (point 4): `u64::from` by the word that callers read: it is public, and `Props(set).word()` for each set would hide that nothing but the width changes.
pub fn wide(set: u32) -> u64
    ensures { result ≡ set }
{
    u64::from(set)
}

// A set of start states, bit s for state s.
#[derive(Clone, Copy, Debug, PartialEq, Eq)]
pub struct States(pub u64);

impl States {
    pub const EMPTY: States = States(0);
}

impl Set for States {
    ghost width = { state_width };

    ghost members = { λ s. s.0 };

    ghost narrow = { Prim.search rules };

    fn word(self) -> u64 {
        self.0
    }

    fn from_word(word: u64) -> States {
        States(word)
    }
}
