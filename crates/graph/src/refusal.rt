// Why a call is turned away.
ghost use Rattle.std.specs.Prelude.{◌≡◌};
ghost use Rattle.graph.specs.Verdict.{number_of, place_of};

use crate::limits::MAX_DEPTH;
use std::fmt;

// The causes in the order of their numbers, 1 to 18, with the place where it varies.
#[derive(Clone, Copy, PartialEq, Eq, Debug)]
pub enum Refusal {
    Head,
    Version,
    Count(usize),
    Length(usize),
    PropSet(usize),
    Depth,
    StateSet,
    Goal,
    Memory(usize),
    Output(usize),
    Sequence(usize),
    Precondition(usize),
    NoLevel(usize),
    Uncovered(usize),
    EqualAction(usize),
    EffectAction(usize),
    PossibleSet(usize),
    Share,
}

impl Refusal {
    // Kept (point 4): variants that hold a place have no `as usize`, and the numbers are the paper's, each by the definition number_of.
    pub fn number(self) -> usize
        ensures { result ≡ number_of self }
    {
        match self {
            Refusal::Head => 1,
            Refusal::Version => 2,
            Refusal::Count(_) => 3,
            Refusal::Length(_) => 4,
            Refusal::PropSet(_) => 5,
            Refusal::Depth => 6,
            Refusal::StateSet => 7,
            Refusal::Goal => 8,
            Refusal::Memory(_) => 9,
            Refusal::Output(_) => 10,
            Refusal::Sequence(_) => 11,
            Refusal::Precondition(_) => 12,
            Refusal::NoLevel(_) => 13,
            Refusal::Uncovered(_) => 14,
            Refusal::EqualAction(_) => 15,
            Refusal::EffectAction(_) => 16,
            Refusal::PossibleSet(_) => 17,
            Refusal::Share => 18,
        }
    }

    // Kept (point 4): which place a cause tells is the paper's, each by the definition place_of: there is no one type to convert to.
    pub fn place(self) -> usize
        ensures { result ≡ place_of self }
    {
        match self {
            Refusal::Head => 0,
            Refusal::Version => 3,
            Refusal::Count(i) => i,
            Refusal::Length(i) => i,
            Refusal::PropSet(i) => i,
            Refusal::Depth => MAX_DEPTH,
            Refusal::StateSet => 0,
            Refusal::Goal => 0,
            Refusal::Memory(i) => i,
            Refusal::Output(i) => i,
            Refusal::Sequence(i) => i,
            Refusal::Precondition(i) => i,
            Refusal::NoLevel(i) => i,
            Refusal::Uncovered(i) => i,
            Refusal::EqualAction(i) => i,
            Refusal::EffectAction(i) => i,
            Refusal::PossibleSet(i) => i,
            Refusal::Share => 0,
        }
    }
}

// Its number and its place, as the programs print them.
impl fmt::Display for Refusal {
    fn fmt<W: fmt::Write>(&self, f: &mut fmt::Formatter<W>) -> fmt::Result {
        write!(f, "{} {}", self.number(), self.place())
    }
}
