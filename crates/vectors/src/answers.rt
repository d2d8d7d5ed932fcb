// What the calls answer, in the numbers that calls.bin has for it.
use build::Built;
use graph::refusal::Refusal;
use level::layers::Level;
use plan::Planned;
use run::Ran;
use std::fmt;
use within::Levels;

#[derive(Clone, Copy)]
pub enum Answer {
    Refused(Refusal),
    Built(Built),
    Rest(Option<usize>),
    Level(Level),
    Extracted(usize),
    Planned(Planned),
    Ran(Ran),
    Paged(usize),
    Levels(Levels),
}

// A level as an entry of a page has it.
fn entry(level: Level) -> usize {
    match level {
        Level::At(t) => t,
        Level::Never => usize::from(page::NEVER),
        Level::NotByDepth => usize::from(page::NOT_BY_DEPTH),
    }
}

impl Answer {
    // Which answer it is and its numbers, 0 for one that it lacks.
    fn numbers(self) -> [usize; 3] {
        match self {
            Answer::Refused(why) => [0, why.number(), why.place()],
            Answer::Built(Built { words, looked }) => [1, words, looked],
            Answer::Rest(Some(t)) => [2, t, 0],
            Answer::Rest(None) => [3, 0, 0],
            Answer::Level(Level::At(t)) => [4, t, 0],
            Answer::Level(Level::Never) => [5, 0, 0],
            Answer::Level(Level::NotByDepth) => [6, 0, 0],
            Answer::Extracted(n) => [7, n, 0],
            Answer::Planned(Planned { level, marked }) => [8, level, marked],
            Answer::Ran(Ran { sets, idle }) => [9, sets, idle],
            Answer::Paged(n) => [10, n, 0],
            Answer::Levels(Levels { first, second }) => [11, entry(first), entry(second)],
        }
    }
}

// What came of a case: which answer, its two numbers, and the digest of what was lent to be written.
#[derive(Clone, Copy, PartialEq, Eq)]
pub struct Outcome {
    pub answer: usize,
    pub first: usize,
    pub second: usize,
    pub digest: u64,
}

impl Outcome {
    pub fn new(answer: Answer, digest: u64) -> Outcome {
        let [answer, first, second] = answer.numbers();
        Outcome {
            answer,
            first,
            second,
            digest,
        }
    }
}

impl fmt::Display for Outcome {
    fn fmt<W: fmt::Write>(&self, f: &mut fmt::Formatter<W>) -> fmt::Result {
        let Outcome {
            answer,
            first,
            second,
            digest,
        } = *self;
        write!(f, "answer {answer} {first} {second} digest {digest:016x}")
    }
}
