// The library calls of calls.bin. A case is 28 numbers: the kind of the call; the file, a part of the store; depth, set, goal; the graph, that of the
// sure sets where there are two; the list, a part of the store, a run's actions, or a page's goals, a build's possible sets or the states' weights, how
// many and then each as a number; elements of output, base of their fill; what `answers` compares; the graph of the possible sets; the share.
// A graph is 6 numbers: its words of memory; what they are (0 none, 1 as the last build of its kind left them, 2 a fill), the fill's base and mask;
// the edits, a part of the store with pairs of numbers, a word's index and what is xored to it.
// What a call does not take is 0. Memory that there is not is none, so that a case that asks for it disagrees.
use crate::answers::{Answer, Outcome};
use crate::data::{Numbers, Row, Rows};
use crate::kinds::Kind;
use crate::memory::{Element, digest, fill, filling};
use build::build;
use extract::extract;
use level::{level, rest};
use page::page;
use plan::plan;
use run::run;
use share::level_share;
use within::{build_within, level_within};
use words::sets::{Props, States};

// The memory that there is: words of a graph and of an extract, sets of a plan and of a run, entries of a page, numbers of a list.
const WORDS: usize = 60000;

const SETS: usize = 512;

const ENTRIES: usize = 64;

const LISTED: usize = 64;

// Where a case has what.
pub const KIND: usize = 0;

const FILE: usize = 1;

const DEPTH: usize = 3;

const SET: usize = 4;

const GOAL: usize = 5;

const GRAPH: usize = 6;

const LIST: usize = 12;

const OUT: usize = 14;

const FILL: usize = 15;

// Kept (point 1): the place in a case where the answer stands, and no kind of answer.
const ANSWER: usize = 16;

const FIRST: usize = 17;

const SECOND: usize = 18;

const DIGEST: usize = 19;

const POSSIBLE: usize = 20;

const NUMERATOR: usize = 26;

const DENOMINATOR: usize = 27;

// How many numbers a case has.
pub const NUMBERS: usize = 28;

// Where a graph has what.
const LENT: usize = 0;

const SOURCE: usize = 1;

const BASE: usize = 2;

const MASK: usize = 3;

const EDITS: usize = 4;

// A graph that is filled; any other is the built one.
const FILLED: u64 = 2;

// How many numbers an edit has.
const EDIT: usize = 2;

// The first n elements, none where there are fewer.
fn first<T>(room: &mut [T], n: usize) -> &mut [T] {
    room.get_mut(..n).unwrap_or_default()
}

// What the words of a graph are filled with.
struct Fill {
    base: u64,
    mask: u64,
}

#[derive(Clone, Copy)]
struct Graph<'a>(Row<'a>);

impl<'a> Graph<'a> {
    fn lent(self) -> usize {
        self.0.index(LENT)
    }

    // None where the words are as the last build left them.
    fn fill(self) -> Option<Fill> {
        if self.0.entry(SOURCE) != FILLED {
            return None;
        }
        Some(Fill {
            base: self.0.entry(BASE),
            mask: self.0.entry(MASK),
        })
    }

    fn edits(self) -> Rows<'a> {
        Rows {
            rest: Numbers(self.0.stored(EDITS)),
            width: EDIT,
        }
    }

    // Lays the words of the graph; `built` are those that the last build of its kind left.
    fn lay(self, built: &[u64], words: &mut [u64]) {
        match self.fill() {
            Some(Fill { base, mask }) => {
                for (i, word) in words.iter_mut().enumerate() {
                    *word = filling(base, i) & mask;
                }
            }
            None => {
                for (word, x) in words.iter_mut().zip(built) {
                    *word = *x;
                }
            }
        }
        for edit in self.edits() {
            if let Some(word) = words.get_mut(edit.index(0)) {
                *word ^= edit.entry(1);
            }
        }
    }
}

// A case: what kind of call it is, none where it names no kind or is cut, and the row from which what the call takes is read.
#[derive(Clone, Copy)]
pub struct Case<'a> {
    pub kind: Option<Kind>,
    pub row: Row<'a>,
}

impl<'a> Case<'a> {
    fn file(self) -> &'a [u8] {
        self.row.stored(FILE)
    }

    fn depth(self) -> usize {
        self.row.index(DEPTH)
    }

    fn states(self) -> States {
        States(self.row.entry(SET))
    }

    fn goal(self) -> Props {
        Props(u32::cut(self.row.entry(GOAL)))
    }

    fn numerator(self) -> u16 {
        u16::cut(self.row.entry(NUMERATOR))
    }

    fn denominator(self) -> u16 {
        u16::cut(self.row.entry(DENOMINATOR))
    }

    fn graph(self) -> Graph<'a> {
        Graph(self.row.from(GRAPH))
    }

    fn possible(self) -> Graph<'a> {
        Graph(self.row.from(POSSIBLE))
    }

    // The actions of a run.
    fn actions(self) -> &'a [u8] {
        self.row.stored(LIST)
    }

    // The list as sets or as weights, laid into the room.
    fn list<T: Element>(self, room: &mut [T]) -> &mut [T] {
        let list = Numbers(self.row.stored(LIST));
        let out = first(room, list.index(0));
        for (i, x) in out.iter_mut().enumerate() {
            *x = T::cut(list.entry(i + 1));
        }
        out
    }

    // What is to come.
    pub fn wanted(self) -> Outcome {
        Outcome {
            answer: self.row.index(ANSWER),
            first: self.row.index(FIRST),
            second: self.row.index(SECOND),
            digest: self.row.entry(DIGEST),
        }
    }

    // Fills what is lent, and calls.
    // Kept (point 5): the closure is the caller's; a struct around it would ask the same where it is made.
    fn written<T: Element, F: FnOnce(&mut [T]) -> Answer>(self, out: &mut [T], call: F) -> Outcome
        requires { F.IsAlwaysCallable call }
    {
        fill(&mut *out, self.row.entry(FILL));
        let answer = call(&mut *out);
        Outcome::new(answer, digest(&out[..]))
    }

    // Lends as much of the room as the case says.
    // Kept (point 5): as says `written`.
    fn lent<T: Element, F: FnOnce(&mut [T]) -> Answer>(self, room: &mut [T], call: F) -> Outcome
        requires { F.IsAlwaysCallable call }
    {
        self.written(first(room, self.row.index(OUT)), call)
    }

    fn rest(self, graph: &[u64]) -> Answer {
        rest(self.file(), self.depth(), graph).map_or_else(Answer::Refused, Answer::Rest)
    }

    fn level(self, graph: &[u64]) -> Answer {
        level(self.file(), self.depth(), self.states(), self.goal(), graph).map_or_else(
            Answer::Refused,
            Answer::Level,
        )
    }

    // `built` is the graph memory of the last build for possible sets.
    fn level_within(self, built: &[u64], sure: &[u64]) -> Answer {
        let mut room = [0; WORDS];
        let possible = first(&mut room, self.possible().lent());
        self.possible().lay(built, &mut *possible);
        level_within(
            self.file(),
            self.depth(),
            self.states(),
            self.goal(),
            &possible[..],
            sure,
        )
        .map_or_else(Answer::Refused, Answer::Levels)
    }

    fn weighted(self, graph: &[u64]) -> Answer {
        let mut room = [0u16; LISTED];
        let weights = self.list(&mut room);
        level_share(
            self.file(),
            self.depth(),
            self.goal(),
            &weights[..],
            self.numerator(),
            self.denominator(),
            graph,
        )
        .map_or_else(Answer::Refused, Answer::Level)
    }

    fn build(self, out: &mut [u64]) -> Answer {
        build(self.file(), self.depth(), out).map_or_else(Answer::Refused, Answer::Built)
    }

    fn build_within(self, out: &mut [u64]) -> Answer {
        let mut room = [0u32; LISTED];
        let possible = self.list(&mut room);
        build_within(self.file(), &possible[..], self.depth(), out).map_or_else(
            Answer::Refused,
            Answer::Built,
        )
    }

    fn extract(self, graph: &[u64], out: &mut [u64]) -> Answer {
        extract(self.file(), self.depth(), self.states(), graph, out).map_or_else(
            Answer::Refused,
            Answer::Extracted,
        )
    }

    fn plan(self, graph: &[u64], out: &mut [u32]) -> Answer {
        plan(
            self.file(),
            self.depth(),
            self.states(),
            self.goal(),
            graph,
            out,
        )
        .map_or_else(Answer::Refused, Answer::Planned)
    }

    fn run(self, out: &mut [u32]) -> Answer {
        run(self.file(), self.states(), self.actions(), out).map_or_else(
            Answer::Refused,
            Answer::Ran,
        )
    }

    fn page(self, graph: &[u64], out: &mut [u16]) -> Answer {
        let mut room = [0u32; LISTED];
        let goals = self.list(&mut room);
        page(
            self.file(),
            self.depth(),
            self.states(),
            &goals[..],
            graph,
            out,
        )
        .map_or_else(Answer::Refused, Answer::Paged)
    }
}

// The graph memory of the last build, and that of the last one for possible sets, each as that left it, for the calls behind it.
#[derive(Drop)]
pub struct Memory {
    built: [u64; WORDS],
    within: [u64; WORDS],
}

impl Memory {
    pub fn new() -> Memory {
        Memory {
            built: [0; WORDS],
            within: [0; WORDS],
        }
    }

    // A call that reads a graph, or the one that reads none. A case of no kind is called as a page that is lent no entry.
    fn read(&self, case: Case) -> Outcome {
        let mut room = [0; WORDS];
        let words = first(&mut room, case.graph().lent());
        case.graph().lay(&self.built, &mut *words);
        let graph = &words[..];
        match case.kind {
            Some(Kind::Rest) => Outcome::new(case.rest(graph), 0),
            Some(Kind::Level) => Outcome::new(case.level(graph), 0),
            Some(Kind::LevelWithin) => Outcome::new(case.level_within(&self.within, graph), 0),
            Some(Kind::Weighted) => Outcome::new(case.weighted(graph), 0),
            Some(Kind::Extract) => case.lent(&mut [0u64; WORDS], |out| case.extract(graph, out)),
            Some(Kind::Plan) => case.lent(&mut [0u32; SETS], |out| case.plan(graph, out)),
            Some(Kind::Run) => case.lent(&mut [0u32; SETS], |out| case.run(out)),
            Some(Kind::Page) => case.lent(&mut [0u16; ENTRIES], |out| case.page(graph, out)),
            _ => case.lent(&mut [0u16; 0], |out| case.page(graph, out)),
        }
    }

    // What comes of a case.
    pub fn call(&mut self, case: Case) -> Outcome {
        let n = case.graph().lent();
        match case.kind {
            Some(Kind::Build) => case.written(first(&mut self.built, n), |out| case.build(out)),
            Some(Kind::BuildWithin) => {
                case.written(first(&mut self.within, n), |out| case.build_within(out))
            }
            _ => self.read(case),
        }
    }
}
