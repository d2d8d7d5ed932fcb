// What the steps read and write.
use crate::answer::{Answer, Listed};
use crate::bytes::{Bytes, first, sets};
use crate::line::{Column, Line};
use build::build;
use extract::extract;
use level::{level, rest};
use page::page;
use plan::plan;
use run::run;
use share::level_share;
use within::{build_within, level_within};

// Words of a graph: what the lamp takes at depth 255.
const GRAPH: usize = 5361;

// Words of the graph of the possible sets, with room to spare.
const POSSIBLE: usize = 600;

// Words of an extract.
const EXTRACT: usize = 49;

pub fn first_mut<T>(memory: &mut [T], n: usize) -> &mut [T] {
    memory.get_mut(..n).unwrap_or_default()
}

#[derive(Drop)]
pub struct Memory {
    pub bytes: Bytes,
    graph: [u64; GRAPH],
    possible: [u64; POSSIBLE],
    extract: [u64; EXTRACT],
}

impl Memory {
    pub fn new() -> Memory {
        Memory {
            bytes: Bytes::new(),
            graph: [7; GRAPH],
            possible: [7; POSSIBLE],
            extract: [7; EXTRACT],
        }
    }

    pub fn put_word(&mut self, line: Line) {
        if let Some(word) = self.graph.get_mut(line.size(Column::File)) {
            *word = u64::from(line.number(Column::Depth));
        }
    }

    // The words of the graph that a call reads.
    fn lent(&self, line: Line) -> &[u64] {
        first(&self.graph, line.size(Column::Words))
    }

    pub fn build(&mut self, line: Line) -> Answer {
        let words = first_mut(&mut self.graph, line.size(Column::Words));
        build(self.bytes.file(line), line.depth(), words).map_or_else(
            Answer::Refused,
            Answer::Built,
        )
    }

    pub fn build_within(&mut self, line: Line) -> Answer {
        let list = self.bytes.list(line, Column::Goal);
        let possible = sets(list);
        let words = first_mut(&mut self.possible, line.size(Column::Words));
        build_within(
            self.bytes.file(line),
            first(&possible, list.len()),
            line.depth(),
            words,
        )
        .map_or_else(Answer::Refused, Answer::Built)
    }

    pub fn rest(&self, line: Line) -> Answer {
        rest(self.bytes.file(line), line.depth(), self.lent(line)).map_or_else(
            Answer::Refused,
            Answer::Rest,
        )
    }

    pub fn level(&self, line: Line) -> Answer {
        level(
            self.bytes.file(line),
            line.depth(),
            line.states(),
            line.goal(),
            self.lent(line),
        )
        .map_or_else(Answer::Refused, Answer::Level)
    }

    pub fn level_within(&self, line: Line) -> Answer {
        level_within(
            self.bytes.file(line),
            line.depth(),
            line.states(),
            line.goal(),
            first(&self.possible, line.size(Column::Out)),
            self.lent(line),
        )
        .map_or_else(Answer::Refused, Answer::Levels)
    }

    pub fn level_share(&self, line: Line) -> Answer {
        let weights = self.bytes.weights();
        level_share(
            self.bytes.file(line),
            line.depth(),
            line.goal(),
            first(&weights, self.bytes.weight_count()),
            line.short(Column::Set),
            line.short(Column::Out),
            self.lent(line),
        )
        .map_or_else(Answer::Refused, Answer::Level)
    }

    pub fn extract(&mut self, line: Line) -> Answer {
        let words = first(&self.graph, line.size(Column::Words));
        let out = first_mut(&mut self.extract, line.size(Column::Out));
        extract(
            self.bytes.file(line),
            line.depth(),
            line.states(),
            words,
            out,
        )
        .map_or_else(Answer::Refused, Answer::Extracted)
    }

    pub fn plan(&self, line: Line, out: &mut [u32]) -> Answer {
        plan(
            self.bytes.file(line),
            line.depth(),
            line.states(),
            line.goal(),
            self.lent(line),
            out,
        )
        .map_or_else(Answer::Refused, Answer::Planned)
    }

    pub fn run(&self, line: Line, out: &mut [u32]) -> Answer {
        let list = self.bytes.list(line, Column::Depth);
        run(self.bytes.file(line), line.states(), list, out).map_or_else(
            Answer::Refused,
            Answer::Ran,
        )
    }

    pub fn page(&self, line: Line, out: &mut [u16]) -> Answer {
        let list = self.bytes.list(line, Column::Goal);
        let goals = sets(list);
        page(
            self.bytes.file(line),
            line.depth(),
            line.states(),
            first(&goals, list.len()),
            self.lent(line),
            out,
        )
        .map_or_else(Answer::Refused, Answer::Paged)
    }

    // The words that a line has printed of a memory.
    pub fn graph_part(&self, line: Line) -> Listed<'_, u64> {
        Listed(line.part(&self.graph))
    }

    pub fn possible_part(&self, line: Line) -> Listed<'_, u64> {
        Listed(line.part(&self.possible))
    }

    pub fn extract_part(&self, line: Line) -> Listed<'_, u64> {
        Listed(line.part(&self.extract))
    }
}
