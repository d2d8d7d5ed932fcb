// The data files, whose cases are judged one by one.
ghost use Rattle.std.specs.Prelude.{◌<◌};

use crate::calls::{Case, Memory};
use crate::data::{Numbers, Row, Rows};
use crate::kinds::{COUNT, KINDS, Kind};
use crate::memory::digest_bytes;
use crate::{calls, levels};
use std::io;
use std::io::Write;

// Kept (point 1): two kinds of file, of which neither is the lack of the other, so no Option.
#[derive(Clone, Copy)]
pub enum File {
    Calls,
    Levels,
}

impl File {
    pub fn name(self) -> &'static str {
        match self {
            File::Calls => "calls.bin",
            File::Levels => "levels.bin",
        }
    }

    // The kinds of its cases.
    fn kinds(self) -> &'static [Kind] {
        match self {
            File::Calls => &KINDS[..10],
            File::Levels => &KINDS[10..],
        }
    }

    // How many numbers a case has.
    fn width(self) -> usize
        ensures { 0 < result }
    {
        match self {
            File::Calls => calls::NUMBERS,
            File::Levels => levels::NUMBERS,
        }
    }

    // The kind of a case: none where the case is cut, or names no kind.
    fn kind(self, row: Numbers) -> Option<Kind> {
        row.after(self.width())?;
        match self {
            File::Calls => KINDS.get(row.index(calls::KIND)).copied(),
            File::Levels => Some(Kind::Levels),
        }
    }

    // The store and the cases: behind the number of cases of each kind stands the store's length.
    fn parts<'a>(self, data: &'a [u8]) -> (&'a [u8], &'a [u8]) {
        let head = Numbers(data);
        let kinds = self.kinds().len();
        let Some(behind) = head.from(kinds).after(1) else {
            return (&[], &[]);
        };
        let at = data.len() - behind.0.len();
        let end = at.wrapping_add(head.index(kinds));
        (
            data.get(at..end).unwrap_or_default(),
            data.get(end..).unwrap_or_default(),
        )
    }

    // Judges the cases.
    pub fn judge(self, out: &mut impl Write, data: &[u8]) -> io::Result<()> {
        let name = self.name();
        let length = data.len();
        let digest = digest_bytes(data);
        writeln!(out, "{name}: {length} bytes, digest {digest:016x}")?;
        let (store, cases) = self.parts(data);
        let rows = Rows {
            rest: Numbers(cases),
            width: self.width(),
        };
        let mut judge = Judge::new();
        for numbers in rows {
            let kind = self.kind(numbers);
            let row = Row { store, numbers };
            judge.count(out, Case { kind, row })?;
        }
        writeln!(out, "{name}: {} cases", judge.cases)?;
        judge.say(out, self.kinds(), Numbers(data))
    }
}

// The memory of the calls, how many cases there were, and how many of each kind agree.
#[derive(Drop)]
struct Judge {
    memory: Memory,
    cases: usize,
    agree: [u64; COUNT],
}

impl Judge {
    fn new() -> Judge {
        Judge {
            memory: Memory::new(),
            cases: 0,
            agree: [0; COUNT],
        }
    }

    // Whether a case agrees; what came is printed where it does not.
    fn agrees(&mut self, out: &mut impl Write, case: Case) -> io::Result<bool> {
        if case.kind == Some(Kind::Levels) {
            return Ok(levels::agrees(case.row));
        }
        let came = self.memory.call(case);
        if came == case.wanted() {
            return Ok(true);
        }
        writeln!(out, "{came}")?;
        Ok(false)
    }

    // Counts a case; one that does not agree is named by its number.
    fn count(&mut self, out: &mut impl Write, case: Case) -> io::Result<()> {
        self.cases = self.cases.saturating_add(1);
        if !self.agrees(out, case)? {
            return writeln!(out, "not so in case {}", self.cases);
        }
        if let Some(kind) = case.kind {
            let n = &mut self.agree[kind as usize];
            *n = n.saturating_add(1);
        }
        Ok(())
    }

    // How many of each kind agree, of as many as the head announces.
    // Kept (point 4): it prints by `writeln!` and the kind's `Display`; one for the judge would lack the kinds and the head.
    fn say(&self, out: &mut impl Write, kinds: &[Kind], head: Numbers) -> io::Result<()> {
        for (i, kind) in kinds.iter().enumerate() {
            let n = self.agree[*kind as usize];
            writeln!(out, "{kind}: {n} of {} agree", head.entry(i))?;
        }
        Ok(())
    }
}
