// What a step answers, as it is printed.
use build::Built;
use graph::refusal::Refusal;
use level::layers::Level;
use plan::Planned;
use run::Ran;
use std::fmt;
use within::Levels;

#[derive(Clone, Copy)]
pub enum Answer {
    Built(Built),
    Rest(Option<usize>),
    Level(Level),
    Levels(Levels),
    Extracted(usize),
    Planned(Planned),
    Ran(Ran),
    Paged(usize),
    Refused(Refusal),
    NoSuchStep,
}

// A level by itself: the layer, or that there is none.
#[derive(Drop)]
struct Layer(Level);

impl fmt::Display for Layer {
    fn fmt<W: fmt::Write>(&self, f: &mut fmt::Formatter<W>) -> fmt::Result {
        match self.0 {
            Level::At(t) => write!(f, "{t}"),
            Level::Never => f.write_str("never"),
            Level::NotByDepth => f.write_str("not by depth"),
        }
    }
}

impl fmt::Display for Answer {
    fn fmt<W: fmt::Write>(&self, f: &mut fmt::Formatter<W>) -> fmt::Result {
        match *self {
            Answer::Built(Built { words, looked }) => write!(f, "built {words} looked {looked}"),
            Answer::Rest(Some(t)) => write!(f, "rest {t}"),
            Answer::Rest(None) => f.write_str("none"),
            Answer::Level(Level::At(t)) => write!(f, "level {t}"),
            Answer::Level(none) => write!(f, "{}", Layer(none)),
            Answer::Levels(Levels { first, second }) => write!(
                f,
                "levels {}, {}",
                Layer(first),
                Layer(second)
            ),
            Answer::Extracted(n) => write!(f, "extracted {n}"),
            Answer::Planned(Planned { level, marked }) => write!(f, "plan {level} count {marked}"),
            Answer::Ran(Ran { sets, idle }) => write!(f, "ran {sets} idle {idle}"),
            Answer::Paged(n) => write!(f, "paged {n}"),
            Answer::Refused(why) => write!(f, "refused {why}"),
            Answer::NoSuchStep => f.write_str("no such step"),
        }
    }
}

// Numbers, a blank behind each.
#[derive(Clone, Copy)]
pub struct Listed<'a, T>(pub &'a [T]);

impl<T: fmt::Display> fmt::Display for Listed<'_, T> {
    fn fmt<W: fmt::Write>(&self, f: &mut fmt::Formatter<W>) -> fmt::Result {
        for x in self.0 {
            write!(f, "{x} ")?;
        }
        Ok(())
    }
}
