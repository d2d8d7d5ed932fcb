// The kinds of cases.
use std::fmt;

#[derive(Clone, Copy, Debug, PartialEq, Eq)]
pub enum Kind {
    Build,
    Rest,
    Level,
    Extract,
    Plan,
    Run,
    Page,
    BuildWithin,
    LevelWithin,
    Weighted,
    // A problem file's.
    Levels,
}

pub const COUNT: usize = 11;

// All of them, by the numbers that calls.bin has for them; the last is that of levels.bin, whose rows do not name it.
pub const KINDS: [Kind; COUNT] = [
    Kind::Build,
    Kind::Rest,
    Kind::Level,
    Kind::Extract,
    Kind::Plan,
    Kind::Run,
    Kind::Page,
    Kind::BuildWithin,
    Kind::LevelWithin,
    Kind::Weighted,
    Kind::Levels,
];

impl fmt::Display for Kind {
    fn fmt<W: fmt::Write>(&self, f: &mut fmt::Formatter<W>) -> fmt::Result {
        f.write_str(match self {
            Kind::Build => "build",
            Kind::Rest => "rest",
            Kind::Level => "level",
            Kind::Extract => "extract",
            Kind::Plan => "plan",
            Kind::Run => "run",
            Kind::Page => "page",
            Kind::BuildWithin => "build-within",
            Kind::LevelWithin => "level-within",
            Kind::Weighted => "weighted",
            Kind::Levels => "levels",
        })
    }
}
