// The build: the file's graph to a depth, written into lent memory, or the cause for which it is turned away.
#![tactic(auto)]

mod copies;

// For the other crates of this repository, which meet what each function asks.
pub mod over;
mod problem;
mod steps;

ghost use Rattle.std.specs.Prelude.{◌≡◌, length};
ghost use Rattle.graph.specs.Verdict.{laid, verdict_by};
ghost use Rattle.graph.specs.Build.{build_rule, count_rule};
ghost use Rattle.build.specs.Rooms.{counted_words};

use crate::over::build_over;
use graph::file::check_file;
use graph::refusal::Refusal;
use words::tables::ROW;

// The number of words written, and of the vertices and pairs that the scans looked at.
#[derive(Clone, Copy, PartialEq, Eq, Debug)]
pub struct Built {
    pub words: usize,
    pub looked: usize,
}

// Builds the file's graph to the depth: the words stand at the front of the memory, and what lies behind them stays. Turned away, no word changes.
pub fn build(file: &[u8], depth: usize, words: &mut [u64]) -> Result<Built, Refusal>
    ensures { (verdict_by counted_words result ≡ count_rule file.now depth (length words.old))
        × (words.new ≡ laid (build_rule file.now depth (length words.old)) words.old) }
{
    let view = check_file(file)?;
    let mut labels = [0u64; ROW];
    view.start_labels(&mut labels[..]);
    build_over(&view, depth, labels, words)
}
