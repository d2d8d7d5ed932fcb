// Start states known within bounds: the file's states are the sure sets, a lent list gives the possible sets. The graph for these, and levels from both graphs.
#![tactic(auto)]

mod possible;

ghost use Rattle.std.specs.Prelude.{◌≡◌, length};
ghost use Rattle.rules.specs.Lists.{list_over};
ghost use Rattle.graph.specs.Verdict.{laid, verdict_by};
ghost use Rattle.graph.specs.Format.{start_of};
ghost use Rattle.graph.specs.Build.{counted, looks_for};
ghost use Rattle.build.specs.Rooms.{counted_words};
ghost use Rattle.within.specs.Rule as R;

use crate::possible::check_possible;
use build::Built;
use build::over::build_over;
use graph::checks::check_asked;
use graph::file::check_file;
use graph::refusal::Refusal;
use graph::view::View;
use level::layers::{Layers, Level};
use words::columns::columns;
use words::sets::{Props, STATE_WIDTH, States};
use words::tables::ROW;

// The levels from the graph of the possible sets and from that of the sure sets.
#[derive(Clone, Copy, PartialEq, Eq, Debug)]
pub struct Levels {
    pub first: Level,
    pub second: Level,
}

// Causes 17, 6 and 9, or the words. The file's states are the sure sets.
fn build_sets(
    file: &View<'_>,
    sure: &[u32],
    possible: &[u32],
    depth: usize,
    words: &mut [u64],
) -> Result<Built, Refusal>
    requires { sure.now ≡ list_over file.now.counts.states (start_of file.now.bytes.now file.now.counts) }
    ensures { (verdict_by counted_words result ≡ counted (looks_for file.now.bytes.now file.now.counts (R.set_of possible.now) depth) (R.within_taken file.now.bytes.now file.now.counts possible.now depth (length words.old)))
        × (words.new ≡ laid (R.within_taken file.now.bytes.now file.now.counts possible.now depth (length words.old)) words.old) }
{
    check_possible(file.counts.props, sure, possible)?;
    let mut labels = [0u64; ROW];
    columns(&mut labels[..], possible);
    build_over(file, depth, labels, words)
}

// Builds the graph for the possible sets to the depth: the words stand at the front of the memory, and what lies behind them stays. Turned away, no word changes.
pub fn build_within(
    file: &[u8],
    possible: &[u32],
    depth: usize,
    words: &mut [u64],
) -> Result<Built, Refusal>
    ensures { (verdict_by counted_words result ≡ R.count_within file.now possible.now depth (length words.old))
        × (words.new ≡ laid (R.within_rule file.now possible.now depth (length words.old)) words.old) }
{
    let view = check_file(file)?;
    let n = view.counts.states;
    let mut room = [0u32; STATE_WIDTH];
    let sure = &mut room[0..n];
    view.lay_starts(&mut *sure);
    build_sets(&view, &sure[..], possible, depth, words)
}

// The levels of a goal for a set of states, over the words of both graphs as found: causes 1 to 9, or both.
pub fn level_within(
    file: &[u8],
    depth: usize,
    set: States,
    goal: Props,
    possible: &[u64],
    sure: &[u64],
) -> Result<Levels, Refusal>
    ensures { verdict_by R.levels_said result ≡ R.levels_rule file.now depth set.0 goal.0 possible.now sure.now }
{
    let c = check_file(file)?.counts;
    let asked = check_asked(c, set, goal);
    let widest = Layers::lent(c, depth, asked, possible)?;
    let least = Layers::lent(c, depth, asked, sure)?;
    let first = widest.level(set, goal);
    let second = least.level(set, goal);
    Ok(Levels { first, second })
}
