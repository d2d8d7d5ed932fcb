// Level and rest: the file and the depth are given again, and the graph words are read as found.
#![tactic(auto)]

mod goal;

// For the other crates of this repository, which meet what each function asks.
pub mod layers;

ghost use Rattle.std.specs.Prelude.{◌≡◌};
ghost use Rattle.rules.specs.Level as L;
ghost use Rattle.graph.specs.Verdict.{verdict_by};
ghost use Rattle.level.specs.Rule as R;

use crate::layers::{Layers, Level};
use graph::checks::check_asked;
use graph::file::check_file;
use graph::refusal::Refusal;
use words::sets::{Props, States};

// The level of a goal for a set of states: causes 1 to 9, or the level.
pub fn level(
    file: &[u8],
    depth: usize,
    set: States,
    goal: Props,
    words: &[u64],
) -> Result<Level, Refusal>
    ensures { verdict_by R.level_said result ≡ R.level_rule file.now depth set.0 goal.0 words.now }
{
    let c = check_file(file)?.counts;
    let layers = Layers::lent(c, depth, check_asked(c, set, goal), words)?;
    Ok(layers.level(set, goal))
}

// The first layer of these that equals the next one.
fn rest_of(layers: &Layers<'_>) -> Option<usize>
    ensures { R.rest_said result ≡ L.rest_of layers.now.shape layers.now.depth layers.now.words.now }
{
    let t = layers.first_rest();
    if t < layers.depth {
        return Some(t);
    }
    None
}

// The first layer that equals the next one: causes 1 to 6 and 9, or that layer where there is one.
pub fn rest(file: &[u8], depth: usize, words: &[u64]) -> Result<Option<usize>, Refusal>
    ensures { verdict_by R.rest_said result ≡ R.rest_rule file.now depth words.now }
{
    let c = check_file(file)?.counts;
    let layers = Layers::lent(c, depth, Ok(()), words)?;
    Ok(rest_of(&layers))
}
