// Enough of the weight: the level at a share of the start states, each with its weight. The graph words are read as found.
#![tactic(auto)]

mod enough;
mod weights;

ghost use Rattle.std.specs.Prelude.{◌≡◌};
ghost use Rattle.rules.specs.Share.{share_of};
ghost use Rattle.graph.specs.File.{Ranged};
ghost use Rattle.graph.specs.Verdict.{and_then, verdict, verdict_by};
ghost use Rattle.graph.specs.Checks.{goal_rule};
ghost use Rattle.level.specs.Rule.{level_said};
ghost use Rattle.share.specs.Sums.{rule_by};
ghost use Rattle.share.specs.Rule as R;

use crate::enough::{Share, first_enough};
use crate::weights::{check_weights, total_for};
use graph::checks::check_goal;
use graph::file::check_file;
use graph::format::Counts;
use graph::refusal::Refusal;
use level::layers::{Layers, Level};
use words::sets::Props;

// Causes 8 and 18, by the total of the weights.
// Kept (point 5): the counts as `check_goal` and `check_graph` have them.
fn check_wanted(
    c: Counts,
    goal: Props,
    total: u32,
    numerator: u16,
    denominator: u16,
) -> Result<(), Refusal>
    requires { Ranged c }
    ensures { verdict result ≡ and_then (goal_rule c.props goal.0) (λ _. rule_by total numerator denominator) }
{
    check_goal(c.props, goal)?;
    check_weights(total, numerator, denominator)
}

// The level of a goal at a share of the weight, over the graph's words as found.
pub fn level_share(
    file: &[u8],
    depth: usize,
    goal: Props,
    weights: &[u16],
    numerator: u16,
    denominator: u16,
    words: &[u64],
) -> Result<Level, Refusal>
    ensures { verdict_by level_said result ≡ R.share_rule file.now depth goal.0 (share_of weights.now numerator denominator) words.now }
{
    let c = check_file(file)?.counts;
    let total = total_for(c.states, weights);
    let wanted = check_wanted(c, goal, total, numerator, denominator);
    let layers = Layers::lent(c, depth, wanted, words)?;
    let share = Share {
        weights,
        total,
        numerator,
        denominator,
    };
    let t = first_enough(&layers, goal, &share);
    Ok(layers.level_by(t))
}
