// The caller's checks that calls share: one for each cause, and the chain of causes 6 to 9 of a call that reads or writes a graph.
ghost use Rattle.std.specs.Prelude.{◌≡◌, ◌≤◌};
ghost use Rattle.rules.specs.Test.{below, choose};
ghost use Rattle.words.specs.Width.{prop_width, state_width};
ghost use Rattle.graph.specs.Verdict.{verdict, accepted, turned_away};
ghost use Rattle.graph.specs.Checks as C;
ghost use Rattle.graph.specs.File.{Ranged};

use crate::format::Counts;
use crate::layout::word_count;
use crate::limits::MAX_DEPTH;
use crate::refusal::Refusal;
use words::sets::{Props, Set, States};

// Cause 6.
fn check_depth(depth: usize) -> Result<(), Refusal>
    ensures { verdict result ≡ C.depth_rule depth }
{
    if MAX_DEPTH < depth {
        return Err(Refusal::Depth);
    }
    Ok(())
}

// Cause 7.
pub fn check_set(states: usize, set: States) -> Result<(), Refusal>
    requires { states ≤ state_width }
    ensures { verdict result ≡ C.set_rule states set.0 }
{
    if set.is_empty() {
        return Err(Refusal::StateSet);
    }
    if States::first(states).0 < set.0 {
        return Err(Refusal::StateSet);
    }
    Ok(())
}

// Cause 8.
pub fn check_goal(props: usize, goal: Props) -> Result<(), Refusal>
    requires { props ≤ prop_width }
    ensures { verdict result ≡ C.goal_rule props goal.0 }
{
    if Props::first(props).0 < goal.0 {
        return Err(Refusal::Goal);
    }
    Ok(())
}

// Whether there is as much as is wanted; `why` is the refusal where there is less.
fn check_room(wanted: usize, have: usize, why: Refusal) -> Result<(), Refusal>
    ensures { verdict result ≡ choose (below have wanted) (turned_away why) (accepted tt) }
{
    if have < wanted {
        return Err(why);
    }
    Ok(())
}

// Cause 9.
pub fn check_memory(wanted: usize, have: usize) -> Result<(), Refusal>
    ensures { verdict result ≡ C.memory_rule wanted have }
{
    check_room(wanted, have, Refusal::Memory(wanted))
}

// Cause 10.
pub fn check_output(wanted: usize, have: usize) -> Result<(), Refusal>
    ensures { verdict result ≡ C.output_rule wanted have }
{
    check_room(wanted, have, Refusal::Output(wanted))
}

// Causes 7 and 8, for a call that takes a set of states and a goal.
// Kept (point 5): here and below: with a `View` in place of the counts more would be asked, a file that has them.
pub fn check_asked(c: Counts, set: States, goal: Props) -> Result<(), Refusal>
    requires { Ranged c }
    ensures { verdict result ≡ C.asked_rule c set.0 goal.0 }
{
    check_set(c.states, set)?;
    check_goal(c.props, goal)
}

// Causes 6 to 9: `asked` is what was found of the set and the goal, `Ok` for a call that takes neither.
pub fn check_graph(
    c: Counts,
    depth: usize,
    asked: Result<(), Refusal>,
    have: usize,
) -> Result<(), Refusal>
    requires { Ranged c }
    ensures { verdict result ≡ C.graph_rule c depth (verdict asked) have }
{
    check_depth(depth)?;
    asked?;
    check_memory(word_count(c.shape(), depth), have)
}
