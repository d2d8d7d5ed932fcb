// The layers from the level down.
ghost use Rattle.std.specs.Prelude.{◌≡◌, [], ◌≤◌, length};
ghost use Rattle.rules.specs.Word as W;
ghost use Rattle.rules.specs.Over.{all_below};
ghost use Rattle.rules.specs.Layer.{label_in};
ghost use Rattle.rules.specs.Plan as P;
ghost use Rattle.graph.specs.Checks.{Room};
ghost use Rattle.plan.specs.Search.{listed_actions, listed_shape, Live, planned_as};

use crate::layer::{Effects, fall};

// Whether each need of layer 0 lies within its label. No way leads out of the loop, so that it takes several at a time.
// Kept (point 3): `for (need, label) in needed.iter().zip(words)` is no plainer: what it did so far is a fact about what the two iterators still have to give.
fn grounded(needed: &[u64], words: &[u64]) -> bool
    requires { length needed.now ≤ length words.now }
    ensures { result ≡ all_below (length needed.now) (λ p. W.within (label_in needed.now p) (label_in words.now p)) }
{
    let mut outside = 0;
    for (p, need) in needed.iter().enumerate() {
        outside = outside | (need ^ (need & words[p]));
    }
    outside == 0
}

// The layers from the last word of the plan down to layer 0; or where states are left uncovered, the first such layer.
pub fn descend(
    needed: &mut [u64],
    goal: u32,
    words: &[u64],
    effects: &Effects<'_>,
    plan: &mut [u32],
) -> Result<(), usize>
    requires { Room (listed_shape effects.now.needs.now effects.now.adders.now) (length plan.old) words.now × (length needed.old ≡ length effects.now.adders.now) × Live goal needed.old }
    ensures { planned_as result plan.new
        ≡ P.descend (listed_actions effects.now.needs.now effects.now.owners.now effects.now.adders.now) words.now (length plan.old) needed.old [] }
{
    let mut live = goal;
    // Kept (point 3): by `plan.iter_mut().enumerate().rev()` nothing is known of the plan, since no adapter of `iter_mut` says what it is after it.
    for t in (0..plan.len()).rev() {
        let answer = fall(&mut *needed, live, words, t, effects);
        let Some(layer) = answer else {
            return Err(t + 1);
        };
        plan[t] = layer.marks;
        live = layer.live;
    }
    if grounded(&*needed, words) {
        return Ok(());
    }
    Err(0)
}
