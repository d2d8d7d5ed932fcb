// Proposition layer 0: no pair is mutex, so two propositions are together wherever both are.
ghost use Rattle.std.specs.Prelude.{◌≡◌, ℕ, ◌≤◌, ◌<◌, length, get_or};
ghost use Rattle.std.proofs.Math.Bool.{So};
ghost use Rattle.rules.specs.Word as W;
ghost use Rattle.rules.specs.Domain.{Actions};
ghost use Rattle.rules.specs.Layer.{size, layer_of};
ghost use Rattle.rules.specs.Together.{layer_by};
ghost use Rattle.words.specs.Memory.{put_at};
ghost use Rattle.words.specs.Rows.{cell};
ghost use Rattle.layers.specs.Step.{Tells, Starting};

use crate::write::put_props;
use words::parts::meet_row;

// The table of these labels; `spare` is any table.
// Kept (point 3): by `labels[..n].iter().enumerate()` p stays, as the row that is written, and each label is one of the cut list, which the proof has to lead
// back to the labels; it was tried, and is longer by that.
fn start_table(t: &mut [u64], labels: &[u64], spare: &[u64], n: usize, width: usize)
    requires { Starting n width labels.now t.old spare.now }
    ensures { (p q : ℕ) → p < n → q < width → cell t.new p q ≡ W.common (get_or labels.now q 0) (get_or labels.now p 0) }
{
    for p in 0..n {
        meet_row(&mut *t, p, labels, labels[p], spare, width, 0);
    }
}

// Writes the layer of these labels at the front, and makes its table.
pub fn start(
    words: &mut [u64],
    t: &mut [u64],
    labels: &[u64],
    spare: &[u64],
    n: usize,
    width: usize,
)
    requires { Starting n width labels.now t.old spare.now × (size n ≤ length words.old) }
    ensures { (words.new ≡ put_at 0 (layer_by n (cell t.new)) words.old)
        × (layer_by n (cell t.new) ≡ layer_of n (λ p. get_or labels.now p 0) (λ p q. 0))
        × ((A : Actions) (all : ℕ) → A.props ≡ n → ((s p : ℕ) → p < n → So (W.bit s (get_or labels.now p 0)) → So (W.bit s all)) → Tells A all labels.now t.new) }
{
    start_table(&mut *t, labels, spare, n, width);
    put_props(words, n, labels, &*t);
}
