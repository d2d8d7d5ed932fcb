// The labels of the effects, and what each is together with among the propositions, whatever it deletes.
ghost use Rattle.std.specs.Prelude.{◌≡◌, ℕ, ◌<◌, length, get_or};
ghost use Rattle.rules.specs.Lists.{list_over};
ghost use Rattle.words.specs.Memory.{put_at};
ghost use Rattle.words.specs.Rows.{Source, cell};
ghost use Rattle.together.specs.Cells.{Row, RowPut, Admitting, label_for, row_for};

use crate::effects::{Effects, Layer};
use words::members::{lowest, meet_at, others};
use words::parts::meet_row;
use words::tables::ROW;

// The states in which all needs are together: of each need, with those from it on.
fn label_of(need: u64, all: u64, t: &[u64]) -> u64
    requires { Source t.now need }
    ensures { result ≡ label_for all t.now need }
{
    // Kept (point 3): by `for p in Members(need)`, with the needs from p on cut out of all, a dense build is 1.04 times as slow.
    let mut left = need;
    let mut label = all;
    while 0 < left {
        let at = lowest(left) * ROW;
        let end = at + ROW;
        label = meet_at(&t[at..end], left, label);
        left = others(left);
    }
    label
}

// Row i: the effect with each proposition, in the states of its label.
fn admit_row(
    r: &mut [u64],
    i: usize,
    need: u64,
    all: u64,
    labels: &[u64],
    t: &[u64],
    width: usize,
) -> u64
    requires { Row i width need r.old labels.now t.now }
    ensures { (result ≡ label_for all t.now need) × RowPut (row_for all labels.now t.now need) width i r.old r.new }
{
    let label = label_of(need, all, t);
    meet_row(&mut *r, i, labels, label, t, width, need);
    label
}

// All effects, one after the other.
pub fn admit(
    effects: Effects,
    all: u64,
    layer: &Layer,
    r: &mut [u64],
    live: &mut [u64],
    width: usize,
)
    requires { Admitting width effects.needs.now r.old live.old }
    ensures { (live.new ≡ put_at 0 (list_over (length effects.entry.needs.now) (λ i. label_for all layer.now.t (get_or effects.entry.needs.now i 0))) live.old)
        × ((i q : ℕ) → i < length effects.entry.needs.now → q < width → cell r.new i q ≡ row_for all layer.now.labels layer.now.t (get_or effects.entry.needs.now i 0) q) }
{
    for (i, need) in effects.needs.iter().enumerate() {
        live[i] = admit_row(
            &mut *r,
            i,
            u64::from(*need),
            all,
            &layer.labels[..],
            &layer.t[..],
            width,
        );
    }
}
