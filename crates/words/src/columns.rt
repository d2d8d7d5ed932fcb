// A word joined to those words of a row that a set names, and lists of sets turned round: for each proposition, the numbers of the sets that contain it.
ghost use Rattle.std.specs.Prelude.{◌≡◌, ◌≤◌, length};
ghost use Rattle.rules.specs.Word as W;
ghost use Rattle.rules.specs.Over.{keep};
ghost use Rattle.rules.specs.Lists.{list_over};
ghost use Rattle.rules.specs.Layer.{label_in};
ghost use Rattle.words.specs.Rows.{columns_of};
ghost use Rattle.words.specs.Width.{prop_width, word_width};

use crate::members::{Members, single};
use crate::sets::{Props, Set};

// Joins `t` to the word of each member. Only the members cost time, and where `t` is empty they do not.
// Kept (point 5): here and below: the row is the front of a longer array, as long as there are propositions, so that no array type has its length.
pub fn spread(row: &mut [u64], set: Props, t: u64)
    requires { length row.old ≤ prop_width }
    ensures { row.new ≡ list_over (length row.old) (λ q. W.union (label_in row.old q) (keep (W.bit q set.0) t)) }
{
    if t == 0 {
        return;
    }
    for q in Members(Props::first(row.len()).common(set).word()) {
        row[q] |= t;
    }
}

// Turns the sets round, into a row of empty words: of the effects' adds these are the adders of each proposition.
pub fn columns(row: &mut [u64], sets: &[u32])
    requires { (length row.old ≤ prop_width) × (length sets.now ≤ word_width) × (row.old ≡ list_over (length row.old) (λ p. 0)) }
    ensures { row.new ≡ columns_of (length row.old) sets.now }
{
    for (i, set) in sets.iter().enumerate() {
        spread(&mut *row, Props(*set), single(i));
    }
}
