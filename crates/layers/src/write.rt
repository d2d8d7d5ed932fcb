// The words of a layer, from its labels and its tables: what two labels share, without what is together.
ghost use Rattle.std.specs.Prelude.{◌≡◌, ◌+◌, ◌*◌, ◌≤◌, length};
ghost use Rattle.rules.specs.Lists.{list_over, run_over};
ghost use Rattle.rules.specs.Layer.{pairs, size, row_of};
ghost use Rattle.rules.specs.Together.{layer_by};
ghost use Rattle.words.specs.Memory.{put_at};
ghost use Rattle.words.specs.Rows.{row_length, table_length, cell};
ghost use Rattle.layers.specs.Write.{apart, Diagonal, Laid, effect_row, action_words, Labelled};

use together::effects::{Layer, Tables};
use words::tables::{ROW, put_apart};

// Words from `to` on.
// Kept (point 6): one list behind the other into the same words: the place is where the one before ended.
fn put_words(words: &mut [u64], to: usize, from: &[u64])
    requires { to + length from.now ≤ length words.old }
    ensures { words.new ≡ put_at to from.now words.old }
{
    let end = to + from.len();
    words[to..end].copy_from_slice(from);
}

// The pairs of n elements, row by row.
// Kept (point 3): each row is shorter by one than the one before, and is cut out of words, labels and table at other places.
// Kept (point 6): as `put_words`.
fn put_pairs(words: &mut [u64], to: usize, n: usize, labels: &[u64], t: &[u64])
    requires { Laid n labels.now t.now × (to + pairs n ≤ length words.old) }
    ensures { words.new ≡ put_at to (run_over n (row_of n (apart labels.now t.now))) words.old }
{
    let mut at = to;
    for p in 0..n {
        let left = n - 1 - p;
        let end = at + left;
        put_apart(
            &mut words[at..end],
            labels[p],
            &labels[p + 1..],
            &t[p * ROW + p + 1..],
        );
        at = end;
    }
}

// The pairs of each effect: with the later effects, then with each of n propositions. Where they end.
// Kept (point 3): as `put_pairs`: i is a place in four lists.
// Kept (point 6): as `put_words`.
fn put_rows(
    words: &mut [u64],
    to: usize,
    n: usize,
    a: usize,
    labels: &[u64],
    tables: &Tables,
) -> usize
    requires { Labelled n a labels.now × (to + (pairs a + a * n) ≤ length words.old) }
    ensures { (result ≡ to + (pairs a + a * n)) × (words.new ≡ put_at to (run_over a (effect_row n a tables.now.live labels.now tables.now.mates tables.now.r)) words.old) }
{
    let live = &tables.live[..];
    let mates = &tables.mates[..];
    let r = &tables.r[..];
    let mut at = to;
    for i in 0..a {
        let own = live[i];
        let with_props = at + (a - 1 - i);
        let end = with_props + n;
        put_apart(
            &mut words[at..with_props],
            own,
            &live[i + 1..],
            &mates[i * ROW + i + 1..],
        );
        put_apart(&mut words[with_props..end], own, labels, &r[i * ROW..]);
        at = end;
    }
    at
}

// The proposition layer that a table tells, at the front.
pub fn put_props(words: &mut [u64], n: usize, labels: &[u64], t: &[u64])
    requires { Laid n labels.now t.now × (size n ≤ length words.old) × Diagonal n labels.now t.now }
    ensures { words.new ≡ put_at 0 (layer_by n (cell t.now)) words.old }
{
    put_words(&mut *words, 0, &labels[..n]);
    put_pairs(words, n, n, labels, t);
}

// The action layer, at the front.
pub fn put_actions(words: &mut [u64], n: usize, a: usize, layer: &Layer, tables: &Tables)
    requires { (n ≤ row_length) × (a ≤ row_length) × (size (a + n) ≤ length words.old) }
    ensures { words.new ≡ put_at 0 (action_words n a tables.now.live layer.now.labels layer.now.t tables.now.mates tables.now.r) words.old }
{
    put_words(&mut *words, 0, &tables.live[..a]);
    put_words(&mut *words, a, &layer.labels[..n]);
    let at = put_rows(&mut *words, a + n, n, a, &layer.labels[..], tables);
    put_pairs(words, at, n, &layer.labels[..], &layer.t[..]);
}
