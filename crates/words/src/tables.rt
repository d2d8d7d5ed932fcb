// Tables of words: filled word by word, cleared and turned round.
ghost use Rattle.std.specs.Prelude.{◌≡◌, ℕ, ◌+◌, ◌*◌, ◌≤◌, ◌<◌, ◌^◌, length, get_or};
ghost use Rattle.rules.specs.Test.{◌and◌, same, choose};
ghost use Rattle.rules.specs.Word.{bit, common, without};
ghost use Rattle.rules.specs.Lists.{list_over};
ghost use Rattle.words.specs.Memory.{put_at};
ghost use Rattle.words.specs.Rows.{row_length, table_length, cell};

use crate::members::Members;

// From one row of a table to the next.
pub const ROW: usize = 32;

pub const TABLE: usize = 1024;

// Words of a layer: what each of some labels shares with a word, without what a table has there.
pub fn put_apart(out: &mut [u64], own: u64, labels: &[u64], table: &[u64])
    requires { (length out.old ≤ length labels.now) × (length out.old ≤ length table.now) }
    ensures { out.new ≡ list_over (length out.old) (λ k. without (common own (get_or labels.now k 0)) (get_or table.now k 0)) }
{
    for (k, word) in out.iter_mut().enumerate() {
        let both = own & labels[k];
        *word = both ^ (both & table[k]);
    }
}

// Empties those words of a row that a set names.
// Kept (point 6): a table and the number of its row, which the clause speaks of: the row alone, cut by the caller, would be the same two numbers there.
pub fn clear_cells(table: &mut [u64], row: usize, set: u64)
    requires { (length table.old ≡ table_length) × (row < row_length) × (set < 2 ^ row_length) }
    ensures { table.new ≡ put_at (row * row_length) (list_over row_length (λ k. choose (bit k set) 0 (cell table.old row k))) table.old }
{
    for k in Members(set) {
        table[row * ROW + k] = 0;
    }
}

// Empties the word in a column of those rows that a set names.
pub fn clear_column(table: &mut [u64], column: usize, set: u64)
    requires { (length table.old ≡ table_length) × (column < row_length) × (set < 2 ^ row_length) }
    ensures { (p q : ℕ) → q < row_length → cell table.new p q ≡ choose (same q column and bit p set) 0 (cell table.old p q) }
{
    for p in Members(set) {
        table[p * ROW + column] = 0;
    }
}

// Column j of a table becomes row j of another.
// Kept (point 3): a column of one table and a row of another: `to[j * ROW..].iter_mut().zip(from[j..].iter().step_by(ROW)).take(m)` has three adapters for the one line.
fn turn_column(to: &mut [u64; TABLE], from: &[u64; TABLE], m: usize, j: usize)
    requires { (m ≤ row_length) × (j < row_length) }
    ensures { to.new ≡ put_at (j * row_length) (list_over m (λ i. cell from.now i j)) to.old }
{
    for i in 0..m {
        to[j * ROW + i] = from[i * ROW + j];
    }
}

// Turns a table of m rows and n columns round.
pub fn turn(to: &mut [u64; TABLE], from: &[u64; TABLE], m: usize, n: usize)
    requires { (m ≤ row_length) × (n ≤ row_length) }
    ensures { (i j : ℕ) → i < m → j < n → cell to.new j i ≡ cell from.now i j }
{
    for j in 0..n {
        turn_column(&mut *to, from, m, j);
    }
}
