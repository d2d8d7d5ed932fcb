// What each effect deletes, cut out of the table of the effects with the propositions: only what is deleted costs time.
ghost use Rattle.std.specs.Prelude.{◌≡◌, ℕ, ◌<◌, length, get_or};
ghost use Rattle.rules.specs.Test.{choose};
ghost use Rattle.rules.specs.Word.{bit};
ghost use Rattle.words.specs.Rows.{row_length, cell};
ghost use Rattle.together.specs.Cells.{Cutting, with_prop};

use words::tables::{clear_cells, clear_column};

// The table has a row for each effect.
// Kept (point 2): one function for this and `cut_columns` would take `clear_cells` or `clear_column` as a closure, and its contract say by a relation between cells what the closure clears, which is all that the two clauses say.
pub fn cut_rows(r: &mut [u64], dels: &[u32])
    requires { Cutting dels.now r.old }
    ensures { (i q : ℕ) → i < length dels.now → q < row_length → cell r.new i q ≡ with_prop dels.now r.old i q }
{
    for (i, del) in dels.iter().enumerate() {
        clear_cells(&mut *r, i, u64::from(*del));
    }
}

// It is turned round and has a column for each.
pub fn cut_columns(turned: &mut [u64], dels: &[u32])
    requires { Cutting dels.now turned.old }
    ensures { (i q : ℕ) → i < length dels.now → cell turned.new q i ≡ choose (bit q (get_or dels.now i 0)) 0 (cell turned.old q i) }
{
    for (i, del) in dels.iter().enumerate() {
        clear_column(&mut *turned, i, u64::from(*del));
    }
}
