// What two effects are together in, all pairs row by row; and rows joined over the adders of each proposition.
ghost use Rattle.std.specs.Prelude.{◌≡◌, ℕ, ◌<◌, length, get_or};
ghost use Rattle.rules.specs.Word.{union};
ghost use Rattle.rules.specs.Over.{join_of};
ghost use Rattle.words.specs.Rows.{row_length, table_length, cell};
ghost use Rattle.together.specs.Cells.{Pairing, Joining, with_effect};

use crate::effects::Effects;
use words::parts::{gather_row, join_row, meet_row};
use words::sets::{Set, States};
use words::tables::{ROW, clear_cells};

// An effect with itself is there where it is; with one that it interferes with nowhere. Of its interferers only those count that a row has room for.
pub fn pairs(effects: Effects, live: &[u64], turned: &[u64], mates: &mut [u64], span: usize)
    requires { Pairing span (length effects.needs.now) live.now turned.now mates.old }
    ensures { (i j : ℕ) → i < length effects.entry.needs.now → j < span → cell mates.new i j ≡ with_effect effects.entry.needs.now effects.entry.interferers.now live.now turned.now i j }
{
    for (i, need) in effects.needs.iter().enumerate() {
        meet_row(
            &mut *mates,
            i,
            live,
            live[i],
            turned,
            span,
            u64::from(*need),
        );
        let named = States::first(ROW).common(States(effects.interferers[i]));
        clear_cells(&mut *mates, i, named.0);
        mates[i * ROW + i] = live[i];
    }
}

// Row p of `to`: that of `from`, joined with the rows of a table that the set p names.
pub fn join_rows(to: &mut [u64], from: &[u64], table: &[u64], sets: &[u64], width: usize)
    requires { Joining to.old table.now sets.now width × (length from.now ≡ table_length) }
    ensures { (p k : ℕ) → p < length sets.now → k < width → cell to.new p k ≡ union (cell from.now p k) (join_of row_length (get_or sets.now p 0) (λ i. cell table.now i k)) }
{
    for (p, set) in sets.iter().enumerate() {
        join_row(&mut *to, p, from, table, width, *set);
    }
}

// Row p of `to`: the rows of a table that the set p names, joined.
pub fn gather_rows(to: &mut [u64], table: &[u64], sets: &[u64], width: usize)
    requires { Joining to.old table.now sets.now width }
    ensures { (p k : ℕ) → p < length sets.now → k < width → cell to.new p k ≡ join_of row_length (get_or sets.now p 0) (λ i. cell table.now i k) }
{
    for (p, set) in sets.iter().enumerate() {
        gather_row(&mut *to, p, table, width, *set);
    }
}
