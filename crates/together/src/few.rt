// What two effects are together in, one pair after the other: less work than whole rows where most effects interfere.
ghost use Rattle.std.specs.Prelude.{◌≡◌, ℕ, ◌≤◌, ◌<◌, length, get_or};
ghost use Rattle.rules.specs.Test.{choose};
ghost use Rattle.rules.specs.Word as W;
ghost use Rattle.rules.specs.Over.{keep, join_of};
ghost use Rattle.rules.specs.Lists.{list_over};
ghost use Rattle.words.specs.Memory.{put_at};
ghost use Rattle.words.specs.Rows.{row_length, cell, Target, Source, InParts};
ghost use Rattle.together.specs.Kept.{Kept};
ghost use Rattle.together.specs.Cells.{RowPut, Independent, EmptyRows, with_independent, mates_of, beside_of, mate_of, beside_for};

use crate::effects::{Effects, Tables};
use words::columns::spread;
use words::members::{Members, meet_at, single};
use words::parts::join_row;
use words::sets::{Props, Set, States};
use words::tables::{ROW, clear_cells};

// Effect i with each of these, which are independent of it:
// `mates` gets what the two are together in, and `beside` has it joined to each proposition that the other adds.
fn few_row(
    i: usize,
    set: u64,
    effects: Effects,
    live: &[u64],
    row: &[u64],
    mates: &mut [u64],
    beside: &mut [u64],
)
    requires { Independent i set (length effects.needs.now) live.now row.now × (length mates.old ≡ row_length) × (length beside.old ≡ row_length) }
    ensures { (mates.new ≡ list_over row_length (λ j. choose (W.bit j set) (with_independent effects.entry.needs.now live.now row.now i j) (get_or mates.old j 0)))
        × (beside.new ≡ list_over row_length (λ p. W.union (get_or beside.old p 0) (join_of row_length set (λ j. keep (W.bit p (get_or effects.entry.adds.now j 0)) (with_independent effects.entry.needs.now live.now row.now i j))))) }
{
    for j in Members(set) {
        let both = meet_at(row, u64::from(effects.needs[j]), live[i] & live[j]);
        mates[j] = both;
        spread(&mut *beside, Props(effects.adds[j]), both);
    }
}

// Effect i with those independent of it and with itself, which adds what it adds.
// Kept (point 5): here and below: `row` and the like are parts of a table, lent by `few_effects`, and no arrays of their own.
fn few_effect(
    i: usize,
    effects: Effects,
    live: &[u64],
    row: &[u64],
    mates: &mut [u64],
    beside: &mut [u64],
)
    requires { (i < length effects.needs.now) × (length live.now ≡ row_length) × (length row.now ≡ row_length) × (length mates.old ≡ row_length) × (length beside.old ≡ row_length) }
    ensures { (mates.new ≡ mates_of effects.entry.needs.now effects.entry.interferers.now live.now row.now i mates.old)
        × (beside.new ≡ beside_of effects.entry.needs.now effects.entry.adds.now effects.entry.interferers.now live.now row.now i beside.old) }
{
    let all = States::first(effects.needs.len()).0;
    let independent = all ^ (all & (effects.interferers[i] | single(i)));
    few_row(
        i,
        independent,
        effects,
        live,
        row,
        &mut *mates,
        &mut *beside,
    );
    mates[i] = live[i];
    spread(&mut *beside, Props(effects.adds[i]), live[i]);
}

// Copies row i, without the words that a set names.
// Kept (point 5): here and below, the width: a type for PART or ROW would give its number to each loop over a row, and `Frame` has the number.
fn keep_row(besides: &mut [u64], i: usize, r: &[u64], del: u64, width: usize)
    requires { Target besides.old i × Source r.now del × InParts width }
    ensures { RowPut (λ k. choose (W.bit k del) 0 (cell r.now i k)) width i besides.old besides.new }
{
    join_row(&mut *besides, i, r, r, width, 0);
    clear_cells(besides, i, del);
}

// All effects, into rows of empty words; none is beside what it deletes.
// Kept (point 3): i is the number of three rows that are written and of the effect that `few_effect` is told; `dels` is one list of the five in `effects`.
fn few_effects(effects: Effects, tables: &mut Tables, width: usize)
    requires { InParts width × EmptyRows (length effects.needs.now) tables.old.mates }
    ensures { Kept tables.old tables.new
        × ((i j : ℕ) → i < length effects.entry.needs.now → j < row_length → cell tables.new.mates i j ≡ mate_of effects.entry.needs.now effects.entry.interferers.now tables.new.live tables.new.r i j)
        × ((i p : ℕ) → i < length effects.entry.needs.now → p < width → cell tables.new.besides i p ≡ beside_for effects.entry.needs.now effects.entry.adds.now effects.entry.dels.now effects.entry.interferers.now tables.new.live tables.new.r i p)
        × (tables.new.spare ≡ tables.old.spare) }
{
    for i in 0..effects.needs.len() {
        keep_row(
            &mut tables.besides[..],
            i,
            &tables.r[..],
            u64::from(effects.dels[i]),
            width,
        );
        let at = i * ROW;
        let end = at + ROW;
        let r = &tables.r[..];
        let mates = &mut tables.mates[..];
        let besides = &mut tables.besides[..];
        few_effect(
            i,
            effects,
            &tables.live[..],
            &r[at..end],
            &mut mates[at..end],
            &mut besides[at..end],
        );
    }
}

// Empty words at the front.
// Kept (point 6): the front of a table that has a fixed size: `few` says how much of it is in use.
fn clear(words: &mut [u64], count: usize)
    requires { count ≤ length words.old }
    ensures { words.new ≡ put_at 0 (list_over count (λ i. 0)) words.old }
{
    words[..count].fill(0);
}

// The same into any tables.
pub fn few(effects: Effects, tables: &mut Tables, width: usize)
    requires { InParts width }
    ensures { Kept tables.old tables.new
        × ((i j : ℕ) → i < length effects.entry.needs.now → j < row_length → cell tables.new.mates i j ≡ mate_of effects.entry.needs.now effects.entry.interferers.now tables.new.live tables.new.r i j)
        × ((i p : ℕ) → i < length effects.entry.needs.now → p < width → cell tables.new.besides i p ≡ beside_for effects.entry.needs.now effects.entry.adds.now effects.entry.dels.now effects.entry.interferers.now tables.new.live tables.new.r i p)
        × (tables.new.spare ≡ tables.old.spare) }
{
    clear(&mut tables.mates[..], effects.needs.len() * ROW);
    few_effects(effects, tables, width);
}
