// Rows of a table met and joined with other rows, in parts: the compiler keeps a part in registers while the named rows go by.
ghost use Rattle.std.specs.Prelude.{◌≡◌, ℕ, ◌+◌, ◌*◌, ◌≤◌, ◌<◌, length, get_or};
ghost use Rattle.rules.specs.Test.{same, choose};
ghost use Rattle.rules.specs.Word.{common, union};
ghost use Rattle.rules.specs.Over.{join_of, meet_of};
ghost use Rattle.rules.specs.Lists.{list_over};
ghost use Rattle.words.specs.Folds.{FoldLaws, joined_with, met_with};
ghost use Rattle.words.specs.Memory.{put_at};
ghost use Rattle.words.specs.Rows.{row_length, part_length, table_length, cell, Target, Source, InParts};

use crate::members::Members;
use crate::tables::ROW;

// The words of a row that are worked on at once.
pub const PART: usize = 16;

const ALL: u64 = 0xffff_ffff_ffff_ffff;

// How a word is taken together with another, and with the words that a set names, one after the other.
trait Fold {
    ghost op: { ℕ → ℕ → ℕ };

    ghost over: { ℕ → (ℕ → ℕ) → ℕ → ℕ };

    fn fold(a: u64, b: u64) -> u64
        ensures { result ≡ op a b };
}

// What both have.
struct Meet;

impl Fold for Meet {
    ghost op = { common };

    ghost over = { met_with };

    fn fold(a: u64, b: u64) -> u64 {
        a & b
    }
}

// What either has.
struct Join;

impl Fold for Join {
    ghost op = { union };

    ghost over = { joined_with };

    fn fold(a: u64, b: u64) -> u64 {
        a | b
    }
}

// Words cut to a word.
// Kept (point 6): here and below: a part of a row of a table by the place where it begins; a slice cut for each call would be named by the same place.
// Kept (point 5): here and below: a table, a row and a part are slices of arrays that the caller lends; a struct of a table and the rows named would be made anew for each row.
fn take_part(part: &mut [u64], words: &[u64], at: usize, own: u64)
    requires { (length part.old ≡ part_length) × (at + part_length ≤ length words.now) }
    ensures { part.new ≡ list_over part_length (λ k. common (get_or words.now (at + k) 0) own) }
{
    for (k, word) in part.iter_mut().enumerate() {
        *word = words[at + k] & own;
    }
}

// Kept (point 6): as `take_part`.
fn put_part(dest: &mut [u64], to: usize, part: &[u64])
    requires { (length part.now ≡ part_length) × (to + part_length ≤ length dest.old) }
    ensures { dest.new ≡ put_at to part.now dest.old }
{
    // Kept (point 3): by `copy_from_slice` the part is worked on word by word, and a build is 1.1 to 1.8 times as slow.
    for (k, word) in part.iter().enumerate() {
        dest[to + k] = *word;
    }
}

// Kept (point 6): as `take_part`.
fn fold_part<F: Fold>(part: &mut [u64], table: &[u64], at: usize)
    requires { (length part.old ≡ part_length) × (at + part_length ≤ length table.now) }
    ensures { part.new ≡ list_over part_length (λ k. F.op (get_or part.old k 0) (get_or table.now (at + k) 0)) }
{
    for (k, word) in part.iter_mut().enumerate() {
        *word = F::fold(*word, table[at + k]);
    }
}

// The part with the named rows, from column `col` on.
fn fold_parts<F: Fold>(part: &mut [u64], table: &[u64], col: usize, named: u64)
    requires laws { FoldLaws F.op F.over }
    requires room { (length part.old ≡ part_length) × Source table.now named × (col + part_length ≤ row_length) }
    ensures { part.new ≡ list_over part_length (λ k. F.over named (λ i. cell table.now i (col + k)) (get_or part.old k 0)) }
{
    for i in Members(named) {
        fold_part::<F>(&mut *part, table, i * ROW + col);
    }
}

// Part `col` of a row: that of `start` cut to `own`, with the named rows.
fn fold_cols<F: Fold>(
    row: &mut [u64],
    start: &[u64],
    own: u64,
    table: &[u64],
    col: usize,
    named: u64,
)
    requires laws { FoldLaws F.op F.over }
    requires room { (length row.old ≡ row_length) × (row_length ≤ length start.now) × Source table.now named × (col + part_length ≤ row_length) }
    ensures { row.new ≡ put_at col (list_over part_length (λ k. F.over named (λ i. cell table.now i (col + k)) (common (get_or start.now (col + k) 0) own))) row.old }
{
    let mut part = [0u64; PART];
    take_part(&mut part[..], start, col, own);
    fold_parts::<F>(&mut part[..], table, col, named);
    put_part(row, col, &part[..]);
}

// The first `width` words of a row. `width` is PART or ROW.
fn fold_row<F: Fold>(
    row: &mut [u64],
    start: &[u64],
    own: u64,
    table: &[u64],
    width: usize,
    named: u64,
)
    requires laws { FoldLaws F.op F.over }
    requires room { (length row.old ≡ row_length) × (row_length ≤ length start.now) × Source table.now named × InParts width }
    ensures { row.new ≡ put_at 0 (list_over width (λ k. F.over named (λ i. cell table.now i k) (common (get_or start.now k 0) own))) row.old }
{
    fold_cols::<F>(&mut *row, start, own, table, 0, named);
    if PART < width {
        fold_cols::<F>(row, start, own, table, PART, named);
    }
}

// The rows that can change words cut to `own`: none where that is empty.
fn rows_for(own: u64, named: u64) -> u64
    ensures { (result ≡ choose (same own 0) 0 named) × (result ≤ named) }
{
    if own == 0 {
        return 0;
    }
    named
}

// Row `row` of a table: the start row cut to `own`, met with the named rows of another. `width` is PART or ROW.
// Kept (point 6): as `take_part`.
pub fn meet_row(
    dest: &mut [u64],
    row: usize,
    start: &[u64],
    own: u64,
    table: &[u64],
    width: usize,
    named: u64,
)
    requires { Target dest.old row × (length start.now ≡ row_length) × Source table.now named × InParts width }
    ensures { dest.new ≡ put_at (row * row_length) (list_over width (λ k. meet_of row_length named (λ i. cell table.now i k) (common (get_or start.now k 0) own))) dest.old }
{
    let rows = rows_for(own, named);
    let at = row * ROW;
    let end = at + ROW;
    fold_row::<Meet>(&mut dest[at..end], start, own, table, width, rows);
}

// Row `row` of a table: that of `from`, joined with the named rows of another.
// Kept (point 6): as `take_part`.
pub fn join_row(dest: &mut [u64], row: usize, from: &[u64], table: &[u64], width: usize, named: u64)
    requires { Target dest.old row × (length from.now ≡ table_length) × Source table.now named × InParts width }
    ensures { dest.new ≡ put_at (row * row_length) (list_over width (λ k. union (cell from.now row k) (join_of row_length named (λ i. cell table.now i k)))) dest.old }
{
    let at = row * ROW;
    let end = at + ROW;
    fold_row::<Join>(&mut dest[at..end], &from[at..end], ALL, table, width, named);
}

// Row `row` of a table: the named rows of another, joined; they begin with no word of any.
// Kept (point 6): as `take_part`.
pub fn gather_row(dest: &mut [u64], row: usize, table: &[u64], width: usize, named: u64)
    requires { Target dest.old row × Source table.now named × InParts width }
    ensures { dest.new ≡ put_at (row * row_length) (list_over width (λ k. join_of row_length named (λ i. cell table.now i k))) dest.old }
{
    let at = row * ROW;
    let end = at + ROW;
    fold_row::<Join>(&mut dest[at..end], table, 0, table, width, named);
}
