// The end of a step: the next proposition layer by what its tables tell, and how many vertices and pairs its scans look at.
#![tactic(auto)]

ghost use Rattle.std.specs.Prelude.{◌≡◌, ℕ, ◌+◌, ◌-◌, ◌*◌, ◌≤◌, ◌<◌, ◌^◌, List, length, get_or};
ghost use Rattle.std.proofs.Math.Bool.{So};
ghost use Rattle.std.specs.Int.Count.{ones};
ghost use Rattle.rules.specs.Word as W;
ghost use Rattle.rules.specs.Scan as S;
ghost use Rattle.rules.specs.Lists.{list_over, run_over};
ghost use Rattle.rules.specs.Layer.{size, row_of};
ghost use Rattle.words.specs.Memory.{put_at};
ghost use Rattle.words.specs.Rows.{row_length, table_length, cell, both_ways, Inside};
ghost use Rattle.scans.specs.Pairs as P;
ghost use Rattle.scans.specs.Ends as E;

use together::effects::{Layer, Tables};
use words::members::{Members, single};
use words::tables::ROW;

// The start states that might still be mutex, and how many looks were made.
#[derive(Clone, Copy)]
struct Seen {
    left: u64,
    looked: usize,
}

// Looks at the words of a table at the members of a set, rising, until nothing is left. The words are `step` apart, from `base` on.
// Kept (point 6): the words lie `step` apart from `base` on, one row or one column: a slice and a step would be no less.
fn look_at(table: &[u64], base: usize, step: usize, set: u64, both: u64, before: usize) -> Seen
    requires { (set < 2 ^ row_length) × ((i : ℕ) → i < row_length → base + i * step < length table.now) × (before ≤ P.most_looks) }
    ensures { (S.scan_of row_length set (λ i. S.look (P.word_at table.now base step i)) (S.scan_at both before) ≡ S.scan_at result.left result.looked) × (result.looked ≤ before + row_length) }
{
    let mut left = both;
    let mut looked = before;
    for i in Members(set) {
        if left == 0 {
            return Seen { left, looked };
        }
        left ^= left & table[base + i * step];
        looked += 1;
    }
    Seen { left, looked }
}

// The set without v.
fn all_but(set: u64, v: usize) -> u64
    requires { v < row_length }
    ensures { result ≡ W.without set (W.single v) }
{
    set ^ (set & single(v))
}

// How many vertices other than v add a proposition: `size` is how many there are, and `upper` the effects among them.
// Kept (point 5): here and below, the number of adders: a pair of a set and its count with that invariant would be made in `pair_looks` for each pair of propositions.
fn others_than(upper: u64, size: usize, v: usize) -> usize
    requires { (v < row_length) × (upper < 2 ^ row_length) × (size ≡ ones upper + 1) }
    ensures { result ≡ ones (W.without upper (W.single v)) + 1 }
{
    size - ((upper >> v) % 2) as usize
}

// With one look more, which is made where something is left.
fn with_last(left: u64, looked: usize) -> usize
    requires { looked ≤ P.most_looks }
    ensures { result ≡ P.with_last (S.scan_at left looked) }
{
    if left == 0 {
        return looked;
    }
    looked + 1
}

// Looks at the pairs of each effect of `lower` with what adds q, rising, until nothing is left. A row that leaves something is counted at once.
fn look_rows(
    tables: &Tables,
    q: usize,
    lower: u64,
    upper: u64,
    size: usize,
    both: u64,
    before: usize,
) -> Seen
    requires { (q < row_length) × (lower < 2 ^ row_length) × (upper < 2 ^ row_length) × (size ≡ ones upper + 1) × (before ≤ row_length) }
    ensures { ((r : List ℕ) → P.Beside tables.now.mates r tables.now.besides lower upper q → P.Parted tables.now.mates lower upper both
        → S.scan_of row_length lower (P.row_looks tables.now.mates r upper q) (S.scan_at both before) ≡ S.scan_at result.left result.looked) × (result.looked ≤ 2048) }
{
    let mut left = both;
    let mut looked = before;
    for v in Members(lower) {
        if left == 0 {
            return Seen { left, looked };
        }
        let after = left ^ (left & tables.besides[v * ROW + q]);
        if after == 0 {
            let seen = look_at(
                &tables.mates[..],
                v * ROW,
                1,
                all_but(upper, v),
                left,
                looked,
            );
            return Seen {
                left: 0,
                looked: with_last(seen.left, seen.looked),
            };
        }
        looked += others_than(upper, size, v);
        left = after;
    }
    Seen { left, looked }
}

// The scan of p and q, whose labels share `both`.
fn scan_pair(
    p: usize,
    q: usize,
    both: u64,
    lower: u64,
    upper: u64,
    size: usize,
    tables: &Tables,
) -> usize
    requires { (p < row_length) × (q < row_length) × (lower < 2 ^ row_length) × (upper < 2 ^ row_length) × (size ≡ ones upper + 1) }
    ensures { (P.Beside tables.now.mates tables.now.r tables.now.besides lower upper q
        → ((v : ℕ) → So (W.bit v lower) → cell tables.now.mates v v ≡ get_or tables.now.live v 0)
        → result ≡ P.with_last (P.before_last tables.now.live tables.now.mates tables.now.r lower upper p q both)) × (result ≤ P.most_looks) }
{
    let ones = look_at(&tables.live[..], 0, 1, lower & upper, both, 0);
    let rows = look_rows(tables, q, lower, upper, size, ones.left, ones.looked);
    let last = look_at(&tables.r[..], p, ROW, upper, rows.left, rows.looked);
    with_last(last.left, last.looked)
}

// The looks at p and q, whose labels share `both`; `shown` has all that the scan takes away before its last look.
// Where something is left for that look, all were made: as many as there are vertices that add p, times those that add q.
fn pair_looks(
    p: usize,
    q: usize,
    both: u64,
    shown: u64,
    adders: &[u64],
    sizes: &[usize],
    tables: &Tables,
) -> usize
    requires { P.Listed adders.now sizes.now × (p < length adders.now) × (q < length adders.now) }
    ensures { ((spare : List ℕ) → P.Alike adders.now tables.now.live tables.now.mates tables.now.r tables.now.besides spare → shown ≡ both_ways spare p q
        → result ≡ P.with_last (P.before_last tables.now.live tables.now.mates tables.now.r (get_or adders.now p 0) (get_or adders.now q 0) p q both)) × (result ≤ P.most_looks) }
{
    if both == 0 {
        return 0;
    }
    if both ^ (both & shown) != 0 {
        return sizes[p] * sizes[q];
    }
    scan_pair(p, q, both, adders[p], adders[q], sizes[q], tables)
}

// What changed in the table, and how many looks were made.
#[derive(Clone, Copy)]
pub struct Done {
    pub fresh: u64,
    pub looked: usize,
}

// The labels of the next layer, into the table, the row of labels and the memory; what changed.
// Kept (point 3): three lists are written at p and two tables read on the diagonal: as iterators four `zip`s, two of them over `step_by(ROW + 1)`.
fn new_labels(words: &mut [u64], n: usize, labels: &mut [u64], t: &mut [u64], spare: &[u64]) -> u64
    requires { (n ≤ row_length) × (n ≤ length words.old) × (n ≤ length labels.old) × (length t.old ≡ table_length) × (length spare.now ≡ table_length) }
    ensures { E.Owned n spare.now t.old t.new result
        × (labels.new ≡ put_at 0 (list_over n (E.own spare.now t.old)) labels.old)
        × (words.new ≡ put_at 0 (list_over n (E.own spare.now t.old)) words.old) }
{
    let mut fresh = 0;
    for p in 0..n {
        let old = t[p * ROW + p];
        let word = spare[p * ROW + p] | old;
        fresh = fresh | (word ^ old);
        t[p * ROW + p] = word;
        labels[p] = word;
        words[p] = word;
    }
    fresh
}

// The pairs of p with each later proposition: into the table, either way round, and into the memory, that of p and q at `at + q`; and their looks.
// Kept (point 5): as one `&mut Layer` in place of `labels` and `t` its contract would also have to say that the labels stay.
// Kept (point 3): q is a place in five lists, either way round in two of them.
// Kept (point 6): `at` is where the row of p would begin had it all propositions, so that the word of p and q lies at `at + q`.
fn finish_row(
    words: &mut [u64],
    at: usize,
    p: usize,
    adders: &[u64],
    sizes: &[usize],
    labels: &[u64],
    t: &mut [u64],
    tables: &Tables,
) -> Done
    requires { P.Listed adders.now sizes.now × E.Laid labels.now t.old × (p < length adders.now) × (at + length adders.now ≤ length words.old) }
    ensures { E.Crossed p (length adders.now) tables.now.spare t.old t.new result.fresh
        × (words.new ≡ put_at (at + p + 1) (row_of (length adders.now) (E.apart_by labels.now tables.now.spare t.old) p) words.old)
        × (P.Alike adders.now tables.now.live tables.now.mates tables.now.r tables.now.besides tables.now.spare
        → result.looked ≡ P.row_count (length adders.now) adders.now labels.now tables.now.live tables.now.mates tables.now.r p) × (result.looked ≤ row_length * P.most_looks) }
{
    let mut fresh = 0;
    let mut looked = 0;
    for q in p + 1..adders.len() {
        let both = labels[p] & labels[q];
        let shown = tables.spare[p * ROW + q] | tables.spare[q * ROW + p];
        let old = t[p * ROW + q];
        let word = shown | old;
        fresh = fresh | (word ^ old);
        t[p * ROW + q] = word;
        t[q * ROW + p] = word;
        words[at + q] = both ^ (both & word);
        looked += pair_looks(p, q, both, shown, adders, sizes, tables);
    }
    Done { fresh, looked }
}

// All pairs, row by row, behind the labels.
fn finish_rows(
    words: &mut [u64],
    adders: &[u64],
    sizes: &[usize],
    labels: &[u64],
    t: &mut [u64],
    tables: &Tables,
) -> Done
    requires { P.Listed adders.now sizes.now × E.Laid labels.now t.old × (size (length adders.now) ≤ length words.old) }
    ensures { E.Joined (length adders.now) (length adders.now) tables.now.spare t.old t.new result.fresh
        × (words.new ≡ put_at (length adders.now) (run_over (length adders.now) (row_of (length adders.now) (E.apart_by labels.now tables.now.spare t.old))) words.old)
        × (P.Alike adders.now tables.now.live tables.now.mates tables.now.r tables.now.besides tables.now.spare
        → result.looked ≡ P.table_looks (length adders.now) adders.now labels.now tables.now.live tables.now.mates tables.now.r) × (result.looked ≤ row_length * (row_length * P.most_looks)) }
{
    let mut fresh = 0;
    let mut looked = 0;
    let mut at = adders.len();
    for p in 0..adders.len() {
        let row = finish_row(
            &mut *words,
            at - p - 1,
            p,
            adders,
            sizes,
            labels,
            &mut *t,
            tables,
        );
        fresh = fresh | row.fresh;
        looked += row.looked;
        at += adders.len() - 1 - p;
    }
    Done { fresh, looked }
}

// How many vertices add each proposition: the effects, and its persistence.
fn count_adders(sizes: &mut [usize], adders: &[u64])
    requires { (length adders.now ≤ length sizes.old) × Inside row_length adders.now }
    ensures { (p : ℕ) → p < length adders.now → get_or sizes.new p 0 ≡ ones (get_or adders.now p 0) + 1 }
{
    for (p, set) in adders.iter().enumerate() {
        sizes[p] = set.count_ones() as usize + 1;
    }
}

// The end of a step, in one pass over the pairs: the table, its labels and the words become those of the next proposition layer, and the looks are counted.
// `adders` has the effects that add each proposition; `spare` of the tables what these are together with, the others what the step found.
pub fn finish(words: &mut [u64], adders: &[u64], layer: &mut Layer, tables: &Tables) -> Done
    requires { (length adders.now ≤ row_length) × Inside row_length adders.now × (size (length adders.now) ≤ length words.old) }
    ensures { (E.Turns (length adders.now) layer.old.t
        → E.Finished (length adders.now) tables.now.spare layer.old.t layer.new.labels layer.new.t words.old words.new result.fresh)
        × (P.Alike adders.now tables.now.live tables.now.mates tables.now.r tables.now.besides tables.now.spare
        → result.looked ≡ P.table_looks (length adders.now) adders.now layer.new.labels tables.now.live tables.now.mates tables.now.r) × (result.looked ≤ row_length * (row_length * P.most_looks)) }
{
    let mut sizes = [0usize; ROW];
    count_adders(&mut sizes[..], adders);
    let fresh = new_labels(
        &mut *words,
        adders.len(),
        &mut layer.labels[..],
        &mut layer.t[..],
        &tables.spare[..],
    );
    let rows = finish_rows(
        words,
        adders,
        &sizes[..],
        &layer.labels[..],
        &mut layer.t[..],
        tables,
    );
    Done {
        fresh: fresh | rows.fresh,
        looked: rows.looked,
    }
}
