// A square of 32 by 32 bits turned round: 80 pairs of rows are swapped in part, however many bits are set.
ghost use Rattle.std.specs.Prelude.{◌≡◌, ℕ, ◌+◌, ◌≤◌, ◌<◌, length, get_or};
ghost use Rattle.std.proofs.Math.Bool.{So};
ghost use Rattle.rules.specs.Word.{bit};
ghost use Rattle.rules.specs.Lists.{list_over};
ghost use Rattle.words.specs.Rows.{columns_of};
ghost use Rattle.words.specs.Squares.{pair_count, swap_pair, swap_pairs, make_squares};
ghost use Rattle.words.specs.Width.{prop_width};

// The pairs of rows of each stage.
const PAIRS: usize = 16;

// W ones, W zeros, W ones ..
const LOW_16: u32 = 0x0000_ffff;

const LOW_8: u32 = 0x00ff_00ff;

const LOW_4: u32 = 0x0f0f_0f0f;

const LOW_2: u32 = 0x3333_3333;

const LOW_1: u32 = 0x5555_5555;

// The high bits of row i and the low bits of row i + w change places.
// Kept (point 5): here and below: with `&mut [u32; PROP_WIDTH]` the proof of `columns_of_square` did not close: nothing says there that what was turned are words of 32 bits.
fn swap_pair(rows: &mut [u32], i: usize, w: usize, low: u32)
    requires { (i + w < length rows.old) × (length rows.old ≡ prop_width) }
    ensures { rows.new ≡ swap_pair w low i rows.old }
{
    let upper = rows[i];
    let lower = rows[i + w];
    let change = ((upper >> w) ^ lower) & low;
    rows[i] = upper ^ (change << w);
    rows[i + w] = lower ^ change;
}

// In each square of 2w by 2w bits, the upper right quarter and the lower left one change places.
fn swap_squares(rows: &mut [u32], w: usize, low: u32)
    requires { (length rows.old ≡ prop_width) × So (make_squares w low) }
    ensures { rows.new ≡ swap_pairs w low pair_count rows.old }
{
    for k in 0..PAIRS {
        swap_pair(&mut *rows, k / w * w + k, w, low);
    }
}

// Bit j of row i becomes bit i of row j, by ever smaller squares.
fn turn_bits(rows: &mut [u32])
    requires { length rows.old ≡ prop_width }
    ensures { (i j : ℕ) → i < prop_width → j < prop_width → bit j (get_or rows.new i 0) ≡ bit i (get_or rows.old j 0) }
{
    swap_squares(&mut *rows, 16, LOW_16);
    swap_squares(&mut *rows, 8, LOW_8);
    swap_squares(&mut *rows, 4, LOW_4);
    swap_squares(&mut *rows, 2, LOW_2);
    swap_squares(&mut *rows, 1, LOW_1);
}

// The first rows, as a row of words.
// Kept (point 4): rows of another type, so that `copy_from_slice` does not fit; each number goes by `u64::from`.
fn widen(row: &mut [u64], rows: &[u32])
    requires { length row.old ≤ length rows.now }
    ensures { row.new ≡ list_over (length row.old) (λ p. get_or rows.now p 0) }
{
    for (p, word) in row.iter_mut().enumerate() {
        *word = u64::from(rows[p]);
    }
}

// Turns 32 sets round, in their own place, and writes what becomes of them: where the sets are large it is less work than `columns`.
pub fn columns_of_square(row: &mut [u64], sets: &mut [u32])
    requires { (length row.old ≤ prop_width) × (length sets.old ≡ prop_width) }
    ensures { row.new ≡ columns_of (length row.old) sets.old }
{
    turn_bits(&mut *sets);
    widen(row, &*sets);
}
