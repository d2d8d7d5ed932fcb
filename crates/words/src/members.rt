// The members of a set, one after the other from the lowest, and what is shared over them: only the members cost time.
ghost use Rattle.std.specs.Prelude.{◌≡◌, ◌≤◌, ◌<◌, ◌^◌, length, get_or, MatchOption};
ghost use Rattle.std.specs.Iterator.{at_most};
ghost use Rattle.std.specs.Int.Count.{count_trailing_zeros};
ghost use Rattle.rules.specs.Word.{without};
ghost use Rattle.rules.specs.Word as W;
ghost use Rattle.rules.specs.Over.{meet_of};
ghost use Rattle.words.specs.Members.{TakesLowest};
ghost use Rattle.words.specs.Width.{word_width};

// Just i.
pub fn single(i: usize) -> u64
    requires { i < word_width }
    ensures { result ≡ W.single i }
{
    1u64 << i
}

// The lowest member of a set that has one.
pub fn lowest(set: u64) -> usize
    ensures { result ≡ count_trailing_zeros word_width set }
{
    u64::trailing_zeros(set) as usize
}

// The set without it.
pub fn others(set: u64) -> u64
    requires { 0 < set }
    ensures { (result ≡ without set (W.single (count_trailing_zeros word_width set))) × (result < set) }
{
    set & (set - 1)
}

// The members of a set that are left, rising.
#[derive(Clone, Copy, Debug, Drop)]
pub struct Members(pub u64);

impl Iterator for Members {
    type Item = usize;

    ghost next_gives = { λ s r t. MatchOption r ((s.0 ≡ 0) × (t.0 ≡ 0)) (λ i. TakesLowest s.0 i t.0) };

    ghost remaining = { λ s. at_most s.0 };

    fn next(&mut self) -> Option<usize> {
        if self.0 == 0 {
            return None;
        }
        let i = lowest(self.0);
        self.0 = others(self.0);
        Some(i)
    }
}

// What is in `all` and in each word of the row whose index is in the set.
pub fn meet_at(row: &[u64], set: u64, all: u64) -> u64
    requires { (length row.now ≤ word_width) × (set < 2 ^ length row.now) }
    ensures { result ≡ meet_of (length row.now) set (λ i. get_or row.now i 0) all }
{
    let mut met = all;
    for i in Members(set) {
        met &= row[i];
    }
    met
}
