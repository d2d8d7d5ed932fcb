// Lists of words held against each other.
ghost use Rattle.std.specs.Prelude.{◌≡◌, length, get_or};
ghost use Rattle.rules.specs.Test.{same};
ghost use Rattle.rules.specs.Over.{all_below};

// Whether two lists of one length are the same. No word ends the loop early, so that several are compared at once; `==` compares one after the other.
// Kept (point 5): as `same_from` of `level` says.
pub fn same_words(one: &[u64], other: &[u64]) -> bool
    requires { length other.now ≡ length one.now }
    ensures { result ≡ all_below (length one.now) (λ i. same (get_or one.now i 0) (get_or other.now i 0)) }
{
    let mut differ = 0;
    for (i, word) in one.iter().enumerate() {
        differ |= word ^ other[i];
    }
    differ == 0
}
