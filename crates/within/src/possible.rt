// Cause 17: a list that is no list of the possible sets.
ghost use Rattle.std.specs.Prelude.{◌≡◌, ◌≤◌, length};
ghost use Rattle.words.specs.Width.{prop_width};
ghost use Rattle.graph.specs.Verdict.{verdict};
ghost use Rattle.within.specs.Rule as R;

use graph::refusal::Refusal;
use words::sets::{Props, Set};

// Whether a set has all that is sure and no proposition but the first so many.
fn encloses(props: usize, sure: Props, set: Props) -> bool
    requires { props ≤ prop_width }
    ensures { result ≡ R.encloses props sure.0 set.0 }
{
    if !sure.within(set) {
        return false;
    }
    if Props::first(props).0 < set.0 {
        return false;
    }
    true
}

// The first state of whose possible set that does not hold, and the number of states where there is none.
// Kept (point 1): the clause equates it with the definition first_open, which has the number of states where there is none.
fn first_open(props: usize, sure: &[u32], possible: &[u32]) -> usize
    requires { (props ≤ prop_width) × (length possible.now ≡ length sure.now) }
    ensures { result ≡ R.first_open props (length sure.now) (R.set_of sure.now) possible.now }
{
    for (s, set) in sure.iter().enumerate() {
        if !encloses(props, Props(*set), Props(possible[s])) {
            return s;
        }
    }
    sure.len()
}

// The length is looked at before the sets.
pub fn check_possible(props: usize, sure: &[u32], possible: &[u32]) -> Result<(), Refusal>
    requires { props ≤ prop_width }
    ensures { verdict result ≡ R.bounds_rule props (length sure.now) (R.set_of sure.now) possible.now }
{
    let n = sure.len();
    if possible.len() != n {
        return Err(Refusal::PossibleSet(n));
    }
    let s = first_open(props, sure, possible);
    if s < n {
        return Err(Refusal::PossibleSet(s));
    }
    Ok(())
}
