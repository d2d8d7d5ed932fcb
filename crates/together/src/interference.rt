// Which effects interfere, found once a build.
ghost use Rattle.std.specs.Prelude.{◌≡◌, ◌≤◌, ◌<◌, length};
ghost use Rattle.rules.specs.Test.{◌or◌};
ghost use Rattle.rules.specs.Word as W;
ghost use Rattle.rules.specs.Over.{keep};
ghost use Rattle.rules.specs.Lists.{list_over};
ghost use Rattle.words.specs.Rows.{row_length};
ghost use Rattle.together.specs.Interference as I;

use words::members::single;
use words::sets::{Props, Set};

// The sets of the effects, and the numbers of the actions whose effects these are.
#[derive(Clone, Copy)]
pub struct Owned<'a> {
    pub needs: &'a [u32],
    pub adds: &'a [u32],
    pub dels: &'a [u32],
    pub owners: &'a [u8],
    ghost listed: { I.Listed needs.now adds.now dels.now owners.now },
    ghost few: { length needs.now ≤ row_length },
}

// Whether i deletes something that j needs or adds.
fn clobbers(sets: Owned, i: usize, j: usize) -> bool
    requires { (i < length sets.needs.now) × (j < length sets.needs.now) }
    ensures { result ≡ I.clobbers_in sets.entry.needs.now sets.entry.adds.now sets.entry.dels.now i j }
{
    let used = Props(sets.needs[j]).union(Props(sets.adds[j]));
    Props(sets.dels[i]).meets(used)
}

// Whether one of the two does.
fn either_clobbers(sets: Owned, i: usize, j: usize) -> bool
    requires { (i < length sets.needs.now) × (j < length sets.needs.now) }
    ensures { result ≡ (I.clobbers_in sets.entry.needs.now sets.entry.adds.now sets.entry.dels.now i j or I.clobbers_in sets.entry.needs.now sets.entry.adds.now sets.entry.dels.now j i) }
{
    clobbers(sets, i, j) || clobbers(sets, j, i)
}

// Just j where it interferes with i, else no effect. Whose effects they are is looked at last, only where it matters.
fn interferer(sets: Owned, i: usize, j: usize) -> u64
    requires { (i < length sets.needs.now) × (j < length sets.needs.now) }
    ensures { result ≡ keep (I.interfere_in sets.entry.needs.now sets.entry.adds.now sets.entry.dels.now sets.entry.owners.now i j) (W.single j) }
{
    if !either_clobbers(sets, i, j) {
        return 0;
    }
    if sets.owners[i] == sets.owners[j] {
        return 0;
    }
    single(j)
}

// The effects with which i interferes.
fn interferers_of(sets: Owned, i: usize) -> u64
    requires { i < length sets.needs.now }
    ensures { result ≡ I.interferers_of sets.entry.needs.now sets.entry.adds.now sets.entry.dels.now sets.entry.owners.now i }
{
    let mut joined = 0;
    for j in 0..sets.needs.len() {
        joined |= interferer(sets, i, j);
    }
    joined
}

// Of each effect those with which it interferes.
pub fn interferer_sets(sets: Owned, interferers: &mut [u64])
    requires { length interferers.old ≡ length sets.needs.now }
    ensures { interferers.new ≡ list_over (length sets.entry.needs.now) (I.interferers_of sets.entry.needs.now sets.entry.adds.now sets.entry.dels.now sets.entry.owners.now) }
{
    for (i, found) in interferers.iter_mut().enumerate() {
        *found = interferers_of(sets, i);
    }
}
