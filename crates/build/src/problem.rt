// What a build reads of the file, once, and how its tables are used.
ghost use Rattle.std.specs.Prelude.{◌≡◌, ◌*◌, ◌≤◌, length};
ghost use Rattle.rules.specs.Lists.{list_over};
ghost use Rattle.rules.specs.Domain as D;
ghost use Rattle.words.specs.Rows.{row_length, InParts};
ghost use Rattle.graph.specs.Format.{actions_of};
ghost use Rattle.build.specs.Rooms.{Empty, Read};

use graph::view::View;
use together::interference::{Owned, interferer_sets};
use words::columns::columns;
use words::parts::PART;
use words::tables::ROW;

// Pairs for each effect from which on rows are less work.
const PAIRS: usize = 9;

// The sets of all effects and the actions that own them, into four lists.
// Kept (point 3): `for (((need, add), del), owner) in needs.iter_mut().zip(adds).zip(dels).zip(owners)` needs the number i as well, which the file is asked by, and a pair more for it.
// Kept (point 5): as `read_problem` says.
fn read_effects(
    file: &View<'_>,
    needs: &mut [u32],
    adds: &mut [u32],
    dels: &mut [u32],
    owners: &mut [u8],
)
    requires { (length needs.old ≡ file.now.counts.effects) × (length adds.old ≡ file.now.counts.effects) × (length dels.old ≡ file.now.counts.effects) × (length owners.old ≡ file.now.counts.effects) }
    ensures { (needs.new ≡ list_over file.now.counts.effects (D.condition (actions_of file.now.bytes.now file.now.counts)))
        × (adds.new ≡ list_over file.now.counts.effects (actions_of file.now.bytes.now file.now.counts).add)
        × (dels.new ≡ list_over file.now.counts.effects (actions_of file.now.bytes.now file.now.counts).del)
        × (owners.new ≡ list_over file.now.counts.effects (actions_of file.now.bytes.now file.now.counts).owner) }
{
    for i in 0..needs.len() {
        needs[i] = file.condition(i);
        adds[i] = file.added(i);
        dels[i] = file.deleted(i);
        owners[i] = file.owner(i) as u8;
    }
}

// The effects' sets and actions, the adders of each proposition, and the effects that interfere with each.
// Kept (point 5): with the six lists as arrays of one struct a build is 1.01 to 1.04 times as slow.
pub fn read_problem(
    file: &View<'_>,
    needs: &mut [u32],
    adds: &mut [u32],
    dels: &mut [u32],
    owners: &mut [u8],
    adders: &mut [u64],
    interferers: &mut [u64],
)
    requires { Empty file.now.counts needs.old adds.old dels.old owners.old adders.old interferers.old }
    ensures { Read file.now.bytes.now file.now.counts needs.new adds.new dels.new owners.new adders.new interferers.new }
{
    read_effects(file, &mut *needs, &mut *adds, &mut *dels, &mut *owners);
    columns(&mut *adders, &adds[..]);
    let sets = Owned {
        needs: &needs[..],
        adds: &adds[..],
        dels: &dels[..],
        owners: &owners[..],
    };
    interferer_sets(sets, interferers);
}

// How many effects interfere, counted both ways.
fn count_interferers(interferers: &[u64]) -> usize
    requires { length interferers.now ≤ row_length }
    ensures { result ≤ 64 * length interferers.now }
{
    let mut count = 0;
    for set in interferers {
        count += set.count_ones() as usize;
    }
    count
}

// Whether so many pairs of effects do not interfere that whole rows are less work than pair after pair: measured, nine for each effect of a wide problem.
pub fn many_pairs(interferers: &[u64], span: usize) -> bool
    requires { (length interferers.now ≤ row_length) × (span ≤ row_length) }
{
    let a = interferers.len();
    ROW * count_interferers(interferers) + PAIRS * span * a < ROW * a * a
}

// How many words of a table's rows are in use where a row has n.
pub fn width_for(n: usize) -> usize
    requires { n ≤ row_length }
    ensures { InParts result × (n ≤ result) }
{
    if PART < n {
        return ROW;
    }
    PART
}
