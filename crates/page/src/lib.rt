// A page of goals: the level of each, over the same words and for the same set of states, in one call.
#![tactic(auto)]

mod memo;

ghost use Rattle.std.specs.Prelude.{◌≡◌, ◌≤◌, length, get_or};
ghost use Rattle.rules.specs.Lists.{list_over};
ghost use Rattle.words.specs.Memory.{put_at};
ghost use Rattle.graph.specs.Verdict.{verdict, written, laid};
ghost use Rattle.page.specs.Memo.{entry_in};
ghost use Rattle.page.specs.Rule.{page_rule};

use crate::memo::Memo;
use graph::checks::{check_output, check_set};
use graph::file::check_file;
use graph::refusal::Refusal;
use level::layers::Layers;
use words::sets::{Props, States};

// The entries that are no level.
pub use crate::memo::{NEVER, NOT_BY_DEPTH};

// The entries, one goal after the other.
fn put_entries(layers: Layers<'_>, set: States, goals: &[u32], out: &mut [u16])
    requires { length goals.now ≤ length out.old }
    ensures { out.new ≡ put_at 0 (list_over (length goals.now) (λ i. entry_in layers.entry.shape layers.entry.depth set.0 (get_or goals.now i 0) layers.entry.words.now)) out.old }
{
    let mut memo = Memo::new(layers, set);
    for (i, goal) in goals.iter().enumerate() {
        out[i] = memo.entry(Props(*goal));
    }
}

// The level of each goal for the set, over the graph's words as found, as an entry at the front of `out`; how many there are. Turned away, no entry changes:
// nothing is written before the last check is passed.
pub fn page(
    file: &[u8],
    depth: usize,
    set: States,
    goals: &[u32],
    words: &[u64],
    out: &mut [u16],
) -> Result<usize, Refusal>
    ensures { (verdict result ≡ written (page_rule file.now depth set.0 goals.now words.now (length out.old)))
        × (out.new ≡ laid (page_rule file.now depth set.0 goals.now words.now (length out.old)) out.old) }
{
    let c = check_file(file)?.counts;
    let layers = Layers::lent(c, depth, check_set(c.states, set), words)?;
    let count = goals.len();
    check_output(count, out.len())?;
    put_entries(layers, set, goals, out);
    Ok(count)
}
