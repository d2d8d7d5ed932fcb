// Extract: the words of a graph cut to a set of start states, bits closed up in order.
#![tactic(auto)]

mod close;

ghost use Rattle.std.specs.Prelude.{◌≡◌, length};
ghost use Rattle.graph.specs.Verdict.{verdict, written, laid};
ghost use Rattle.extract.specs.Rule.{extract_rule};

use graph::checks::{check_graph, check_output, check_set};
use graph::file::check_file;
use graph::layout::{stride, word_count};
use graph::refusal::Refusal;
use words::sets::States;

// For a file and depth, the graph's words as found, cut to the set, go to the front of `out`. Turned away, no word changes: nothing is written before the last
// check is passed.
pub fn extract(
    file: &[u8],
    depth: usize,
    set: States,
    words: &[u64],
    out: &mut [u64],
) -> Result<usize, Refusal>
    ensures { (verdict result ≡ written (extract_rule file.now depth set.0 words.now (length out.old)))
        × (out.new ≡ laid (extract_rule file.now depth set.0 words.now (length out.old)) out.old) }
{
    let c = check_file(file)?.counts;
    let asked = check_set(c.states, set);
    check_graph(c, depth, asked, words.len())?;
    let s = c.shape();
    let wanted = word_count(s, depth);
    check_output(wanted, out.len())?;
    close::cut(set, stride(s), words, out, wanted);
    Ok(wanted)
}
