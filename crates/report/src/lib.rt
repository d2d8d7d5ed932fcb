// The text that `levels` prints, as a function of the file's bytes.
#![tactic(auto)]

pub mod depth;
mod fit;
mod lines;
mod writer;

ghost use Rattle.std.specs.Prelude.{◌≡◌, ◌+◌, ◌≤◌, length, IsOk, IsErr};
ghost use Rattle.graph.specs.Verdict.{verdict, verdict_by, accepted, and_then, laid, written};
ghost use Rattle.graph.specs.File.{file_rule};
ghost use Rattle.report.specs.Text.{levels_room, text_room, levels_text, text_rule};
ghost use Rattle.report.specs.Wrote.{Adds};

use crate::fit::depth_for;
use crate::lines::Lines;
use crate::writer::Writer;
use build::build;
use graph::checks::check_output;
use graph::file::check_file;
use graph::refusal::Refusal;
use level::layers::Layers;

// Room for the words of the graph, and for the longest text.
const LEVELS_ROOM: usize = 8192;

pub const TEXT_ROOM: usize = 8600;

// The text of a file that is taken: the graph is built into the words, and read from there. Of another file the cause, and no byte is written.
fn taken_text(file: &[u8], words: &mut [u64], text: &mut Writer<'_>) -> Result<(), Refusal>
    requires { (length words.old ≡ levels_room) × (text.old.end + text_room ≤ length text.old.out.now) }
    ensures rule { verdict result ≡ and_then (file_rule file.now) (λ c. accepted tt) }
    ensures text { IsOk result → Adds text.old (levels_text file.now) text.new }
    ensures none { IsErr result → text.new ≡ text.old }
{
    let c = check_file(file)?.counts;
    let depth = depth_for(c.shape(), words.len());
    let built = build(file, depth, &mut *words)?;
    let layers = Layers::lent(c, depth, Ok(()), &words[..built.words])?;
    Lines::new(layers).put_graph(c.states, text);
    Ok(())
}

// The text of any file: of one that is turned away the line of its refusal.
fn file_text(file: &[u8], words: &mut [u64], text: &mut Writer<'_>)
    requires { (length words.old ≡ levels_room) × (text.old.end + text_room ≤ length text.old.out.now) }
    ensures { Adds text.old (levels_text file.now) text.new }
{
    if let Err(why) = taken_text(file, words, &mut *text) {
        text.refused(why.number(), why.place());
    }
}

// What `levels` prints for a file, at the front of the output; what lies behind it stays. The output has room for the longest text, or no byte changes.
pub fn levels_text(file: &[u8], out: &mut [u8]) -> Result<usize, Refusal>
    ensures { (verdict result ≡ written (text_rule file.now (length out.old)))
        × (out.new ≡ laid (text_rule file.now (length out.old)) out.old) }
{
    check_output(TEXT_ROOM, out.len())?;
    let mut words = [0u64; LEVELS_ROOM];
    let mut text = Writer::new(out);
    file_text(file, &mut words, &mut text);
    Ok(text.end)
}
