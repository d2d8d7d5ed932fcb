// The greatest depth whose graph for a file fits a memory.
ghost use Rattle.std.specs.Prelude.{◌≡◌};
ghost use Rattle.graph.specs.Verdict.{verdict};
ghost use Rattle.report.specs.Depth as D;

use crate::fit::depth_for;
use graph::checks::check_memory;
use graph::file::check_file;
use graph::layout::word_count;
use graph::refusal::Refusal;

// The greatest depth in range whose graph for the file fits so many words: the file's causes and 9, or the depth.
pub fn fitting_depth(file: &[u8], room: usize) -> Result<usize, Refusal>
    ensures { verdict result ≡ D.fitting_rule file.now room }
{
    let shape = check_file(file)?.counts.shape();
    check_memory(word_count(shape, 0), room)?;
    Ok(depth_for(shape, room))
}
