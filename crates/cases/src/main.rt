// The paper's cases that run, a line of standard input for each step: a letter, six numbers in columns of six (see `line`), and behind them
// a text that is printed before the step's own words. The letters:
// e puts the byte DEPTH at offset FILE of the byte memory, which holds the file, and behind it the list of a run, the goals of a page, the
// possible sets or the weights (see `bytes`); w puts the word DEPTH at index FILE of the graph memory;
// b build (with no text it prints nothing), r rest, l level, x extract, p plan, n run (of DEPTH steps), m page (of GOAL goals, a byte each),
// B build for GOAL possible sets, a byte each, into a graph memory of their own (with no text it prints nothing), L the levels from both graphs, with OUT
// words of that memory, s the level at the share SET / OUT of the weights (how many they are, a byte, and then each, two bytes, the lower one first):
// a call, whose answer is printed, and behind that the output of a plan, a run and a page;
// g, G, o print the words FILE to DEPTH of the graph memory, of that of the possible sets, of the extract's output.
#![tactic(auto)]

mod answer;
mod bytes;
mod line;
mod memory;
mod step;

use answer::{Answer, Listed};
use line::{Column, Line};
use memory::{Memory, first_mut};
use std::fmt::Display;
use std::io;
use std::io::Write;
use step::{NoSuchStep, Step};
use streams::read_full;

// Room for the script.
const SCRIPT: usize = 65536;

// How many sets there are for a plan or a run, and what each holds before it.
const SETS: usize = 3;

const FRESH: u32 = 9;

// How many entries there are for a page, one more than goals, and what each holds before it.
const ENTRIES: usize = 6;

const FRESH_ENTRY: u16 = 9;

// With no text nothing is said.
// Kept (point 4): it prints by `Display`, and says only whether anything is printed.
fn say_built(to: &mut impl Write, line: Line, answer: Answer) -> io::Result<()> {
    if line.text().is_empty() {
        return Ok(());
    }
    writeln!(to, "{answer}")
}

// Lends as many of the room's elements as the line says to a call that writes them: what it answers, and what they then are.
// Kept (point 4): it prints by `Display`; what it adds is the call between.
// Kept (point 5): the closure is the caller's; a struct around it would ask the same where it is made.
fn say_output<T: Display, F: FnOnce(&mut [T]) -> Answer>(
    to: &mut impl Write,
    line: Line,
    name: &str,
    room: &mut [T],
    call: F,
) -> io::Result<()>
    requires { F.IsAlwaysCallable call }
{
    let out = first_mut(room, line.size(Column::Out));
    let answer = call(&mut *out);
    writeln!(to, "{answer}")?;
    writeln!(to, "{name}: {}", Listed(&out[..]))
}

// A call that writes sets.
// Kept (point 4): as says `say_output`.
// Kept (point 5): as says `say_output`.
fn say_sets<F: FnOnce(&mut [u32]) -> Answer>(
    to: &mut impl Write,
    line: Line,
    call: F,
) -> io::Result<()>
    requires { F.IsAlwaysCallable call }
{
    say_output(to, line, "sets", &mut [FRESH; SETS], call)
}

fn take_step(to: &mut impl Write, memory: &mut Memory, line: Line) -> io::Result<()> {
    to.write_all(line.text())?;
    match line.step() {
        Ok(Step::PutByte) => {
            memory.bytes.put(line);
            Ok(())
        }
        Ok(Step::PutWord) => {
            memory.put_word(line);
            Ok(())
        }
        Ok(Step::Build) => say_built(to, line, memory.build(line)),
        Ok(Step::BuildWithin) => say_built(to, line, memory.build_within(line)),
        Ok(Step::Rest) => writeln!(to, "{}", memory.rest(line)),
        Ok(Step::Level) => writeln!(to, "{}", memory.level(line)),
        Ok(Step::LevelWithin) => writeln!(to, "{}", memory.level_within(line)),
        Ok(Step::LevelShare) => writeln!(to, "{}", memory.level_share(line)),
        Ok(Step::Extract) => writeln!(to, "{}", memory.extract(line)),
        Ok(Step::Plan) => say_sets(to, line, |out| memory.plan(line, out)),
        Ok(Step::Run) => say_sets(to, line, |out| memory.run(line, out)),
        Ok(Step::Page) => say_output(
            to,
            line,
            "entries",
            &mut [FRESH_ENTRY; ENTRIES],
            |out| memory.page(line, out),
        ),
        Ok(Step::ShowGraph) => writeln!(to, "{}", memory.graph_part(line)),
        Ok(Step::ShowPossible) => writeln!(to, "{}", memory.possible_part(line)),
        Ok(Step::ShowExtract) => writeln!(to, "{}", memory.extract_part(line)),
        Err(NoSuchStep) => say_sets(to, line, |_out| Answer::NoSuchStep),
    }
}

fn take_steps(to: &mut impl Write, memory: &mut Memory, script: &[u8]) -> io::Result<()> {
    for line in script.split_inclusive(|b| *b == b'\n') {
        take_step(to, memory, Line(line.strip_suffix(b"\n").unwrap_or(line)))?;
    }
    Ok(())
}

fn main(rt: HostRuntime) -> io::Result<()> {
    let mut script = [0u8; SCRIPT];
    let n = read_full(&mut rt.stdin(), &mut script)?;
    take_steps(&mut rt.stdout(), &mut Memory::new(), &script[..n])
}
