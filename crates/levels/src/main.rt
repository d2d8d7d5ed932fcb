// Reads a problem file from standard input and prints its depth, its rest and its levels.
#![tactic(auto)]

use report::{TEXT_ROOM, levels_text};
use std::io;
use std::io::Write;
use streams::read_full;

// No file that is taken is longer than 809 bytes: of a longer one only the first 4,096 are read and judged.
const FILE_ROOM: usize = 4096;

// The room is the longest text's, so that the answer is never a refusal.
fn print(output: &mut impl Write, file: &[u8]) -> io::Result<()> {
    let mut text = [0u8; TEXT_ROOM];
    match levels_text(file, &mut text) {
        Ok(n) => output.write_all(text.get(..n).unwrap_or_default()),
        Err(_why) => Ok(()),
    }
}

fn main(rt: HostRuntime) -> io::Result<()> {
    let mut file = [0u8; FILE_ROOM];
    let n = read_full(&mut rt.stdin(), &mut file)?;
    print(&mut rt.stdout(), &file[..n])
}
