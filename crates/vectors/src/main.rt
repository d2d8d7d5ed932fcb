// The outside vectors: library calls and problem files with the answers of an independent implementation, run through the library and compared.
// `tools/vectors.py` writes the data files calls.bin and levels.bin.
#![tactic(auto)]

ghost use Rattle.std.specs.Prelude.{◌≡◌, length};

use files::File;
use std::{fs, io};
use streams::read_full;

mod answers;
mod calls;
mod data;
mod files;
mod kinds;
mod levels;
mod memory;

// Room for a data file.
const BYTES: usize = 196608;

// That the length is known here spares the caller to count it.
fn file_room() -> [u8; BYTES]
    ensures { length result ≡ 196608 }
{
    [0; BYTES]
}

// Reads a data file and judges its cases; one that cannot be read ends the program with the error.
fn judge(rt: &HostRuntime, file: File) -> io::Result<()> {
    let mut room = file_room();
    let n = read_full(&mut fs::open(rt, file.name())?, &mut room)?;
    file.judge(&mut rt.stdout(), &room[..n])
}

fn main(rt: HostRuntime) -> io::Result<()> {
    judge(&rt, File::Calls)?;
    judge(&rt, File::Levels)
}
