// What the programs read.
#![tactic(auto)]

ghost use Rattle.std.specs.Prelude.{◌≤◌, ◌<◌, length, take, IfOk};
ghost use Rattle.std.specs.Io.KnownBytes.{Consumes, IsAtEnd};

use std::io;
use std::io::Read;

// Reads until the room is full or the input ends, and answers how many bytes there are: those at the room's front.
pub fn read_full<R: Read + Drop>(input: &mut R, room: &mut [u8]) -> io::Result<usize>
    ensures within { IfOk result (λ n. n ≤ length room.old) }
    ensures bytes { IfOk result (λ n. Consumes (R.remaining input.old) (R.remaining input.new) (take n room.new)) }
    ensures end { IfOk result (λ n. n < length room.old → IsAtEnd (R.remaining input.new)) }
{
    // Kept (point 3): a read may be short, so the count goes on by what each read gave, and `for` or an iterator over the room would go on by one.
    let mut have = 0;
    while have < room.len() {
        let n = input.read(&mut room[have..])?;
        if n == 0 {
            return Ok(have);
        }
        have += n;
    }
    Ok(have)
}
