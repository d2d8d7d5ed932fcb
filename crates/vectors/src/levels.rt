// The problem files of levels.bin. A case is 6 numbers, three parts of the store: the file's name, its bytes, and what `levels` prints for it.
use crate::data::Row;
use report::{TEXT_ROOM, levels_text};

// Where a case has the file and the text wanted.
const FILE: usize = 2;

const TEXT: usize = 4;

// How many numbers a case has.
pub const NUMBERS: usize = 6;

// Whether the file's text is the wanted one, byte for byte.
pub fn agrees(case: Row) -> bool {
    let mut out = [0u8; TEXT_ROOM];
    match levels_text(case.stored(FILE), &mut out) {
        Ok(n) => case.stored(TEXT) == out.get(..n).unwrap_or_default(),
        Err(_why) => false,
    }
}
