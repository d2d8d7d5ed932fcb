// The byte memory: the file, and behind the longest file a list.
use crate::line::{Column, Line};

// Room for the file and a list of 65,536 steps, one more than a run takes.
const BYTES: usize = 66436;

// Where the list of a run, the goals of a page and the possible sets begin; a byte there says how many weights there are, which begin behind it.
const LIST: usize = 900;

const WEIGHTS: usize = 901;

// How many goals there are for a page, possible sets for a build, or weights.
const LISTED: usize = 5;

// The first n elements, none where there are fewer.
pub fn first<T>(memory: &[T], n: usize) -> &[T] {
    memory.get(..n).unwrap_or_default()
}

#[derive(Drop)]
pub struct Bytes([u8; BYTES]);

impl Bytes {
    pub fn new() -> Bytes {
        Bytes([0; BYTES])
    }

    // Kept (point 4): it stores a byte, as the script says, and prints nothing.
    pub fn put(&mut self, line: Line) {
        if let Some(b) = self.0.get_mut(line.size(Column::File)) {
            *b = (line.number(Column::Depth) % 256) as u8;
        }
    }

    pub fn file(&self, line: Line) -> &[u8] {
        first(&self.0, line.size(Column::File))
    }

    // The list, of as many bytes as the column says.
    pub fn list(&self, line: Line, column: Column) -> &[u8] {
        first(&self.0[LIST..], line.size(column))
    }

    // How many weights there are.
    pub fn weight_count(&self) -> usize {
        usize::from(self.0[LIST])
    }

    // Room for weights, with those that there are: two bytes each, the lower one first.
    pub fn weights(&self) -> [u16; LISTED] {
        let mut weights = [0; LISTED];
        for (weight, bytes) in weights.iter_mut().zip(self.0[WEIGHTS..].chunks_exact(2)) {
            *weight = u16::from(bytes[0]) + u16::from(bytes[1]) * 256;
        }
        weights
    }
}

// Room for sets, with those of a list, a byte each.
pub fn sets(list: &[u8]) -> [u32; LISTED] {
    let mut sets = [0; LISTED];
    for (set, b) in sets.iter_mut().zip(list) {
        *set = u32::from(*b);
    }
    sets
}
