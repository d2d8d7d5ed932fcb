// A line of the script: a letter, six numbers in columns of six, and a text.
use crate::step::{NoSuchStep, Step};
use words::sets::{Props, States};

// Where the column of each number begins: bytes of the file, depth, set of states, goal, words of graph memory, elements of output, which of two graphs
// are the words of the possible sets. Where a share is asked for, its numerator stands for the set, its denominator for the output.
#[derive(Clone, Copy)]
pub enum Column {
    File = 1,
    Depth = 7,
    Set = 13,
    Goal = 19,
    Words = 25,
    Out = 31,
}

const WIDTH: usize = 6;

// Where the text begins.
const TEXT: usize = 38;

// The number with a digit behind it; a blank is none.
fn with_digit(x: u32, b: u8) -> u32 {
    match b.checked_sub(b'0') {
        Some(digit) => (x % 1000000) * 10 + u32::from(digit),
        None => x,
    }
}

#[derive(Clone, Copy)]
pub struct Line<'a>(pub &'a [u8]);

impl<'a> Line<'a> {
    // What to do: nothing where the line is too short for its columns.
    pub fn step(self) -> Result<Step, NoSuchStep> {
        let columns = self.0.get(..TEXT).ok_or(NoSuchStep)?;
        let letter = columns.first().ok_or(NoSuchStep)?;
        Step::try_from(*letter)
    }

    // What is printed before the step's own words.
    pub fn text(self) -> &'a [u8] {
        self.0.get(TEXT..).unwrap_or_default()
    }

    // The number in a column, 0 where the line ends before the column does.
    // Kept (point 4): `parse` would turn the blanks away with which a column is filled up.
    pub fn number(self, column: Column) -> u32 {
        let at = column as usize;
        let digits = self.0.get(at..at + WIDTH).unwrap_or_default();
        digits.iter().fold(0, |x, b| with_digit(x, *b))
    }

    pub fn depth(self) -> usize {
        self.size(Column::Depth)
    }

    pub fn states(self) -> States {
        States(u64::from(self.number(Column::Set)))
    }

    pub fn goal(self) -> Props {
        Props(self.number(Column::Goal))
    }

    // The elements FILE to DEPTH, none where there are fewer.
    pub fn part<T>(self, memory: &[T]) -> &[T] {
        let from = self.size(Column::File);
        memory
            .get(from..self.size(Column::Depth))
            .unwrap_or_default()
    }

    pub fn size(self, column: Column) -> usize {
        self.number(column) as usize
    }

    // The same as a number of 16 bits.
    pub fn short(self, column: Column) -> u16 {
        (self.number(column) % 65536) as u16
    }
}
