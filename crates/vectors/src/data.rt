// The data files. A number is a byte n, 0 to 8, and then n bytes, highest first. A file is: how many cases of each kind it holds, a number for each kind;
// the store's length, a number; the store's bytes; the cases, each a row of numbers. What is no number stands in the store: a case has two numbers for
// it, where it starts in the store and how many bytes it has. Numbers are read where they stand, by how many are before them.
ghost use Rattle.std.specs.Prelude.{◌+◌, ◌-◌, ◌<◌, ◌≤◌, length, IfSome};
ghost use Rattle.std.specs.Iterator.{at_most};

// The value with a byte behind it; what does not fit any more falls out at the top.
fn with_digit(x: u64, b: u8) -> u64 {
    x << 8 | u64::from(b)
}

// Numbers, one behind the other.
#[derive(Clone, Copy)]
pub struct Numbers<'a>(pub &'a [u8]);

impl<'a> Numbers<'a> {
    // The first number and those behind it; none where it is cut or too long.
    fn split_first(self) -> Option<(u64, Numbers<'a>)>
        ensures { IfSome result (λ r. length r.1.0.now < length self.entry.0.now) }
    {
        let (n, rest) = self.0.split_first()?;
        if 8 < *n {
            return None;
        }
        let (digits, rest) = rest.split_at_checked(usize::from(*n))?;
        let x = digits.iter().fold(0, |x, b| with_digit(x, *b));
        Some((x, Numbers(rest)))
    }

    // Those behind the first i; none where one of these is cut.
    pub fn after(self, i: usize) -> Option<Numbers<'a>>
        ensures { IfSome result (λ r. length r.0.now + i ≤ length self.entry.0.now) }
    {
        let mut rest = self;
        for _ in 0..i {
            rest = rest.split_first()?.1;
        }
        Some(rest)
    }

    // Those from number i on, of which there may be none.
    pub fn from(self, i: usize) -> Numbers<'a>
        ensures { length result.0.now ≤ length self.entry.0.now - i }
    {
        self.after(i).unwrap_or(Numbers(&[]))
    }

    // Number i, 0 where it is cut.
    pub fn entry(self, i: usize) -> u64 {
        match self.from(i).split_first() {
            Some((x, _)) => x,
            None => 0,
        }
    }

    pub fn index(self, i: usize) -> usize {
        self.entry(i) as usize
    }
}

// Rows of so many numbers each, the last one perhaps cut. Each goes on up to the end of the data.
#[derive(Drop)]
pub struct Rows<'a> {
    pub rest: Numbers<'a>,
    pub width: usize,
    ghost some: { 0 < width },
}

impl<'a> Iterator for Rows<'a> {
    type Item = Numbers<'a>;

    ghost remaining = { λ s. at_most (length s.rest.0.now) };

    fn next(&mut self) -> Option<Numbers<'a>> {
        let row = self.rest;
        if row.0.is_empty() {
            return None;
        }
        self.rest = row.from(self.width);
        Some(row)
    }
}

// A row of numbers, and the store in which what is no number stands.
#[derive(Clone, Copy)]
pub struct Row<'a> {
    pub store: &'a [u8],
    pub numbers: Numbers<'a>,
}

impl<'a> Row<'a> {
    pub fn entry(self, i: usize) -> u64 {
        self.numbers.entry(i)
    }

    pub fn index(self, i: usize) -> usize {
        self.numbers.index(i)
    }

    pub fn from(self, i: usize) -> Row<'a> {
        Row {
            store: self.store,
            numbers: self.numbers.from(i),
        }
    }

    // The part of the store that numbers i and i + 1 name.
    pub fn stored(self, i: usize) -> &'a [u8] {
        let part = self.numbers.from(i);
        let behind = self.store.get(part.index(0)..).unwrap_or_default();
        behind.get(..part.index(1)).unwrap_or_default()
    }
}
