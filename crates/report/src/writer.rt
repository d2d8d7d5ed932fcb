// Text written behind text, into lent memory.
ghost use Rattle.std.specs.Prelude.{◌≡◌};
ghost use Rattle.level.specs.Rule.{level_said, rest_said};
ghost use Rattle.report.specs.Decimal.{decimal};
ghost use Rattle.report.specs.Text as T;
ghost use Rattle.report.specs.Wrote.{Fits, Adds};

use itoa::Buffer;
use level::layers::Level;

// The memory, and where the text in it ends.
// Kept (point 4): no `write!` here, since its contract says what is written where it answers `Ok`, and never that it does.
#[derive(Drop)]
pub struct Writer<'a> {
    pub out: &'a mut [u8],
    pub end: usize,
}

impl<'a> Writer<'a> {
    pub fn new(out: &'a mut [u8]) -> Writer<'a>
        ensures { (result.out ≡ out.entry) × (result.end ≡ 0) }
    {
        Writer { out, end: 0 }
    }

    // Kept (point 4): it copies text that there is, and prints nothing by hand.
    pub fn put(&mut self, text: &[u8])
        requires { Fits self.old text.now }
        ensures { Adds self.old text.now self.new }
    {
        let end = self.end + text.len();
        self.out[self.end..end].copy_from_slice(text);
        self.end = end;
    }

    // A number in digits.
    pub fn decimal(&mut self, n: usize)
        requires { Fits self.old (decimal n) }
        ensures { Adds self.old (decimal n) self.new }
    {
        let mut digits = Buffer::new();
        self.put(digits.format(n).as_bytes());
    }

    // A space and the level: the first layer that meets the goal, `-` where there is none and the graph rests, `?` where it does not.
    pub fn cell(&mut self, level: Level)
        requires { Fits self.old (T.cell_text (level_said level)) }
        ensures { Adds self.old (T.cell_text (level_said level)) self.new }
    {
        self.put(b" ");
        match level {
            Level::At(t) => self.decimal(t),
            Level::Never => self.put(b"-"),
            Level::NotByDepth => self.put(b"?"),
        }
    }

    // The layer that rests, or `?` where none does.
    pub fn rest(&mut self, rest: Option<usize>)
        requires { Fits self.old (T.rest_text (rest_said rest)) }
        ensures { Adds self.old (T.rest_text (rest_said rest)) self.new }
    {
        match rest {
            Some(t) => self.decimal(t),
            None => self.put(b"?"),
        }
    }

    // The line of a file that is turned away.
    pub fn refused(&mut self, number: usize, place: usize)
        requires { Fits self.old (T.refused_text number place) }
        ensures { Adds self.old (T.refused_text number place) self.new }
    {
        self.put(b"refused ");
        self.decimal(number);
        self.put(b" ");
        self.decimal(place);
        self.put(b"\n");
    }
}
