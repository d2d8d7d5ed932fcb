// The bits of words closed up. The states of a set of one or two runs go down in one or two shifts; those of any other in moves, of
// which there are at most six. Masks are prepared for a set once, and are handed on by value, so that they stay in registers.
ghost use Rattle.std.specs.Prelude.{◌≡◌, ◌+◌, ◌-◌, ◌%◌, ◌^◌, ◌<◌, ◌≤◌, length, get_or, IfSome};
ghost use Rattle.rules.specs.Test.{same};
ghost use Rattle.rules.specs.Word.{bit, single, union};
ghost use Rattle.rules.specs.Over.{keep};
ghost use Rattle.rules.specs.Lists.{list_over};
ghost use Rattle.rules.specs.Extract.{close_up};
ghost use Rattle.words.specs.Width.{state_width};
ghost use Rattle.words.specs.Memory.{put_at};
ghost use Rattle.extract.specs.Moves.{most_moves, piece_words};
ghost use Rattle.extract.specs.Moves as M;

use words::equal::same_words;
use words::members::{Members, lowest};
use words::sets::{STATE_WIDTH, Set, States};

// How many words are compared with those a layer before them, and copied, at once.
const PIECE: usize = 64;

// The states of a set that have near to go, and those that have far.
#[derive(Clone, Copy)]
struct Runs {
    set: u64,
    near: usize,
    low: u64,
    far: usize,
    high: u64,
    ghost made: { M.RunsFor set near low far high },
    ghost all: { union low high ≡ set },
}

// The states of a set that go down in each move, where they stand before it: in move i they go down by 2 ^ i.
#[derive(Clone, Copy)]
struct Moves {
    set: u64,
    m0: u64,
    m1: u64,
    m2: u64,
    m3: u64,
    m4: u64,
    m5: u64,
    ghost made: { M.MovesFor set m0 m1 m2 m3 m4 m5 },
}

// State s, if it has so far to go.
fn going_at(s: usize, gap: usize, far: usize) -> u64
    requires { s < state_width }
    ensures { result ≡ keep (same gap far) (single s) }
{
    if gap != far {
        return 0;
    }
    States::single(s).0
}

// The states of the set that have so far to go: one member after the other, `under` of them lie below it.
// Kept (point 2): `move_mask` differs in what it asks and takes of a member. One loop over a trait would have two instances with `far` and
// the move in them, each with the law that its loop has here.
fn going(set: States, far: usize) -> u64
    ensures { result ≡ M.going set.0 far }
{
    let mut under = 0;
    let mut mask = 0;
    for s in Members(set.0) {
        mask |= going_at(s, s - under, far);
        under += 1;
    }
    mask
}

impl Runs {
    // Near is what the lowest state has to go, far what the highest has; none where some state has anything else to go, as of three runs or more.
    fn of(set: States) -> Option<Runs>
        ensures { IfSome result (λ r. r.set ≡ set.0) }
    {
        let near = lowest(set.0) % STATE_WIDTH;
        let above = u64::leading_zeros(set.0) as usize;
        let members = u64::count_ones(set.0) as usize;
        let far = (2 * STATE_WIDTH - above - members) % STATE_WIDTH;
        let low = going(set, near);
        let high = going(set, far);
        if low | high != set.0 {
            return None;
        }
        Some(Runs {
            set: set.0,
            near,
            low,
            far,
            high,
        })
    }

    // The word cut to the set, bits closed up.
    fn close_up(self, w: u64) -> u64
        ensures { result ≡ close_up state_width self.set w }
    {
        let first = (self.low & w) >> self.near;
        if self.near == self.far {
            return first;
        }
        first | ((self.high & w) >> self.far)
    }

    // Kept (point 6): as says `cut` below.
    // Kept (point 3): after `zip` of `iter_mut` nothing is known of the list that is written.
    fn cut(self, words: &[u64], out: &mut [u64], count: usize)
        requires { (count ≤ length words.now) × (count ≤ length out.old) }
        ensures { out.new ≡ put_at 0 (M.cut_words self.set words.now 0 count) out.old }
    {
        for j in 0..count {
            out[j] = self.close_up(words[j]);
        }
    }
}

// Where state s stands before move i, if it goes down in that move.
fn moving_at(s: usize, gap: usize, i: usize) -> u64
    requires { (s < state_width) × (gap ≤ s) × (i < most_moves) }
    ensures { result ≡ keep (bit i gap) (single (s - gap % 2 ^ i)) }
{
    if (gap >> i) % 2 != 1 {
        return 0;
    }
    States::single(s - gap % (1usize << i)).0
}

// The states of the set that go down in move i, where they stand.
fn move_mask(set: States, i: usize) -> u64
    requires { i < most_moves }
    ensures { result ≡ M.moving state_width set.0 i }
{
    let mut under = 0;
    let mut mask = 0;
    for s in Members(set.0) {
        mask |= moving_at(s, s - under, i);
        under += 1;
    }
    mask
}

// Whether the piece at one place is the one at another.
fn same_piece(words: &[u64], one: usize, other: usize) -> bool
    requires { (one + piece_words ≤ length words.now) × (other + piece_words ≤ length words.now) }
    ensures { M.SamePiece words.now one other result }
{
    same_words(&words[one..one + PIECE], &words[other..other + PIECE])
}

// The piece at one place copied to a later one.
// Kept (point 6): both pieces lie in one list, and one is written: places are what `copy_within` takes.
fn copy_piece(out: &mut [u64], from: usize, to: usize)
    requires { (from + piece_words ≤ to) × (to + piece_words ≤ length out.old) }
    ensures { out.new ≡ put_at to (list_over piece_words (λ i. get_or out.old (from + i) 0)) out.old }
{
    out.copy_within(from..from + PIECE, to);
}

impl Moves {
    fn of(set: States) -> Moves
        ensures { result.set ≡ set.0 }
    {
        Moves {
            set: set.0,
            m0: move_mask(set, 0),
            m1: move_mask(set, 1),
            m2: move_mask(set, 2),
            m3: move_mask(set, 3),
            m4: move_mask(set, 4),
            m5: move_mask(set, 5),
        }
    }

    // The word cut to the set, bits closed up: in four moves where nothing goes down in the last two.
    fn close_up(self, w: u64) -> u64
        ensures { result ≡ close_up state_width self.set w }
    {
        let a = self.set & w;
        let b = (a ^ (a & self.m0)) | ((a & self.m0) >> 1);
        let c = (b ^ (b & self.m1)) | ((b & self.m1) >> 2);
        let d = (c ^ (c & self.m2)) | ((c & self.m2) >> 4);
        let e = (d ^ (d & self.m3)) | ((d & self.m3) >> 8);
        if self.m4 | self.m5 == 0 {
            return e;
        }
        let f = (e ^ (e & self.m4)) | ((e & self.m4) >> 16);
        (f ^ (f & self.m5)) | ((f & self.m5) >> 32)
    }

    // So many words from a place on.
    // Kept (point 6): as says `cut_piece`.
    // Kept (point 3): after `zip` of `iter_mut` nothing is known of the list that is written.
    fn cut_words(self, words: &[u64], out: &mut [u64], at: usize, count: usize)
        requires { (at + count ≤ length words.now) × (at + count ≤ length out.old) }
        ensures { out.new ≡ put_at at (M.cut_words self.set words.now at count) out.old }
    {
        for i in 0..count {
            let k = at + i;
            out[k] = self.close_up(words[k]);
        }
    }

    // One piece: where it is the same as the one so far back, what came of that is copied.
    // Kept (point 6): the piece is read beside the one `back` words earlier in the same lists, so it takes these and its place.
    fn cut_piece(self, back: usize, words: &[u64], out: &mut [u64], at: usize)
        requires { M.CutUpTo self.set words.now out.old at × (at + piece_words ≤ length words.now) × (at + piece_words ≤ length out.old) }
        ensures { out.new ≡ put_at at (M.cut_words self.set words.now at piece_words) out.old }
    {
        if back < PIECE {
            self.cut_words(words, &mut *out, at, PIECE);
        } else if at < back {
            self.cut_words(words, &mut *out, at, PIECE);
        } else if same_piece(words, at - back, at) {
            copy_piece(&mut *out, at - back, at);
        } else {
            self.cut_words(words, &mut *out, at, PIECE);
        }
    }

    // Whole pieces, and the words behind them.
    // Kept (point 6): as says `cut` below.
    // Kept (point 3): a piece is read beside the one `back` words earlier, so `chunks` of the list do not do.
    fn cut(self, back: usize, words: &[u64], out: &mut [u64], count: usize)
        requires { (count ≤ length words.now) × (count ≤ length out.old) }
        ensures { out.new ≡ put_at 0 (M.cut_words self.set words.now 0 count) out.old }
    {
        let mut at = 0;
        while at + PIECE <= count {
            self.cut_piece(back, words, &mut *out, at);
            at += PIECE;
        }
        self.cut_words(words, &mut *out, at, count - at);
    }
}

// The first `count` words cut to the set, bits closed up. Layers mostly repeat so far back.
// Kept (point 6): `laid` in the rule of `extract` speaks of all of `out`. With `words[..count]` and `out[..count]` here, what is said
// of the parts would have to be carried back to the whole lists.
pub fn cut(set: States, back: usize, words: &[u64], out: &mut [u64], count: usize)
    requires { (count ≤ length words.now) × (count ≤ length out.old) }
    ensures { out.new ≡ put_at 0 (M.cut_words set.0 words.now 0 count) out.old }
{
    match Runs::of(set) {
        Some(runs) => runs.cut(words, out, count),
        None => Moves::of(set).cut(back, words, out, count),
    }
}
