// The entry of one goal after the other over the same layers: how far a word keeps goals from being met is remembered, and so is the entry of a goal without a level.
ghost use Rattle.std.specs.Prelude.{◌≡◌, ◌+◌, ◌≤◌, ◌<◌, ◌^◌, max, length};
ghost use Rattle.std.specs.Option.{ForSome};
ghost use Rattle.rules.specs.Layer.{size};
ghost use Rattle.rules.specs.Level as L;
ghost use Rattle.words.specs.Width.{prop_width};
ghost use Rattle.level.specs.Meets.{shown_at, PassedOver};
ghost use Rattle.page.specs.Memo.{Remembers, OfLabel, unmet_entry, entry_in};

use graph::checks::check_goal;
use graph::layout::layer_size;
use level::layers::{Layers, shown};
use words::members::Members;
use words::sets::{PROP_WIDTH, Props, Set, States};

// The entries that are no level.
pub const NEVER: u16 = 256;

pub const NOT_BY_DEPTH: u16 = 257;

const WIDE_GOAL: u16 = 258;

// Two numbers for each word of the widest proposition layer.
const ROWS: usize = 1056;

// What the layers have shown of a set of states: of each label a layer before which it does not contain the set, of each word a row of layers in which it keeps
// goals from being met, and the entry of a goal without a level once there was one.
#[derive(Drop)]
pub struct Memo<'a> {
    pub layers: Layers<'a>,
    pub set: States,
    pub firsts: [u16; PROP_WIDTH],
    pub rows: [u16; ROWS],
    pub unmet: Option<u16>,
    pub ghost remembers: { Remembers layers.shape layers.words.now layers.depth set.0 firsts rows },
    pub ghost known: { ForSome unmet (λ e. e ≡ unmet_entry layers.shape layers.depth layers.words.now) },
}

impl<'a> Memo<'a> {
    // Nothing is remembered at first.
    pub fn new(layers: Layers<'a>, set: States) -> Memo<'a>
        ensures { (result.layers ≡ layers.entry) × (result.set ≡ set) }
    {
        Memo {
            layers,
            set,
            firsts: [0; PROP_WIDTH],
            rows: [0; ROWS],
            unmet: None,
        }
    }

    // A layer before which none meets the goal: the last that is remembered of its labels.
    fn start(&self, goal: Props) -> usize
        requires { goal.0 < 2 ^ self.now.layers.shape.props }
        ensures { OfLabel self.now.firsts self.now.layers.shape.props goal.0 result }
    {
        let mut t = 0;
        for p in Members(goal.word()) {
            t = usize::max(t, self.firsts[p] as usize);
        }
        t
    }

    // The first layer after t in which the label of p contains the set. In a built graph that is the first of all, which is remembered.
    fn next_label(&mut self, p: usize, t: usize) -> usize
        requires { (p < self.old.layers.shape.props) × (t ≤ self.old.layers.depth) }
        ensures { PassedOver self.old.layers.shape self.old.layers.words.now self.old.layers.depth self.old.set.0 p (shown_at self.old.layers.shape.props self.old.set.0 p) (t + 1) result
            × (self.new.layers ≡ self.old.layers) × (self.new.set ≡ self.old.set) }
    {
        let shows = shown(self.layers.shape.props, self.set, p);
        let known = self.firsts[p] as usize;
        let first = self.layers.pass_over(known, self.set, p, shows);
        self.firsts[p] = first as u16;
        if t < first {
            return first;
        }
        self.layers.pass_over(t + 1, self.set, p, shows)
    }

    // The first layer after t whose word at the place shows what it does where a goal is met: the end of the row that is remembered, or that of a row from there on.
    fn next_word(&mut self, place: usize, t: usize) -> usize
        requires { (place < size self.old.layers.shape.props) × (t ≤ self.old.layers.depth) }
        ensures { PassedOver self.old.layers.shape self.old.layers.words.now self.old.layers.depth self.old.set.0 place (shown_at self.old.layers.shape.props self.old.set.0 place) (t + 1) result
            × (self.new.layers ≡ self.old.layers) × (self.new.set ≡ self.old.set) }
    {
        let next = t + 1;
        let at = 2 * place;
        let end = self.rows[at + 1] as usize;
        if self.rows[at] as usize <= next {
            if next <= end {
                return end;
            }
        }
        let shows = shown(self.layers.shape.props, self.set, place);
        let found = self.layers.pass_over(next, self.set, place, shows);
        self.rows[at] = next as u16;
        self.rows[at + 1] = found as u16;
        found
    }

    // The next layer after t that may meet a goal which the word at the place keeps from being met at t.
    fn later(&mut self, place: usize, t: usize) -> usize
        requires { (place < size self.old.layers.shape.props) × (t ≤ self.old.layers.depth) }
        ensures { PassedOver self.old.layers.shape self.old.layers.words.now self.old.layers.depth self.old.set.0 place (shown_at self.old.layers.shape.props self.old.set.0 place) (t + 1) result
            × (self.new.layers ≡ self.old.layers) × (self.new.set ≡ self.old.set) }
    {
        if place < self.layers.shape.props {
            return self.next_label(place, t);
        }
        self.next_word(place, t)
    }

    // The first layer from 0 to depth that meets a goal of its propositions, and depth + 1 where none does.
    // Kept (point 1): the clause equates it with the definition first_met, which has depth + 1 where no layer meets the goal.
    // Kept (point 3): `t` goes on by what `later` finds and not by one.
    fn first_met(&mut self, goal: Props) -> usize
        requires { goal.0 < 2 ^ self.old.layers.shape.props }
        ensures { (result ≡ L.first_met self.old.layers.shape self.old.layers.depth self.old.set.0 goal.0 self.old.layers.words.now)
            × (self.new.layers ≡ self.old.layers) × (self.new.set ≡ self.old.set) }
    {
        let layers = self.layers;
        let set = self.set;
        let mut t = self.start(goal);
        while t <= layers.depth {
            let place = layers.failing_at(t, set, goal);
            if layer_size(layers.shape.props) <= place {
                return t;
            }
            t = self.later(place, t);
        }
        t
    }

    // The entry of a goal without a level, by the rest.
    fn without_level(&self) -> u16
        ensures { result ≡ unmet_entry self.now.layers.shape self.now.layers.depth self.now.layers.words.now }
    {
        let rests = self.layers.rests();
        if rests {
            return NEVER;
        }
        NOT_BY_DEPTH
    }

    // The same, with the rest sought for the first such goal only.
    fn unmet_entry(&mut self) -> u16
        ensures { (result ≡ unmet_entry self.old.layers.shape self.old.layers.depth self.old.layers.words.now)
            × (self.new.layers ≡ self.old.layers) × (self.new.set ≡ self.old.set) }
    {
        if let Some(entry) = self.unmet {
            return entry;
        }
        let entry = self.without_level();
        self.unmet = Some(entry);
        entry
    }

    // The entry of a goal.
    pub fn entry(&mut self, goal: Props) -> u16
        ensures { (result ≡ entry_in self.old.layers.shape self.old.layers.depth self.old.set.0 goal.0 self.old.layers.words.now)
            × (self.new.layers ≡ self.old.layers) × (self.new.set ≡ self.old.set) }
    {
        let Ok(()) = check_goal(self.layers.shape.props, goal) else {
            return WIDE_GOAL;
        };
        let t = self.first_met(goal);
        if t <= self.layers.depth {
            return t as u16;
        }
        self.unmet_entry()
    }
}
