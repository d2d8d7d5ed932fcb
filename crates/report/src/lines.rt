// The lines of the text, each from what the layers of a graph say.
ghost use Rattle.std.specs.Prelude.{◌≡◌, ◌≤◌, ◌<◌};
ghost use Rattle.rules.specs.Word as W;
ghost use Rattle.rules.specs.Lists.{run_over};
ghost use Rattle.rules.specs.Level as L;
ghost use Rattle.words.specs.Width.{prop_width, state_width};
ghost use Rattle.level.specs.Rule.{level_said, rest_said};
ghost use Rattle.report.specs.Text as T;
ghost use Rattle.report.specs.Lines.{level_in, cells_of, line_of, state_of, all_of, graph_text_of};
ghost use Rattle.report.specs.Wrote.{Fits, Adds};

use crate::writer::Writer;
use level::layers::{Layers, Level};
use words::sets::{Props, Set, States};

// The layers that the lines are read from, and the first of them that rests, where one does: it is sought once.
#[derive(Clone, Copy)]
pub struct Lines<'a> {
    pub layers: Layers<'a>,
    pub rest: Option<usize>,
    pub ghost rest_is: { rest_said rest ≡ L.rest_of layers.shape layers.depth layers.words.now },
}

impl<'a> Lines<'a> {
    pub fn new(layers: Layers<'a>) -> Lines<'a>
        ensures { result.layers ≡ layers.entry }
    {
        let t = layers.first_rest();
        let rest = if t < layers.depth { Some(t) } else { None };
        Lines { layers, rest }
    }

    // The level of proposition p for a set of states.
    fn level(&self, set: States, p: usize) -> Level
        requires { p < prop_width }
        ensures { level_said result ≡ level_in self.now.layers set.0 p }
    {
        let t = self.layers.first_met(set, Props::single(p));
        if t <= self.layers.depth {
            return Level::At(t);
        }
        match self.rest {
            Some(_) => Level::Never,
            None => Level::NotByDepth,
        }
    }

    // The levels of each single proposition for a set of states.
    fn put_levels(&self, set: States, text: &mut Writer<'_>)
        requires { Fits text.old (cells_of self.now.layers set.0) }
        ensures { Adds text.old (cells_of self.now.layers set.0) text.new }
    {
        for p in 0..self.layers.shape.props {
            text.cell(self.level(set, p));
        }
    }

    // What follows the name of a line.
    fn put_line(&self, set: States, text: &mut Writer<'_>)
        requires { Fits text.old (line_of self.now.layers set.0) }
        ensures { Adds text.old (line_of self.now.layers set.0) text.new }
    {
        text.put(b":");
        self.put_levels(set, &mut *text);
        text.put(b"\n");
    }

    // The line of state s.
    fn put_state(&self, s: usize, text: &mut Writer<'_>)
        requires { (s < state_width) × Fits text.old (state_of self.now.layers s) }
        ensures { Adds text.old (state_of self.now.layers s) text.new }
    {
        text.decimal(s);
        self.put_line(States::single(s), text);
    }

    // The lines of the states.
    fn put_states(&self, states: usize, text: &mut Writer<'_>)
        requires { (states ≤ state_width) × Fits text.old (run_over states (state_of self.now.layers)) }
        ensures { Adds text.old (run_over states (state_of self.now.layers)) text.new }
    {
        for s in 0..states {
            self.put_state(s, &mut *text);
        }
    }

    // The line of all states.
    fn put_all(&self, states: usize, text: &mut Writer<'_>)
        requires { (states ≤ state_width) × Fits text.old (all_of self.now.layers states) }
        ensures { Adds text.old (all_of self.now.layers states) text.new }
    {
        text.put(b"all");
        self.put_line(States::first(states), text);
    }

    // The first line.
    fn put_head(&self, text: &mut Writer<'_>)
        requires { Fits text.old (T.head_text self.now.layers.depth (rest_said self.now.rest)) }
        ensures { Adds text.old (T.head_text self.now.layers.depth (rest_said self.now.rest)) text.new }
    {
        text.put(b"depth ");
        text.decimal(self.layers.depth);
        text.put(b" rest ");
        text.rest(self.rest);
        text.put(b"\n");
    }

    // All of them, for so many states.
    pub fn put_graph(&self, states: usize, text: &mut Writer<'_>)
        requires { (states ≤ state_width) × Fits text.old (graph_text_of self.now.layers states) }
        ensures { Adds text.old (graph_text_of self.now.layers states) text.new }
    {
        self.put_head(&mut *text);
        self.put_states(states, &mut *text);
        self.put_all(states, text);
    }
}
