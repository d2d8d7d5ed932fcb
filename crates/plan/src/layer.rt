// One layer of a plan: for each proposition that is needed the vertices that support it, and what they need one layer down.
ghost use Rattle.std.specs.Prelude.{◌≡◌, ◌+◌, ◌≤◌, ◌<◌, ◌^◌, length};
ghost use Rattle.rules.specs.Word as W;
ghost use Rattle.rules.specs.Lists.{list_over};
ghost use Rattle.rules.specs.Domain.{domain, shape_of};
ghost use Rattle.rules.specs.Layer.{actions_in};
ghost use Rattle.words.specs.Width.{prop_width};
ghost use Rattle.graph.specs.Checks.{Room};
ghost use Rattle.graph.specs.Limits.{max_actions};
ghost use Rattle.plan.specs.Search.{listed_actions, listed_shape, Tables, Live, Turned, LayerLists, Covers};

use graph::layout::{layer_size, layer_start};
use rules::Shape;
use words::columns::spread;
use words::members::Members;
use words::sets::{PROP_WIDTH, Props, Set, wide};

// What the search goes by: what each effect needs, the action that it is of, and of each proposition the effects that add it.
#[derive(Clone, Copy)]
pub struct Effects<'a> {
    pub needs: &'a [u32],
    pub owners: &'a [u8],
    pub adders: &'a [u64],
    pub ghost tables: { Tables needs.now owners.now adders.now },
}

// Of a layer all of whose states are covered: the actions marked, and the propositions needed below.
#[derive(Clone, Copy)]
pub struct Marked {
    pub marks: u32,
    pub live: u32,
}

// The states still uncovered, the actions marked, and the propositions needed below.
#[derive(Clone, Copy)]
pub struct Took {
    pub left: u64,
    pub marks: u32,
    pub live: u32,
}

// The persistence of p takes what it can of the states left.
fn carry(s: Took, p: usize, label: u64, under: &mut [u64]) -> Took
    requires { (p < length under.old) × (length under.old ≤ prop_width) × Live s.live under.old }
    ensures { Turned label (W.single p) 0 s under.old result under.new }
{
    let t = s.left & label;
    if t == 0 {
        return s;
    }
    under[p] = under[p] | t;
    Took {
        left: s.left ^ (s.left & t),
        marks: s.marks,
        live: Props(s.live).union(Props::single(p)).0,
    }
}

// An effect takes what it can of the states left; where it takes some its action is marked.
fn turn(s: Took, action: usize, label: u64, needs: u32, under: &mut [u64]) -> Took
    requires { (action < max_actions) × (needs < 2 ^ length under.old) × (length under.old ≤ prop_width) × Live s.live under.old }
    ensures { Turned label needs (W.single action) s under.old result under.new }
{
    let t = s.left & label;
    if t == 0 {
        return s;
    }
    spread(&mut *under, Props(needs), t);
    Took {
        left: s.left ^ (s.left & t),
        marks: Props(s.marks).union(Props::single(action)).0,
        live: s.live | needs,
    }
}

// Each proposition's states are carried to the layer below: first by its persistence, then by its adders, rising.
// Kept (point 3): document 01 asks for this labelled loop over propositions and vertices.
fn support(
    wanted: &[u64],
    live: u32,
    labels: &[u64],
    effects: &Effects<'_>,
    under: &mut [u64],
) -> Option<Marked>
    requires { LayerLists wanted.now live labels.now effects.now.needs.now effects.now.owners.now effects.now.adders.now × (under.old ≡ list_over (length effects.now.adders.now) (λ q. 0)) }
    ensures { Covers (listed_actions effects.now.needs.now effects.now.owners.now effects.now.adders.now) labels.now wanted.now result under.new }
{
    // By a copy, of which no store to `under` can be a part.
    let effects = *effects;
    let mut s = Took {
        left: 0,
        marks: 0,
        live: 0,
    };
    'props: for p in Members(wide(live)) {
        s = carry(
            Took {
                left: wanted[p],
                marks: s.marks,
                live: s.live,
            },
            p,
            labels[effects.needs.len() + p],
            &mut *under,
        );
        for e in Members(effects.adders[p]) {
            if s.left == 0 {
                continue 'props;
            }
            s = turn(
                s,
                effects.owners[e] as usize,
                labels[e],
                effects.needs[e],
                &mut *under,
            );
        }
        if s.left != 0 {
            return None;
        }
    }
    Some(Marked {
        marks: s.marks,
        live: s.live,
    })
}

// What is needed becomes what is needed below, by way of the memory `under`.
fn down(
    needed: &mut [u64],
    live: u32,
    labels: &[u64],
    effects: &Effects<'_>,
    under: &mut [u64],
) -> Option<Marked>
    requires { LayerLists needed.old live labels.now effects.now.needs.now effects.now.owners.now effects.now.adders.now × (under.old ≡ list_over (length effects.now.adders.now) (λ q. 0)) }
    ensures { Covers (listed_actions effects.now.needs.now effects.now.owners.now effects.now.adders.now) labels.now needed.old result needed.new }
{
    let answer = support(&*needed, live, labels, effects, &mut *under);
    needed.copy_from_slice(&*under);
    answer
}

// From layer t + 1 down to layer t, by the action layer between them.
pub fn fall(
    needed: &mut [u64],
    live: u32,
    words: &[u64],
    t: usize,
    effects: &Effects<'_>,
) -> Option<Marked>
    requires { Room (listed_shape effects.now.needs.now effects.now.adders.now) (t + 1) words.now × (length needed.old ≡ length effects.now.adders.now) × Live live needed.old }
    ensures { Covers (listed_actions effects.now.needs.now effects.now.owners.now effects.now.adders.now)
        (actions_in (shape_of (domain (listed_actions effects.now.needs.now effects.now.owners.now effects.now.adders.now))) words.now t) needed.old result needed.new }
{
    let n = effects.adders.len();
    let s = Shape {
        props: n,
        vertices: effects.needs.len() + n,
    };
    let at = layer_start(s, t) + layer_size(n);
    let end = at + layer_size(s.vertices);
    let mut under = [0u64; PROP_WIDTH];
    down(needed, live, &words[at..end], effects, &mut under[..n])
}
