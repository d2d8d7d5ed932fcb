// The relaxed plan.
#![tactic(auto)]

mod descent;
mod layer;
mod output;

ghost use Rattle.std.specs.Prelude.{◌≡◌, [], ℕ, ◌≤◌, ◌<◌, ◌^◌, length};
ghost use Rattle.rules.specs.Word as W;
ghost use Rattle.rules.specs.Over.{keep};
ghost use Rattle.rules.specs.Lists.{list_over};
ghost use Rattle.rules.specs.Domain as D;
ghost use Rattle.rules.specs.Shared.{start_label};
ghost use Rattle.rules.specs.Plan as P;
ghost use Rattle.words.specs.Memory.{put_at};
ghost use Rattle.graph.specs.Verdict.{laid};
ghost use Rattle.graph.specs.Format.{actions_of, shape_in};
ghost use Rattle.graph.specs.Checks.{Room};
ghost use Rattle.plan.specs.Plan.{plan_verdict, made, planned_verdict, plan_taken, plan_rule};
ghost use Rattle.plan.specs.Search.{listed_actions, listed_shape};

use crate::descent::descend;
use crate::layer::Effects;
use crate::output::{copy, count};
use graph::checks::{check_asked, check_graph, check_output};
use graph::file::check_file;
use graph::limits::{MAX_DEPTH, MAX_EFFECTS};
use graph::refusal::Refusal;
use graph::view::View;
use level::layers::Layers;
use words::columns::spread;
use words::members::single;
use words::sets::{PROP_WIDTH, Props, States};
use words::turned::columns_of_square;

// What a plan answers: its level, which is the number of words written, and how many actions are marked in them.
#[derive(Clone, Copy, PartialEq, Eq, Debug)]
pub struct Planned {
    pub level: usize,
    pub marked: usize,
}

// Up to so many effects, or where the first two add up to so many propositions taken together, adders are found member by member: measured.
const FEW_EFFECTS: usize = 20;

const FEW_ADDED: u32 = 10;

// Whether to go member by member is less work than to turn a square of bits: the first two effects speak for all.
fn few_adds(file: &View<'_>) -> bool {
    if file.counts.effects <= FEW_EFFECTS {
        return true;
    }
    u32::count_ones(file.added(0)) + u32::count_ones(file.added(1)) <= FEW_ADDED
}

// Of each effect what it needs, its action and what it adds: by a copy of the view, of which no store to the lists can be a part (measured, up to 1.2 times as
// fast).
fn read_sets(file: &View<'_>, needs: &mut [u32], owners: &mut [u8], adds: &mut [u32])
    requires { (length needs.old ≡ file.now.counts.effects) × (length owners.old ≡ file.now.counts.effects) × (file.now.counts.effects ≤ length adds.old) }
    ensures { (needs.new ≡ list_over file.now.counts.effects (D.condition (actions_of file.now.bytes.now file.now.counts)))
        × (owners.new ≡ list_over file.now.counts.effects (actions_of file.now.bytes.now file.now.counts).owner)
        × (adds.new ≡ put_at 0 (list_over file.now.counts.effects (actions_of file.now.bytes.now file.now.counts).add) adds.old) }
{
    let view = *file;
    // Kept (point 3): `iter_mut` can go over one of the lists only, and the effect is read by the same index: the others would be written by it as they are.
    for e in 0..needs.len() {
        needs[e] = view.condition(e);
        owners[e] = view.owner(e) as u8;
        adds[e] = view.added(e);
    }
}

// Of each effect what it needs and its action, and of each proposition the effects that add it, found member by member.
// Kept (point 5): as `lent_effects` says.
fn read_members(file: &View<'_>, needs: &mut [u32], owners: &mut [u8], adders: &mut [u64])
    requires { (length needs.old ≡ file.now.counts.effects) × (length owners.old ≡ file.now.counts.effects) × (adders.old ≡ list_over file.now.counts.props (λ p. 0)) }
    ensures { (needs.new ≡ list_over file.now.counts.effects (D.condition (actions_of file.now.bytes.now file.now.counts)))
        × (owners.new ≡ list_over file.now.counts.effects (actions_of file.now.bytes.now file.now.counts).owner)
        × (adders.new ≡ list_over file.now.counts.props (start_label file.now.counts.effects (actions_of file.now.bytes.now file.now.counts).add)) }
{
    let view = *file;
    // Kept (point 3): `iter_mut` can go over one of the lists only, and the effect is read by the same index: the others would be written by it as they are.
    for e in 0..needs.len() {
        needs[e] = view.condition(e);
        let o = view.owner(e);
        owners[e] = o as u8;
        spread(&mut *adders, Props(view.added(e)), single(e));
    }
}

// The same, by what is less work: the adders are also the columns of a square.
// Kept (point 5): as `lent_effects` says.
fn read_effects(file: &View<'_>, needs: &mut [u32], owners: &mut [u8], adders: &mut [u64])
    requires { (length needs.old ≡ file.now.counts.effects) × (length owners.old ≡ file.now.counts.effects) × (adders.old ≡ list_over file.now.counts.props (λ p. 0)) }
    ensures { (needs.new ≡ list_over file.now.counts.effects (D.condition (actions_of file.now.bytes.now file.now.counts)))
        × (owners.new ≡ list_over file.now.counts.effects (actions_of file.now.bytes.now file.now.counts).owner)
        × (adders.new ≡ list_over file.now.counts.props (start_label file.now.counts.effects (actions_of file.now.bytes.now file.now.counts).add)) }
{
    if few_adds(file) {
        read_members(file, needs, owners, adders);
        return;
    }
    let mut adds = [0u32; PROP_WIDTH];
    read_sets(file, needs, owners, &mut adds[..]);
    columns_of_square(adders, &mut adds[..]);
}

// What the search goes by, read from the file into the lent memory.
// Kept (point 5): with `read_effects` in this function, plans of dense problems took up to 1.2 times as long.
fn lent_effects<'a>(
    file: &View<'_>,
    needs: &'a mut [u32],
    owners: &'a mut [u8],
    adders: &'a mut [u64],
) -> Effects<'a>
    requires { (length needs.old ≡ file.now.counts.effects) × (length owners.old ≡ file.now.counts.effects) × (adders.old ≡ list_over file.now.counts.props (λ p. 0)) }
    ensures { (result.needs.now ≡ list_over file.now.counts.effects (D.condition (actions_of file.now.bytes.now file.now.counts)))
        × (result.owners.now ≡ list_over file.now.counts.effects (actions_of file.now.bytes.now file.now.counts).owner)
        × (result.adders.now ≡ list_over file.now.counts.props (start_label file.now.counts.effects (actions_of file.now.bytes.now file.now.counts).add)) }
{
    read_effects(file, &mut *needs, &mut *owners, &mut *adders);
    Effects {
        needs,
        owners,
        adders,
    }
}

// The plan of a level, made in the lent memory and copied once it is whole: cause 14, or the words.
fn plan_in(
    effects: &Effects<'_>,
    set: States,
    goal: Props,
    words: &[u64],
    needed: &mut [u64],
    plan: &mut [u32],
    out: &mut [u32],
) -> Result<Planned, Refusal>
    requires { Room (listed_shape effects.now.needs.now effects.now.adders.now) (length plan.old) words.now × (goal.0 < 2 ^ length effects.now.adders.now)
        × (needed.old ≡ list_over (length effects.now.adders.now) (λ p. 0)) × (length plan.old ≤ length out.old) }
    ensures { (depth : ℕ) → (plan_verdict result ≡ made (planned_verdict depth (P.descend (listed_actions effects.now.needs.now effects.now.owners.now effects.now.adders.now) words.now (length plan.old) (list_over (length effects.now.adders.now) (λ p. keep (W.bit p goal.0) set.0)) [])))
        × (out.new ≡ laid (planned_verdict depth (P.descend (listed_actions effects.now.needs.now effects.now.owners.now effects.now.adders.now) words.now (length plan.old) (list_over (length effects.now.adders.now) (λ p. keep (W.bit p goal.0) set.0)) [])) out.old) }
{
    spread(&mut *needed, goal, set.0);
    let got = descend(&mut *needed, goal.0, words, effects, &mut *plan);
    if let Err(t) = got {
        return Err(Refusal::Uncovered(t));
    }
    copy(&*plan, &mut *out);
    Ok(Planned {
        level: plan.len(),
        marked: count(&*plan),
    })
}

// Causes 13 and 14, or the plan.
fn plan_over(
    file: &View<'_>,
    depth: usize,
    set: States,
    goal: Props,
    words: &[u64],
    out: &mut [u32],
) -> Result<Planned, Refusal>
    requires { Room (shape_in file.now.counts) depth words.now × (goal.0 < 2 ^ file.now.counts.props) × (depth ≤ length out.old) }
    ensures { (plan_verdict result ≡ made (planned_verdict depth (P.plan_of (actions_of file.now.bytes.now file.now.counts) depth set.0 goal.0 words.now)))
        × (out.new ≡ laid (planned_verdict depth (P.plan_of (actions_of file.now.bytes.now file.now.counts) depth set.0 goal.0 words.now)) out.old) }
{
    let shape = file.counts.shape();
    let layers = Layers {
        words,
        shape,
        depth,
    };
    let t = layers.first_met(set, goal);
    if depth < t {
        return Err(Refusal::NoLevel(depth));
    }
    let e = file.counts.effects;
    let n = file.counts.props;
    let mut needs = [0u32; MAX_EFFECTS];
    let mut owners = [0u8; MAX_EFFECTS];
    let mut adders = [0u64; PROP_WIDTH];
    let mut needed = [0u64; PROP_WIDTH];
    let mut plan = [0u32; MAX_DEPTH];
    let effects = lent_effects(file, &mut needs[..e], &mut owners[..e], &mut adders[..n]);
    plan_in(
        &effects,
        set,
        goal,
        words,
        &mut needed[..n],
        &mut plan[..t],
        out,
    )
}

// Causes 6 to 10, in order.
fn plan_taken(
    file: &View<'_>,
    depth: usize,
    set: States,
    goal: Props,
    words: &[u64],
    out: &mut [u32],
) -> Result<Planned, Refusal>
    ensures { (plan_verdict result ≡ made (plan_taken file.now.bytes.now file.now.counts depth set.0 goal.0 words.now (length out.old)))
        × (out.new ≡ laid (plan_taken file.now.bytes.now file.now.counts depth set.0 goal.0 words.now (length out.old)) out.old) }
{
    check_graph(
        file.counts,
        depth,
        check_asked(file.counts, set, goal),
        words.len(),
    )?;
    check_output(depth, out.len())?;
    plan_over(file, depth, set, goal, words, out)
}

// The relaxed plan of a goal for a set of states: its words stand at the front of the output, and what lies behind them stays. Turned away, no word changes.
pub fn plan(
    file: &[u8],
    depth: usize,
    set: States,
    goal: Props,
    words: &[u64],
    out: &mut [u32],
) -> Result<Planned, Refusal>
    ensures { (plan_verdict result ≡ made (plan_rule file.now depth set.0 goal.0 words.now (length out.old)))
        × (out.new ≡ laid (plan_rule file.now depth set.0 goal.0 words.now (length out.old)) out.old) }
{
    let view = check_file(file)?;
    plan_taken(&view, depth, set, goal, words, out)
}
