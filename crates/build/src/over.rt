// The graph of a file's actions for any start states, of which the labels of layer 0 are given.
ghost use Rattle.std.specs.Prelude.{◌≡◌, ℕ, ◌≤◌, length};
ghost use Rattle.rules.specs.Layer.{word_count};
ghost use Rattle.words.specs.Rows.{row_length};
ghost use Rattle.graph.specs.Verdict.{laid, verdict_by};
ghost use Rattle.graph.specs.Limits.{max_depth};
ghost use Rattle.graph.specs.Format.{shape_in};
ghost use Rattle.graph.specs.Build.{build_for, looks_for, counted};
ghost use Rattle.build.specs.Rooms.{counted_words, Empty, Labels, Graph};

use crate::Built;
use crate::copies::copy_rest;
use crate::problem::{many_pairs, read_problem, width_for};
use crate::steps::steps_until;
use graph::checks::check_graph;
use graph::layout::word_count;
use graph::limits::MAX_EFFECTS;
use graph::refusal::Refusal;
use graph::view::View;
use layers::start::start;
use together::effects::{Effects, Frame, Layer, Tables};
use words::sets::{Set, States};
use words::tables::{ROW, TABLE};

// Writes the words, with room lent for the lists and tables; how many looks the scans take.
// Kept (point 5): the lists by themselves, as `read_problem` says.
fn build_in(
    file: &View<'_>,
    depth: usize,
    words: &mut [u64],
    needs: &mut [u32],
    adds: &mut [u32],
    dels: &mut [u32],
    owners: &mut [u8],
    adders: &mut [u64],
    interferers: &mut [u64],
    layer: &mut Layer,
    tables: &mut Tables,
) -> usize
    requires fits { (depth ≤ max_depth) × (word_count (shape_in file.now.counts) depth ≤ length words.old) }
    requires rooms { Empty file.now.counts needs.old adds.old dels.old owners.old adders.old interferers.old }
    ensures { Graph file.now.bytes.now file.now.counts depth layer.old.labels words.old result words.new }
{
    read_problem(
        file,
        &mut *needs,
        &mut *adds,
        &mut *dels,
        &mut *owners,
        &mut *adders,
        &mut *interferers,
    );
    let span = width_for(file.counts.effects);
    let frame = Frame {
        props: file.counts.props,
        width: width_for(file.counts.props),
        span,
        all: States::first(file.counts.states).0,
        many: many_pairs(&interferers[..], span),
    };
    start(
        &mut *words,
        &mut layer.t[..],
        &layer.labels[..],
        &tables.spare[..],
        frame.props,
        frame.width,
    );
    let effects = Effects {
        needs: &needs[..],
        adds: &adds[..],
        dels: &dels[..],
        interferers: &interferers[..],
        adders: &adders[..],
    };
    let steps = steps_until(&mut *words, effects, frame, depth, layer, tables);
    copy_rest(words, file.counts.shape(), steps.done, depth);
    steps.looked
}

// Writes the words; lists and tables are arrays of this call. How many looks the scans take.
fn build_words(file: &View<'_>, depth: usize, labels: [u64; ROW], words: &mut [u64]) -> usize
    requires { (depth ≤ max_depth) × (word_count (shape_in file.now.counts) depth ≤ length words.old) × (length labels ≡ row_length) }
    ensures { Graph file.now.bytes.now file.now.counts depth labels words.old result words.new }
{
    let p = file.counts.props;
    let e = file.counts.effects;
    let mut needs = [0u32; MAX_EFFECTS];
    let mut adds = [0u32; MAX_EFFECTS];
    let mut dels = [0u32; MAX_EFFECTS];
    let mut owners = [0u8; MAX_EFFECTS];
    let mut adders = [0u64; ROW];
    let mut interferers = [0u64; ROW];
    let mut layer = Layer {
        labels,
        t: [0u64; TABLE],
    };
    let mut tables = Tables {
        live: [0u64; ROW],
        r: [0u64; TABLE],
        mates: [0u64; TABLE],
        besides: [0u64; TABLE],
        spare: [0u64; TABLE],
    };
    build_in(
        file,
        depth,
        words,
        &mut needs[..e],
        &mut adds[..e],
        &mut dels[..e],
        &mut owners[..e],
        &mut adders[..p],
        &mut interferers[..e],
        &mut layer,
        &mut tables,
    )
}

// Causes 6 and 9, or the words. The labels come by value: of a row that is lent the compiler would not know that the words lie apart from it.
pub fn build_over(
    file: &View<'_>,
    depth: usize,
    labels: [u64; ROW],
    words: &mut [u64],
) -> Result<Built, Refusal>
    requires { length labels ≡ row_length }
    ensures { (starts : ℕ → ℕ) → Labels file.now.counts starts labels
        → (verdict_by counted_words result ≡ counted (looks_for file.now.bytes.now file.now.counts starts depth) (build_for file.now.bytes.now file.now.counts starts depth (length words.old)))
        × (words.new ≡ laid (build_for file.now.bytes.now file.now.counts starts depth (length words.old)) words.old) }
{
    let c = file.counts;
    check_graph(c, depth, Ok(()), words.len())?;
    let looked = build_words(file, depth, labels, words);
    Ok(Built {
        words: word_count(c.shape(), depth),
        looked,
    })
}
