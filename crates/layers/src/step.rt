// The step: labels and pairs of the effects, the action layer's words, and the next proposition layer with its table and its looks.
ghost use Rattle.std.specs.Prelude.{List, ℕ, ◌≤◌};
ghost use Rattle.rules.specs.Domain.{Actions};
ghost use Rattle.together.specs.Kept.{Kept};
ghost use Rattle.layers.specs.Step.{Told, Tells, Admitted, Mated, Mating, Ready, Stepped, Deletes, most_of_step};

use crate::write::put_actions;
use scans::finish;
use together::admit::admit;
use together::cut::{cut_columns, cut_rows};
use together::effects::{Effects, Frame, Layer, Tables};
use together::few::few;
use together::pairs::{gather_rows, join_rows, pairs};
use words::tables::turn;

// Which effects are together, and what each is together with among the adders of each proposition: by rows, or one by one where there are few pairs.
// Pairs go by the rows of r as they are; what an effect deletes is cut out behind them, since it does not part the effects of one action.
fn mate(effects: Effects, tables: &mut Tables, frame: Frame)
    requires { Mating frame.props frame.width frame.span effects.needs.now effects.adders.now }
    ensures { Kept tables.old tables.new
        × ((A : Actions) (all : ℕ) (labels t : List ℕ) → Told A frame.props effects.entry.needs.now effects.entry.adds.now effects.entry.adders.now effects.entry.interferers.now → Deletes A effects.entry.dels.now → Tells A all labels t → Admitted A all labels t tables.new.live tables.new.r → Mated A all t tables.new.mates tables.new.besides) }
{
    if !frame.many {
        return few(effects, tables, frame.width);
    }
    turn(
        &mut tables.besides,
        &tables.r,
        effects.needs.len(),
        frame.props,
    );
    pairs(
        effects,
        &tables.live[..],
        &tables.besides[..],
        &mut tables.mates[..],
        frame.span,
    );
    cut_columns(&mut tables.besides[..], effects.dels);
    join_rows(
        &mut tables.spare[..],
        &tables.besides[..],
        &tables.mates[..],
        effects.adders,
        frame.span,
    );
    turn(
        &mut tables.besides,
        &tables.spare,
        frame.props,
        effects.needs.len(),
    );
}

// Whether a step changed nothing, and how many vertices and pairs its scans looked at.
#[derive(Clone, Copy)]
pub struct Outcome {
    pub still: bool,
    pub looked: usize,
}

// Writes the action layer at the front and the next proposition layer behind it; the layer and its table become that one.
// `spare` gets what the adders of each proposition are together with; that and what is together in the layer before make the next layer.
// Kept (point 6): the action layer goes to the front of the words and the next layer to `at`: one slice, cut here.
pub fn step(
    words: &mut [u64],
    at: usize,
    effects: Effects,
    frame: Frame,
    layer: &mut Layer,
    tables: &mut Tables,
) -> Outcome
    requires { Ready frame.props frame.width frame.span at effects.needs.now effects.adders.now words.old }
    ensures { (result.looked ≤ most_of_step) × ((A : Actions) → Told A frame.props effects.entry.needs.now effects.entry.adds.now effects.entry.adders.now effects.entry.interferers.now → Deletes A effects.entry.dels.now → Tells A frame.all layer.old.labels layer.old.t → Stepped A frame.all layer.old.t layer.new.labels layer.new.t words.old words.new result.still result.looked) }
{
    admit(
        effects,
        frame.all,
        &*layer,
        &mut tables.r[..],
        &mut tables.live[..],
        frame.width,
    );
    mate(effects, &mut *tables, frame);
    cut_rows(&mut tables.r[..], effects.dels);
    put_actions(
        &mut *words,
        frame.props,
        effects.needs.len(),
        &*layer,
        &*tables,
    );
    gather_rows(
        &mut tables.spare[..],
        &tables.besides[..],
        effects.adders,
        frame.width,
    );
    let done = finish(&mut words[at..], effects.adders, layer, &*tables);
    Outcome {
        still: done.fresh == 0,
        looked: done.looked,
    }
}
