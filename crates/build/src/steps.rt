// Layer behind layer, each written into the part of the memory that begins where the one before it ended.
ghost use Rattle.std.specs.Prelude.{◌≤◌, ◌<◌};
ghost use Rattle.rules.specs.Domain.{Actions, domain};
ghost use Rattle.rules.specs.Together.{layer_by};
ghost use Rattle.words.specs.Rows.{cell};
ghost use Rattle.layers.specs.Step.{Told, Deletes, Tells};
ghost use Rattle.build.specs.Steps.{Lent, Ended};

use graph::layout::{layer_size, stride};
use layers::step::step;
use rules::Shape;
use together::effects::{Effects, Frame, Layer, Tables};

// How many steps were written, and how many vertices and pairs the scans of all steps of the depth look at.
#[derive(Clone, Copy)]
pub struct Steps {
    pub done: usize,
    pub looked: usize,
}

// Writes steps behind layer 0 until the graph rests or the depth is reached. The steps that are left look at as many as the last one.
pub fn steps_until(
    words: &mut [u64],
    effects: Effects,
    frame: Frame,
    depth: usize,
    layer: &mut Layer,
    tables: &mut Tables,
) -> Steps
    requires { Lent frame.props frame.width frame.span depth effects.needs.now effects.adders.now words.old }
    ensures { (result.done ≤ depth) × (result.done < depth → 0 < result.done) × ((A : Actions) → Told A frame.props effects.entry.needs.now effects.entry.adds.now effects.entry.adders.now effects.entry.interferers.now → Deletes A effects.entry.dels.now → Tells A frame.all layer.old.labels layer.old.t → Ended (domain A) frame.all (layer_by (domain A).props (cell layer.old.t)) depth words.old result.done result.looked words.new) }
{
    let s = Shape {
        props: frame.props,
        vertices: effects.needs.len() + frame.props,
    };
    let act = layer_size(s.vertices);
    let apart = stride(s);
    let mut at = layer_size(frame.props);
    let mut looked = 0;
    for k in 0..depth {
        let did = step(
            &mut words[at..],
            act,
            effects,
            frame,
            &mut *layer,
            &mut *tables,
        );
        looked += did.looked;
        if did.still {
            return Steps {
                done: k + 1,
                looked: looked + (depth - (k + 1)) * did.looked,
            };
        }
        at += apart;
    }
    Steps {
        done: depth,
        looked,
    }
}
