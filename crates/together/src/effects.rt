// What a build has of its problem and of a layer: lists of the effects' sets, and tables of what is together.
ghost use Rattle.together.specs.Effects.{Effecting};

use words::tables::{ROW, TABLE};

// What each effect needs, adds and deletes and with which it interferes; and the effects that add each proposition.
#[derive(Clone, Copy)]
pub struct Effects<'a> {
    pub needs: &'a [u32],
    pub adds: &'a [u32],
    pub dels: &'a [u32],
    pub interferers: &'a [u64],
    pub adders: &'a [u64],
    ghost listed: { Effecting needs.now adds.now dels.now interferers.now adders.now },
}

// A proposition layer: its labels, and the propositions with each other.
#[derive(Drop)]
pub struct Layer {
    pub labels: [u64; ROW],
    pub t: [u64; TABLE],
}

// The action layer over it: the labels of the effects, and the effects with the propositions, with each other and with the adders of each proposition.
// `spare` is for what is made in between.
#[derive(Drop)]
pub struct Tables {
    pub live: [u64; ROW],
    pub r: [u64; TABLE],
    pub mates: [u64; TABLE],
    pub besides: [u64; TABLE],
    pub spare: [u64; TABLE],
}

// How the tables are used: the propositions, the words of a row that are in use where it has one for each of them and where it has one for each effect, all start states, and whether effects are paired row by row.
#[derive(Clone, Copy)]
pub struct Frame {
    pub props: usize,
    pub width: usize,
    pub span: usize,
    pub all: u64,
    pub many: bool,
}
