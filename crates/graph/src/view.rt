// The problem file through a view: its bytes and its counts. There is a view of a file that was taken only, so that who reads through one checks nothing.
ghost use Rattle.std.specs.Prelude.{◌≡◌};
ghost use Rattle.graph.specs.File.{Taken};

use crate::format::Counts;

#[derive(Clone, Copy)]
pub struct View<'a> {
    pub bytes: &'a [u8],
    pub counts: Counts,
    pub ghost taken: { Taken bytes.now counts },
}

impl<'a> View<'a> {
    pub(crate) fn new(bytes: &'a [u8], counts: Counts) -> View<'a>
        requires { Taken bytes.now counts }
        ensures { (result.bytes ≡ bytes.entry) × (result.counts ≡ counts) }
    {
        View { bytes, counts }
    }
}
