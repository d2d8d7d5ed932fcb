// A run that has passed its checks.
ghost use Rattle.run.specs.Course.{Some, Known};

use graph::view::View;
use words::sets::States;

// The file, some of its states, and actions of it to carry out.
#[derive(Clone, Copy)]
pub struct Task<'a> {
    pub file: View<'a>,
    pub set: States,
    pub list: &'a [u8],
    pub ghost some: { Some file.counts.states set.0 },
    pub ghost known: { Known file.counts.actions list.now },
}
