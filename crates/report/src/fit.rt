// The greatest depth that fits a memory, by a division.
ghost use Rattle.std.specs.Prelude.{◌≡◌, ◌≤◌};
ghost use Rattle.rules.specs.Layer.{word_count};
ghost use Rattle.graph.specs.Checks.{Small};
ghost use Rattle.graph.specs.Limits.{max_depth};
ghost use Rattle.report.specs.Depth.{depth_for};

use graph::layout::{stride, word_count};
use graph::limits::MAX_DEPTH;
use rules::Shape;

// Behind layer 0 each further depth takes an action layer and a proposition layer.
pub fn depth_for(shape: Shape, room: usize) -> usize
    requires { Small shape × (1 ≤ shape.props) × (word_count shape 0 ≤ room) }
    ensures { (result ≡ depth_for shape room) × (result ≤ max_depth) × (word_count shape result ≤ room) }
{
    let most = (room - word_count(shape, 0)) / stride(shape);
    if MAX_DEPTH < most {
        return MAX_DEPTH;
    }
    most
}
