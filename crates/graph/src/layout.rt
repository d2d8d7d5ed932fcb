// Where the words of a graph lie: sizes, strides and places, by the numbers of propositions and vertices.
ghost use Rattle.std.specs.Prelude.{◌≡◌, ◌+◌, ◌*◌, ◌≤◌, ◌<◌};
ghost use Rattle.rules.specs.Layer as L;
ghost use Rattle.graph.specs.Checks.{Small};
ghost use Rattle.graph.specs.Limits.{max_depth, max_vertices, max_layer};

use rules::Shape;

// The number of words of a layer of n elements.
pub fn layer_size(n: usize) -> usize
    requires { n ≤ max_vertices }
    ensures { (result ≡ L.size n) × (result ≤ max_layer) × (n ≤ result) }
{
    n * (n + 1) / 2
}

// From a proposition layer to the next one.
// Kept (point 5): here and below: the definitions of `rules` speak of shapes of any size, so that the bound can't be in the type `Shape`, which they take.
pub fn stride(s: Shape) -> usize
    requires { Small s }
    ensures { (result ≡ L.stride s) × (result ≤ 2 * max_layer) }
{
    layer_size(s.props) + layer_size(s.vertices)
}

// Where proposition layer t begins.
pub fn layer_start(s: Shape, t: usize) -> usize
    requires { Small s × (t ≤ max_depth) }
    ensures { (result ≡ t * L.stride s) × (result ≤ max_depth * (2 * max_layer)) }
{
    t * stride(s)
}

// The number of words of a graph: all layers before the last, and the last.
pub fn word_count(s: Shape, depth: usize) -> usize
    requires { Small s × (depth ≤ max_depth) }
    ensures { result ≡ L.word_count s depth }
{
    layer_start(s, depth) + layer_size(s.props)
}

// Where the mutex word of the pair i < j lies in a layer of n elements.
pub fn pair_at(n: usize, i: usize, j: usize) -> usize
    requires { (i < j) × (j < n) × (n ≤ max_vertices) }
    ensures { (result ≡ L.pair_at n i j) × (result < L.size n) }
{
    n * (n + 1) / 2 - (n - i) * (n - i - 1) / 2 + (j - i - 1)
}
