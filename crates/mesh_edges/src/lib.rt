// The edges of a mesh, found by their two points.
#![tactic(auto)]

ghost use Rattle.std.specs.Prelude.{◌≡◌, List, [], ◌++◌, ◌∷◌, ◌<◌, ◌≤◌, IfSome, length, replicate, take};
ghost use Rattle.edge.specs.declared.Edge.{Edge};
ghost use Rattle.mesh.specs.Mesh.{between, joins, place};
ghost use Rattle.store.specs.Store.{held};
ghost use Rattle.mesh_edges.specs.Index.{Indexed, bucket_of, found};

use edge::Edge;
use store::{Spans, Tables, edge_in};

// An index of edges. For each bucket of pairs of points: one more than its latest edge, 0 where there is none. Then
// for each edge one more than the latest before it in its bucket, 0 where there is none.
pub const INDEX: usize = 17408;

pub type Index = [u16; INDEX];

// Where the part for each edge begins.
const EARLIER: usize = 16384;

// The length of the array, which a reference to an array does not tell by itself.
fn index_known(index: &Index) -> usize
    ensures { length index.now ≡ 17408 }
{
    let s: &[u16] = index;
    s.len()
}

// The bucket of a pair of points, in either sequence: those with the same lower point whose higher points are
// alike modulo 8. So a bucket has at most 256 pairs.
fn bucket(p: u16, q: u16) -> usize
    ensures { (result ≡ bucket_of p q) × (result < 16384) }
{
    usize::from(p.min(q) % 2048) * 8 + usize::from(p.max(q) % 8)
}

// Whether an edge joins two points, one way or the other.
fn is_between(e: Edge, p: u16, q: u16) -> bool
    ensures { result ≡ joins p q e }
{
    (e.front.0 == p && e.back.0 == q) || (e.front.0 == q && e.back.0 == p)
}

// An index of no edges.
pub fn clear_index(index: &mut Index)
    ensures { index.new ≡ replicate 17408 0 }
{
    index_known(index);
    index.fill(0);
}

// The edge between two points among the first n. Any content of the index is taken to an answer.
pub fn find_edge(
    t: &Tables,
    spans: &Spans,
    index: &Index,
    n: usize,
    p: u16,
    q: u16,
) -> Option<usize>
    requires { n ≤ 1024 }
    ensures upper_bound { IfSome result (λ e. e < n) }
    ensures value { Indexed (take n (held t.now spans.now).edges) index.now → result ≡ found (joins p q) (take n (held t.now spans.now).edges) }
{
    index_known(index);
    let mut c = usize::from(index[bucket(p, q)]);
    // No `for`: it follows a chain of the index, to its end.
    while c > 0 {
        let e = c - 1;
        if e >= n {
            return None;
        }
        if is_between(edge_in(t, spans, e), p, q) {
            return Some(e);
        }
        c = usize::from(index[EARLIER + e]);
        if c > e {
            return None;
        }
    }
    None
}

// Edge n is made between two points that no edge joins yet.
pub fn note_edge(index: &mut Index, n: usize, p: u16, q: u16)
    requires { n < 1024 }
    ensures { (es : List Edge) → length es ≡ n → place (joins p q) es ≡ n → Indexed es index.old → Indexed (es ++ (between p q ∷ [])) index.new }
{
    index_known(index);
    let h = bucket(p, q);
    index[EARLIER + n] = index[h];
    index[h] = (n + 1) as u16;
}
