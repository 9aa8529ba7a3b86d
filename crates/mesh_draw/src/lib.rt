// The points and faces of a mesh, put into the tables of a pattern.
#![tactic(auto)]

ghost use Rattle.std.specs.Prelude.{◌≡◌, List, [], ◌++◌, ◌∷◌, ◌%◌, ◌+◌, ◌<◌, ℕ, eqb, Float};
ghost use Rattle.lists.specs.Lists.{pick};
ghost use Rattle.mesh.specs.Mesh.{Mesh, between, side_use, with_point, with_side};
ghost use Rattle.mesh_draw.specs.Kept.{Kept, with_edges, with_wire};
ghost use Rattle.store.specs.Store.{edge_in, held};

use edge::{Curve, Edge};
use mesh_edges::{Index, find_edge, note_edge};
use store::{
    Spans, Tables, edge_in, store_edge, store_label, store_uses, store_wires, tables_known,
};
use vertex::VertexID;
use words::saturated;

// How far the tables are filled: points, edges, uses, those of them before the face that is being read, faces. One more than
// its limit says that a limit is passed; points are counted on to 999,999,999, since any of them can be named.
#[derive(Clone, Copy)]
pub struct Filled {
    pub points: usize,
    pub edges: usize,
    pub uses: usize,
    pub begun: usize,
    pub faces: usize,
}

// The tables of an empty mesh.
pub fn no_mesh() -> Filled
    ensures { (result.points ≡ 0) × (result.edges ≡ 0) × (result.uses ≡ 0) × (result.begun ≡ 0) × (result.faces ≡ 0) }
{
    Filled {
        points: 0,
        edges: 0,
        uses: 0,
        begun: 0,
        faces: 0,
    }
}

// Adds a point.
pub fn add_point(mut f: Filled, label: u32, t: &mut Tables) -> Filled
    ensures { (m : Mesh) (us : List ℕ) (spans : List Float) (index : List ℕ) (n : ℕ) → label ≡ n % 4294967296 → Kept m us f (held t.old spans) index → Kept (with_point m n) us result (held t.new spans) index }
{
    tables_known(t);
    let n = f.points;
    if n < 2048 {
        store_label(t, n, label);
        f.points = n + 1;
        return f;
    }
    if n < 999999999 {
        f.points = n + 1;
    }
    f
}

// Adds a use of an edge.
fn add_use(mut f: Filled, u: u16, t: &mut Tables) -> Filled
    ensures { (m : Mesh) (us : List ℕ) (spans : List Float) (index : List ℕ) → Kept m us f (held t.old spans) index → Kept m (us ++ (u ∷ [])) result (held t.new spans) index }
{
    tables_known(t);
    let n = f.uses;
    if n < 4096 {
        store_uses(t, n, &[u]);
        f.uses = n + 1;
        return f;
    }
    f.uses = 4097;
    f
}

// The edge from p to q as it is made.
fn unit_edge(p: u16, q: u16) -> Edge
    ensures { result ≡ between p q }
{
    Edge::new_unchecked(VertexID(p), VertexID(q), Curve { t0: 0.0, t1: 1.0 })
}

// Adds a use of edge k, as it runs from p on.
fn use_edge(f: Filled, k: usize, p: u16, t: &mut Tables, spans: &Spans) -> Filled
    requires { k < 1024 }
    ensures { (m : Mesh) (us : List ℕ) (index : List ℕ) → Kept m us f (held t.old spans.now) index → Kept m (us ++ (pick (eqb (edge_in t.old spans.now k).front.0 p) k (k + 32768) ∷ [])) result (held t.new spans.now) index }
{
    let d = edge_in(t, spans, k);
    if d.front.0 == p {
        return add_use(f, k as u16, t);
    }
    add_use(f, (k + 32768) as u16, t)
}

// Adds a side from p to q to the face that is being read.
pub fn add_side(
    mut f: Filled,
    p: u16,
    q: u16,
    t: &mut Tables,
    spans: &mut Spans,
    index: &mut Index,
) -> Filled
    ensures { (m : Mesh) (us : List ℕ) → Kept m us f (held t.old spans.old) index.old → Kept (with_edges m (with_side m.edges p q)) (us ++ (side_use m.edges p q ∷ [])) result (held t.new spans.new) index.new }
{
    if f.points > 2048 {
        return f;
    }
    let n = f.edges;
    if n > 1024 {
        return f;
    }
    if let Some(k) = find_edge(t, spans, index, n, p, q) {
        return use_edge(f, k, p, t, spans);
    }
    f.edges = n + 1;
    if n == 1024 {
        return f;
    }
    store_edge(t, spans, n, unit_edge(p, q));
    note_edge(index, n, p, q);
    use_edge(f, n, p, t, spans)
}

// Adds the face that was read.
pub fn add_face(mut f: Filled, t: &mut Tables) -> Filled
    ensures { (m : Mesh) (us : List ℕ) (spans : List Float) (index : List ℕ) → Kept m us f (held t.old spans) index → Kept (with_wire m us) [] result (held t.new spans) index }
{
    tables_known(t);
    let n = f.faces;
    let begun = f.begun;
    let uses = f.uses;
    f.begun = uses;
    if n >= 1024 {
        f.faces = 1025;
        return f;
    }
    f.faces = n + 1;
    if uses < begun {
        return f;
    }
    store_wires(t, n, &[saturated((uses - begun) as u64)]);
    f
}
