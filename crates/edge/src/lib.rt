// The edge, its curve, and the use of an edge (the Rust's edge.rs).
#![tactic(auto)]

ghost use Rattle.std.specs.Prelude.{◌≡◌, ◌<◌, length};
ghost use Rattle.edge.specs.Edges.{in_range, is_span, edge};
ghost use Rattle.edge.specs.Uses.{edge_number, use_of, front, back};
ghost use Rattle.edge.specs.OfEnds.{HasEdge, back_in, front_in};

use vertex::VertexID;

// The number of an edge is its identity.
#[derive(Clone, Copy)]
pub struct EdgeID(pub u16);

// The curve of an edge: its two parameter ends.
#[repr(C)]
#[derive(Clone, Copy)]
pub struct Curve {
    pub t0: f64,
    pub t1: f64,
}

#[repr(C)]
#[derive(Clone, Copy)]
pub struct Edge {
    pub front: VertexID,
    pub back: VertexID,
    pub curve: Curve,
}

// A use of an edge: the Rust's Edge with its orientation, which is a yes or no there too.
#[derive(Clone, Copy)]
pub struct EdgeUse {
    pub edge: EdgeID,
    pub reversed: bool,
}

fn in_range(t: f64) -> bool
    ensures { result ≡ in_range t }
{
    if -1000000.0 <= t {
        return t <= 1000000.0;
    }
    false
}

impl Curve {
    // Whether the ends are a span: in range, and t0 below t1.
    pub fn is_span(self) -> bool
        ensures { result ≡ is_span self }
    {
        if in_range(self.t0) {
            if in_range(self.t1) {
                return self.t0 < self.t1;
            }
        }
        false
    }
}

impl Edge {
    // The one place where an edge is made. Nothing is checked.
    pub fn new_unchecked(front: VertexID, back: VertexID, curve: Curve) -> Edge
        ensures { result ≡ edge front back curve }
    {
        Edge { front, back, curve }
    }
}

impl EdgeUse {
    // The use that a number of the file stands for.
    pub fn from_number(u: u16) -> EdgeUse
        ensures { result ≡ use_of u }
    {
        EdgeUse {
            edge: EdgeID(u % 32768),
            reversed: 32768 <= u,
        }
    }

    // The vertex that the use begins at.
    pub fn front(self, ends: &Ends) -> VertexID
        requires { HasEdge ends.now self.edge.0 }
        ensures { result.0 ≡ front ends.now.fronts.now ends.now.backs.now self }
    {
        let e = usize::from(self.edge.0);
        if self.reversed {
            VertexID(ends.backs[e])
        } else {
            VertexID(ends.fronts[e])
        }
    }

    // The vertex that the use ends at.
    pub fn back(self, ends: &Ends) -> VertexID
        requires { HasEdge ends.now self.edge.0 }
        ensures { result.0 ≡ back ends.now.fronts.now ends.now.backs.now self }
    {
        self.front(&ends.turned())
    }
}

// The ends of all edges by edge number: the vertex that each begins at, the vertex that each ends at.
#[derive(Clone, Copy)]
pub struct Ends<'a> {
    pub fronts: &'a [u16],
    pub backs: &'a [u16],
}

impl<'a> Ends<'a> {
    // The ends of the edges turned.
    pub fn turned(&self) -> Ends<'a>
        ensures { (result.fronts.now ≡ self.now.backs.now) × (result.backs.now ≡ self.now.fronts.now) }
    {
        Ends {
            fronts: self.backs,
            backs: self.fronts,
        }
    }

    // The number of the vertex that a use begins at.
    pub fn front_of(&self, u: u16) -> usize
        requires { HasEdge self.now (edge_number u) }
        ensures { result ≡ front_in self.now u }
    {
        usize::from(EdgeUse::from_number(u).front(self).0)
    }

    // The number of the vertex that a use ends at.
    pub fn back_of(&self, u: u16) -> usize
        requires { HasEdge self.now (edge_number u) }
        ensures { result ≡ back_in self.now u }
    {
        self.turned().front_of(u)
    }
}
