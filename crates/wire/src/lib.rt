// The wire (the Rust's wire.rs).
#![tactic(auto)]

ghost use Rattle.std.specs.Prelude.{◌≡◌};
ghost use Rattle.wire.specs.Named.{Named};
ghost use Rattle.wire.specs.Wires.{find_from, outline_of};

mod checks;

pub use checks::{Marks, stamp_points};
use edge::{EdgeID, Ends};

// The place of the first use of an edge.
pub fn find_use(uses: &[u16], e: EdgeID) -> Option<usize>
    ensures { result ≡ find_from 0 e.0 uses.now }
{
    // The form that document 01 names: a loop that yields the place by `break`, or nothing.
    let mut i: usize = 0;
    loop {
        if i >= uses.len() {
            break None;
        }
        if uses[i] % 32768 == e.0 {
            break Some(i);
        }
        i += 1;
    }
}

// The part of the use list that begins at `start`: the outline of a wire.
pub fn outline<'a>(uses: &'a [u16], start: usize, n: usize) -> &'a [u16]
    ensures { result.now ≡ outline_of uses.now start n }
{
    if start <= uses.len() {
        if n <= uses.len() - start {
            return &uses[start..start + n];
        }
    }
    &uses[0..0]
}

// Uses of edges, with the ends of all edges: each use names an edge, and begins at one of 2,048 points. A
// wire, or the wires of a face or of a pattern in sequence.
#[derive(Clone, Copy)]
pub struct Wire<'a> {
    pub uses: &'a [u16],
    pub ends: Ends<'a>,
    ghost named: { Named ends.fronts.now ends.backs.now uses.now },
}

impl<'a> Wire<'a> {
    // The part of n uses that begins at `start`.
    pub fn part(&self, start: usize, n: usize) -> Wire<'a>
        ensures uses { result.uses.now ≡ outline_of self.now.uses.now start n }
        ensures ends { result.ends ≡ self.now.ends }
    {
        Wire {
            uses: outline(self.uses, start, n),
            ends: self.ends,
        }
    }
}
