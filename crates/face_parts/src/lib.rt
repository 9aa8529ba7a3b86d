// The wires of a face among the lists of a pattern; whether uses name edges.
#![tactic(auto)]

ghost use Rattle.std.specs.Prelude.{◌≡◌, ◌+◌, ◌<◌, ◌≤◌, get_or, length, take};
ghost use Rattle.lists.specs.Lists.{sum};
ghost use Rattle.face_edits.specs.FaceEdits.{name_edges};
ghost use Rattle.face_parts.specs.Parts.{lengths_at, uses_at};

use pattern::Lists;
use words::sum_of;

// The wires of a face: their uses, one after the other, and their lengths.
#[derive(Clone, Copy)]
pub struct FaceWires<'a> {
    pub uses: &'a [u16],
    pub lengths: &'a [u16],
}

// The wires of face f.
pub fn face_wires<'a>(lists: &Lists<'a>, f: usize) -> FaceWires<'a>
    requires f_in_bounds { f < length lists.now.faces.now }
    requires few { (length lists.now.faces.now ≤ 256) × (length lists.now.wires.now ≤ 1024) }
    requires wires_inside { sum (take f lists.now.faces.now) + get_or lists.now.faces.now f 0 ≤ length lists.now.wires.now }
    requires uses_inside { sum (take (sum (take f lists.now.faces.now)) lists.now.wires.now) + sum (lengths_at lists.now.faces.now f lists.now.wires.now) ≤ length lists.now.uses.now }
    ensures uses { result.uses.now ≡ uses_at lists.now.faces.now lists.now.wires.now f lists.now.uses.now }
    ensures lengths { result.lengths.now ≡ lengths_at lists.now.faces.now f lists.now.wires.now }
{
    let first = sum_of(&lists.faces[..f]);
    let n = usize::from(lists.faces[f]);
    let lengths = &lists.wires[first..first + n];
    let at = sum_of(&lists.wires[..first]);
    let total = sum_of(lengths);
    FaceWires {
        uses: &lists.uses[at..at + total],
        lengths,
    }
}

// Whether each use names an edge.
pub fn are_uses(wire: &[u16], edges: usize) -> bool
    ensures { result ≡ name_edges wire.now edges }
{
    wire.iter().all(|u| usize::from(*u % 32768) < edges)
}
