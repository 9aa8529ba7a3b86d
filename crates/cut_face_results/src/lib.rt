// The two results of cutting an outline, judged and written.
#![tactic(auto)]

ghost use Rattle.std.specs.Prelude.{◌≡◌, ◌&&◌, [], ◌++◌, ◌∷◌, map, ◌+◌, ◌-◌, ◌*◌, ◌≤◌, drop, length, take};
ghost use Rattle.std.proofs.lemmas.List.Edits.{sets};
ghost use Rattle.lists.specs.Lists.{flat};
ghost use Rattle.wire.specs.OfWire.{of_wire};
ghost use Rattle.face_edits.specs.FaceEdits.{first_of, second_of};
ghost use Rattle.cut_face_results.specs.Results.{cut_after, cut_two, keeps, PointEnds};
ghost use Rattle.edge.specs.Below.{EdgesBelow};

use edge::Ends;
use edit_answers::FaceEditError;
use listing::put_turned;
use wire::{Marks, Wire};
use words::copy_to;

// Writes the two results one after the other: the outline's first k uses and the wire, the rest and
// the wire turned.
fn put_two(along: &[u16], k: usize, wire: &[u16], out: &mut [u16])
    requires { (k ≤ length along.now) × (length wire.now ≤ 2048) × (length along.now + 2 * length wire.now ≤ length out.old) }
    ensures { out.new ≡ sets out.old 0 (first_of along.now k wire.now ++ second_of along.now k wire.now) }
{
    let n = along.len();
    let m = wire.len();
    let part = &along[0..k];
    let rest = &along[k..n];
    let next = k + m;
    let last = n + m;
    copy_to(part, out, 0);
    copy_to(wire, out, k);
    copy_to(rest, out, next);
    put_turned(out, last, wire);
}

// Whether two wires each keep the face rule.
fn keep_rule(first: &Wire, second: &Wire) -> bool
    ensures { result ≡ (of_wire keeps first.now && of_wire keeps second.now) }
{
    let mut marks = Marks::new();
    first.check(&mut marks).is_ok() && second.check(&mut marks).is_ok()
}

// Writes the two results, if they keep the face rule (28) and there is room (17).
fn write_two(
    first: &Wire,
    second: &Wire,
    uses: &mut [u16],
    lens: &mut [u16],
) -> Result<(usize, usize), FaceEditError>
    requires same_ends { second.now.ends ≡ first.now.ends }
    requires few { length first.now.uses.now + length second.now.uses.now ≤ 8192 }
    ensures value { result ≡ (cut_two first.now.ends.fronts.now first.now.ends.backs.now first.now.uses.now second.now.uses.now (length uses.old) (length lens.old)).answer }
    ensures uses_after { uses.new ≡ sets uses.old 0 (flat (cut_two first.now.ends.fronts.now first.now.ends.backs.now first.now.uses.now second.now.uses.now (length uses.old) (length lens.old)).out) }
    ensures lens_after { lens.new ≡ sets lens.old 0 (map length (cut_two first.now.ends.fronts.now first.now.ends.backs.now first.now.uses.now second.now.uses.now (length uses.old) (length lens.old)).out) }
{
    if !keep_rule(first, second) {
        return Err(FaceEditError::FaceRule);
    }
    let n = first.uses.len();
    let m = second.uses.len();
    if uses.len() < n + m {
        return Err(FaceEditError::NoSpace);
    }
    if lens.len() < 2 {
        return Err(FaceEditError::NoSpace);
    }
    copy_to(first.uses, uses, 0);
    copy_to(second.uses, uses, n);
    lens[0] = n as u16;
    lens[1] = m as u16;
    Ok((n + m, 2))
}

// An outline, and a wire to cut it by, with the ends of all edges: each use names an edge, and each end
// is one of 2,048 points.
#[derive(Clone, Copy)]
pub struct Cutting<'a> {
    pub outline: &'a [u16],
    pub wire: &'a [u16],
    pub ends: Ends<'a>,
    ghost few: { length outline.now ≤ 4096 },
    ghost point_ends: { PointEnds ends.fronts.now ends.backs.now },
    ghost outline_edges: { EdgesBelow (length ends.fronts.now) outline.now },
    ghost wire_edges: { EdgesBelow (length ends.fronts.now) wire.now },
}

impl<'a> Cutting<'a> {
    // Cuts an outline that begins at the wire's back and comes to its front after k uses: 28, 17. A wire
    // of more than 2,048 uses meets a point twice.
    pub fn cut_after(
        &self,
        k: usize,
        uses: &mut [u16],
        lens: &mut [u16],
    ) -> Result<(usize, usize), FaceEditError>
        requires { k ≤ length self.now.outline.now }
        ensures value { result ≡ (cut_after self.now.ends.fronts.now self.now.ends.backs.now self.now.outline.now k self.now.wire.now (length uses.old) (length lens.old)).answer }
        ensures uses_after { uses.new ≡ sets uses.old 0 (flat (cut_after self.now.ends.fronts.now self.now.ends.backs.now self.now.outline.now k self.now.wire.now (length uses.old) (length lens.old)).out) }
        ensures lens_after { lens.new ≡ sets lens.old 0 (map length (cut_after self.now.ends.fronts.now self.now.ends.backs.now self.now.outline.now k self.now.wire.now (length uses.old) (length lens.old)).out) }
    {
        let m = self.wire.len();
        if m > 2048 {
            return Err(FaceEditError::FaceRule);
        }
        let mut both = [0u16; 8192];
        put_two(self.outline, k, self.wire, &mut both);
        let n = k + m;
        let all = self.outline.len() + 2 * m;
        let first = Wire {
            uses: &both[..n],
            ends: self.ends,
        };
        let second = Wire {
            uses: &both[n..all],
            ends: self.ends,
        };
        write_two(&first, &second, uses, lens)
    }
}
