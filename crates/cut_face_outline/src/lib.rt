// Cutting an outline by a wire: the places of the wire's ends on it.
#![tactic(auto)]

ghost use Rattle.std.specs.Prelude.{◌≡◌, map, ◌<◌, ◌≤◌, length};
ghost use Rattle.std.proofs.lemmas.List.Edits.{sets};
ghost use Rattle.lists.specs.Lists.{flat};
ghost use Rattle.wire.specs.OfWire.{of_wire};
ghost use Rattle.face_edits.specs.FaceEdits.{first_point, from_place, last_point};
ghost use Rattle.cut_face_outline.specs.Cuts.{cut_along, cut_outline};

use cut_face_results::Cutting;
use edge::EdgeUse;
use edit_answers::FaceEditError;
use vertex::VertexID;
use wire::Wire;
use words::copy_to;

// The vertex that a wire begins at.
fn first_point(wire: &Wire) -> VertexID
    requires { 0 < length wire.now.uses.now }
    ensures { result.0 ≡ of_wire first_point wire.now }
{
    EdgeUse::from_number(wire.uses[0]).front(&wire.ends)
}

// The vertex that it ends at.
fn last_point(wire: &Wire) -> VertexID
    requires { 0 < length wire.now.uses.now }
    ensures { result.0 ≡ of_wire last_point wire.now }
{
    EdgeUse::from_number(wire.uses[wire.uses.len() - 1]).back(&wire.ends)
}

// Writes an outline from place i on, and then its first i uses.
fn rotate_to(outline: &[u16], i: usize, out: &mut [u16])
    requires { (i ≤ length outline.now) × (length outline.now ≤ length out.old) }
    ensures { out.new ≡ sets out.old 0 (from_place i outline.now) }
{
    let n = outline.len();
    copy_to(&outline[i..n], out, 0);
    copy_to(&outline[0..i], out, n - i);
}

// Cuts an outline that begins at the wire's back: 19, 28, 17.
fn cut_along(
    cut: &Cutting,
    uses: &mut [u16],
    lens: &mut [u16],
) -> Result<(usize, usize), FaceEditError>
    requires { 0 < length cut.now.wire.now }
    ensures value { result ≡ (cut_along cut.now.ends.fronts.now cut.now.ends.backs.now cut.now.outline.now cut.now.wire.now (length uses.old) (length lens.old)).answer }
    ensures uses_after { uses.new ≡ sets uses.old 0 (flat (cut_along cut.now.ends.fronts.now cut.now.ends.backs.now cut.now.outline.now cut.now.wire.now (length uses.old) (length lens.old)).out) }
    ensures lens_after { lens.new ≡ sets lens.old 0 (map length (cut_along cut.now.ends.fronts.now cut.now.ends.backs.now cut.now.outline.now cut.now.wire.now (length uses.old) (length lens.old)).out) }
{
    let wire = Wire {
        uses: cut.wire,
        ends: cut.ends,
    };
    let along = Wire {
        uses: cut.outline,
        ends: cut.ends,
    };
    let front = first_point(&wire);
    let Some(j) = along.find_end(front) else {
        return Err(FaceEditError::EndsNotOnWire);
    };
    cut.cut_after(j + 1, uses, lens)
}

// Cuts an outline by a wire: 19, 28, 17.
pub fn cut_outline(
    cut: &Cutting,
    uses: &mut [u16],
    lens: &mut [u16],
) -> Result<(usize, usize), FaceEditError>
    ensures value { result ≡ (cut_outline cut.now.ends.fronts.now cut.now.ends.backs.now cut.now.outline.now cut.now.wire.now (length uses.old) (length lens.old)).answer }
    ensures uses_after { uses.new ≡ sets uses.old 0 (flat (cut_outline cut.now.ends.fronts.now cut.now.ends.backs.now cut.now.outline.now cut.now.wire.now (length uses.old) (length lens.old)).out) }
    ensures lens_after { lens.new ≡ sets lens.old 0 (map length (cut_outline cut.now.ends.fronts.now cut.now.ends.backs.now cut.now.outline.now cut.now.wire.now (length uses.old) (length lens.old)).out) }
{
    let outline = cut.outline;
    let n = outline.len();
    if cut.wire.len() == 0 {
        return Err(FaceEditError::EndsNotOnWire);
    }
    let wire = Wire {
        uses: cut.wire,
        ends: cut.ends,
    };
    // Where a use begins is where it ends with the edges' ends turned.
    let turned = Wire {
        uses: outline,
        ends: cut.ends.turned(),
    };
    let back = last_point(&wire);
    let Some(i) = turned.find_end(back) else {
        return Err(FaceEditError::EndsNotOnWire);
    };
    let mut list = [0u16; 4096];
    rotate_to(outline, i, &mut list);
    let along = Cutting {
        outline: &list[..n],
        wire: cut.wire,
        ends: cut.ends,
    };
    cut_along(&along, uses, lens)
}
