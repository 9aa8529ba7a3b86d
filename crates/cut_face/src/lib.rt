// Cutting a face (the Rust's face.rs, `Face::cut_by_wire`, `cut_by_edge`).
#![tactic(auto)]

ghost use Rattle.std.specs.Prelude.{◌≡◌, [], ◌∷◌, map, length};
ghost use Rattle.std.proofs.lemmas.List.Edits.{sets};
ghost use Rattle.lists.specs.Lists.{flat};
ghost use Rattle.store.specs.Store.{held};
ghost use Rattle.face_edits.specs.FaceAnswers.{cut_face_answer, cut_face_out};

use cut_face_outline::cut_outline;
use cut_face_results::Cutting;
use edit_answers::FaceEditError;
use errors::CallError;
use face_parts::{are_uses, face_wires};
use store::{Spans, Tables, lists_in, tables_known};
use store_check::check;

// Cuts a face by a wire: 3, 18, 19, 28, 17 after the reading checks. The face is given as a listing;
// its sign changes nothing. Writes the two results and their lengths, or, refused, nothing.
pub fn cut_by_wire(
    t: &Tables,
    spans: &Spans,
    f: u16,
    wire: &[u16],
    uses: &mut [u16],
    lens: &mut [u16],
) -> Result<(usize, usize), CallError<FaceEditError>>
    ensures value { result ≡ cut_face_answer (held t.now spans.now) f wire.now (length uses.old) (length lens.old) }
    ensures uses_after { uses.new ≡ sets uses.old 0 (flat (cut_face_out (held t.now spans.now) f wire.now (length uses.old) (length lens.old))) }
    ensures lens_after { lens.new ≡ sets lens.old 0 (map length (cut_face_out (held t.now spans.now) f wire.now (length uses.old) (length lens.old))) }
{
    tables_known(t);
    check(t, spans)?;
    let lists = lists_in(t);
    let face = usize::from(f % 32768);
    if face >= lists.faces.len() {
        return Err(CallError::Refused(FaceEditError::Unnamed));
    }
    if !are_uses(wire, lists.ends.fronts.len()) {
        return Err(CallError::Refused(FaceEditError::Unnamed));
    }
    let part = face_wires(&lists, face);
    if part.lengths.len() != 1 {
        return Err(CallError::Refused(FaceEditError::NotOneWire));
    }
    let cut = Cutting {
        outline: part.uses,
        wire,
        ends: lists.ends,
    };
    cut_outline(&cut, uses, lens).map_err(CallError::Refused)
}

// The same by one use.
pub fn cut_by_edge(
    t: &Tables,
    spans: &Spans,
    f: u16,
    u: u16,
    uses: &mut [u16],
    lens: &mut [u16],
) -> Result<(usize, usize), CallError<FaceEditError>>
    ensures value { result ≡ cut_face_answer (held t.now spans.now) f (u ∷ []) (length uses.old) (length lens.old) }
    ensures uses_after { uses.new ≡ sets uses.old 0 (flat (cut_face_out (held t.now spans.now) f (u ∷ []) (length uses.old) (length lens.old))) }
    ensures lens_after { lens.new ≡ sets lens.old 0 (map length (cut_face_out (held t.now spans.now) f (u ∷ []) (length uses.old) (length lens.old))) }
{
    let wire = [u];
    cut_by_wire(t, spans, f, &wire, uses, lens)
}
