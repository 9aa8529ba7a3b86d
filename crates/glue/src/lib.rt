// Two faces of a pattern glued along the edges that they share (glue_at_boundaries).
#![tactic(auto)]

ghost use Rattle.std.specs.Prelude.{◌≡◌, map, length};
ghost use Rattle.std.proofs.lemmas.List.Edits.{sets};
ghost use Rattle.lists.specs.Lists.{flat};
ghost use Rattle.store.specs.Store.{held};
ghost use Rattle.face_edits.specs.FaceAnswers.{glue_answer, glue_out};

use edit_answers::FaceEditError;
use errors::CallError;
use face_parts::face_wires;
use glue_wires::glue_parts;
use store::{Spans, Tables, counts_in, face_in, lists_in, tables_known};
use store_check::check;

// Glues two faces, each given with a sign, along the edges that they share: the wires that stay are
// written to `uses`, their lengths to `lens`. After the reading checks: 3, 20, 21, 22, 28, 17.
pub fn glue_at_boundaries(
    t: &Tables,
    spans: &Spans,
    f: u16,
    g: u16,
    uses: &mut [u16],
    lens: &mut [u16],
) -> Result<(usize, usize), CallError<FaceEditError>>
    ensures value { result ≡ glue_answer (held t.now spans.now) f g (length uses.old) (length lens.old) }
    ensures uses_after { uses.new ≡ sets uses.old 0 (flat (glue_out (held t.now spans.now) f g (length uses.old) (length lens.old))) }
    ensures lens_after { lens.new ≡ sets lens.old 0 (map length (glue_out (held t.now spans.now) f g (length uses.old) (length lens.old))) }
{
    tables_known(t);
    check(t, spans)?;
    let lists = lists_in(t);
    let i = usize::from(f % 32768);
    let j = usize::from(g % 32768);
    if i >= lists.faces.len() {
        return Err(CallError::Refused(FaceEditError::Unnamed));
    }
    if j >= lists.faces.len() {
        return Err(CallError::Refused(FaceEditError::Unnamed));
    }
    let a = face_in(t, i);
    let b = face_in(t, j);
    if a.surface != b.surface {
        return Err(CallError::Refused(FaceEditError::FacesDiffer));
    }
    if f / 32768 != g / 32768 {
        return Err(CallError::Refused(FaceEditError::FacesDiffer));
    }
    let first = face_wires(&lists, i);
    let second = face_wires(&lists, j);
    let points = counts_in(t)[0];
    glue_parts(points, first.uses, second.uses, &lists.ends, uses, lens).map_err(CallError::Refused)
}
