// The edits of a face as calls on a pattern file in memory.
#![tactic(auto)]

ghost use Rattle.std.specs.Prelude.{◌≡◌, [], ◌∷◌, map, length};
ghost use Rattle.std.proofs.lemmas.List.Edits.{sets};
ghost use Rattle.lists.specs.Lists.{flat};
ghost use Rattle.file_face_edits.specs.FileFaceEdits.{file_add, file_add_out, file_cut_face, file_cut_face_out, file_glue, file_glue_out};

use add_boundary::try_add_boundary;
use answers::{Answer, on_file};
use cut_face::{cut_by_edge, cut_by_wire};
use glue::glue_at_boundaries;

// Adds a wire to face f.
pub fn file_add(file: &[u8], f: u16, wire: &[u16], uses: &mut [u16], lens: &mut [u16]) -> Answer
    ensures value { result ≡ file_add file.now f wire.now (length uses.old) (length lens.old) }
    ensures uses_after { uses.new ≡ sets uses.old 0 (flat (file_add_out file.now f wire.now (length uses.old) (length lens.old))) }
    ensures lens_after { lens.new ≡ sets lens.old 0 (map length (file_add_out file.now f wire.now (length uses.old) (length lens.old))) }
{
    on_file(
        file,
        &mut |t, spans| try_add_boundary(t, spans, f, wire, uses, lens),
    )
}

// Cuts face f by a wire.
pub fn file_cut_by_wire(
    file: &[u8],
    f: u16,
    wire: &[u16],
    uses: &mut [u16],
    lens: &mut [u16],
) -> Answer
    ensures value { result ≡ file_cut_face file.now f wire.now (length uses.old) (length lens.old) }
    ensures uses_after { uses.new ≡ sets uses.old 0 (flat (file_cut_face_out file.now f wire.now (length uses.old) (length lens.old))) }
    ensures lens_after { lens.new ≡ sets lens.old 0 (map length (file_cut_face_out file.now f wire.now (length uses.old) (length lens.old))) }
{
    on_file(
        file,
        &mut |t, spans| cut_by_wire(t, spans, f, wire, uses, lens),
    )
}

// Cuts face f by one use.
pub fn file_cut_by_edge(file: &[u8], f: u16, u: u16, uses: &mut [u16], lens: &mut [u16]) -> Answer
    ensures value { result ≡ file_cut_face file.now f (u ∷ []) (length uses.old) (length lens.old) }
    ensures uses_after { uses.new ≡ sets uses.old 0 (flat (file_cut_face_out file.now f (u ∷ []) (length uses.old) (length lens.old))) }
    ensures lens_after { lens.new ≡ sets lens.old 0 (map length (file_cut_face_out file.now f (u ∷ []) (length uses.old) (length lens.old))) }
{
    on_file(
        file,
        &mut |t, spans| cut_by_edge(t, spans, f, u, uses, lens),
    )
}

// Glues faces f and g.
pub fn file_glue(file: &[u8], f: u16, g: u16, uses: &mut [u16], lens: &mut [u16]) -> Answer
    ensures value { result ≡ file_glue file.now f g (length uses.old) (length lens.old) }
    ensures uses_after { uses.new ≡ sets uses.old 0 (flat (file_glue_out file.now f g (length uses.old) (length lens.old))) }
    ensures lens_after { lens.new ≡ sets lens.old 0 (map length (file_glue_out file.now f g (length uses.old) (length lens.old))) }
{
    on_file(
        file,
        &mut |t, spans| glue_at_boundaries(t, spans, f, g, uses, lens),
    )
}
