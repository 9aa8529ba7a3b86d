// Adding an outline to a face (the Rust's Face::try_add_boundary). All is judged before anything is
// written.
#![tactic(auto)]

ghost use Rattle.std.specs.Prelude.{◌≡◌, true, [], ◌∷◌, ◌++◌, map, ◌+◌, ◌<◌, ◌≤◌, suc, length};
ghost use Rattle.std.proofs.lemmas.List.Edits.{sets};
ghost use Rattle.lists.specs.Lists.{disjoint, flat, no_dup};
ghost use Rattle.wire.specs.OfWire.{of_wire};
ghost use Rattle.wire.specs.Wires.{points};
ghost use Rattle.store.specs.Store.{held};
ghost use Rattle.face_edits.specs.FaceAnswers.{add_answer, add_out};
ghost use Rattle.add_boundary.specs.Boundary.{boundary_answer, first_of, new_faults, stored_as, written_of};

use edit_answers::FaceEditError;
use errors::CallError;
use face_parts::{are_uses, face_wires};
use listing::put_turned;
use store::{Spans, Tables, lists_in, tables_known};
use store_check::check;
use wire::{Marks, Wire};
use words::copy_to;

// Whether a wire that meets no point twice shares none with other uses.
fn disjoint_from(wire: &Wire, own: &Wire, marks: &mut Marks) -> bool
    requires wire_value { no_dup (of_wire points wire.now) ≡ true }
    requires stamps { marks.old.stamp < 65535 }
    ensures { result ≡ disjoint (of_wire points wire.now) (of_wire points own.now) }
{
    marks.next();
    marks.stamp_points(own);
    !marks.stamp_points(wire)
}

// Judges a wire for a face with the uses `own` and n wires, and lent lists of lengths m and k: 6, 7,
// 8, 9, 17.
fn judge_wire(wire: &Wire, own: &Wire, n: usize, m: usize, k: usize) -> Result<(), FaceEditError>
    requires same_ends { own.now.ends ≡ wire.now.ends }
    requires own_len_bound { (length own.now.uses.now ≤ 4096) × (n ≤ 1024) }
    ensures { result ≡ first_of (new_faults wire.now.ends.fronts.now wire.now.ends.backs.now own.now.uses.now n wire.now.uses.now m k) }
{
    let mut marks = Marks::new();
    if let Err(e) = wire.check(&mut marks) {
        return Err(FaceEditError::Wire(e));
    }
    if !disjoint_from(wire, own, &mut marks) {
        return Err(FaceEditError::NotDisjointWires);
    }
    if own.uses.len() + wire.uses.len() > m {
        return Err(FaceEditError::NoSpace);
    }
    if n + 1 > k {
        return Err(FaceEditError::NoSpace);
    }
    Ok(())
}

// Writes a wire from `at` on, as a face with this sign stores it.
fn put_stored(wire: &[u16], reversed: bool, out: &mut [u16], at: usize)
    requires { at + length wire.now ≤ length out.old }
    ensures { out.new ≡ sets out.old at (stored_as reversed wire.now) }
{
    if reversed {
        put_turned(out, at, wire);
    } else {
        copy_to(wire, out, at);
    }
}

// Writes the uses of a face, then those of the wire.
fn put_boundary(own: &[u16], wire: &[u16], reversed: bool, out: &mut [u16])
    requires { length own.now + length wire.now ≤ length out.old }
    ensures { out.new ≡ sets out.old 0 (own.now ++ stored_as reversed wire.now) }
{
    copy_to(own, out, 0);
    put_stored(wire, reversed, out, own.len());
}

// Writes the wires' lengths of a face, then one more.
fn put_length(sizes: &[u16], n: usize, out: &mut [u16])
    requires { (suc (length sizes.now) ≤ length out.old) × (n < 65536) }
    ensures { out.new ≡ sets out.old 0 (sizes.now ++ (n ∷ [])) }
{
    copy_to(sizes, out, 0);
    out[sizes.len()] = n as u16;
}

// Adds a wire to a face that has the uses `own` and wires of the lengths `sizes`.
fn add_wire(
    wire: &Wire,
    reversed: bool,
    own: &Wire,
    sizes: &[u16],
    uses: &mut [u16],
    lens: &mut [u16],
) -> Result<(usize, usize), FaceEditError>
    requires same_ends { own.now.ends ≡ wire.now.ends }
    requires own_len_bound { (length own.now.uses.now ≤ 4096) × (length sizes.now ≤ 1024) }
    ensures value { result ≡ boundary_answer wire.now.ends.fronts.now wire.now.ends.backs.now own.now.uses.now (length sizes.now) wire.now.uses.now (length uses.old) (length lens.old) }
    ensures uses_after { uses.new ≡ sets uses.old 0 (written_of wire.now.ends.fronts.now wire.now.ends.backs.now own.now.uses.now (length sizes.now) wire.now.uses.now (length uses.old) (length lens.old) (own.now.uses.now ++ stored_as reversed wire.now.uses.now)) }
    ensures lens_after { lens.new ≡ sets lens.old 0 (written_of wire.now.ends.fronts.now wire.now.ends.backs.now own.now.uses.now (length sizes.now) wire.now.uses.now (length uses.old) (length lens.old) (sizes.now ++ (length wire.now.uses.now ∷ []))) }
{
    let n = sizes.len();
    judge_wire(wire, own, n, uses.len(), lens.len())?;
    put_boundary(own.uses, wire.uses, reversed, uses);
    put_length(sizes, wire.uses.len(), lens);
    Ok((own.uses.len() + wire.uses.len(), n + 1))
}

// Writes the wires of face f of a pattern, given with a sign, and one more; refused, it writes
// nothing.
pub fn try_add_boundary(
    t: &Tables,
    spans: &Spans,
    f: u16,
    wire: &[u16],
    uses: &mut [u16],
    lens: &mut [u16],
) -> Result<(usize, usize), CallError<FaceEditError>>
    ensures value { result ≡ add_answer (held t.now spans.now) f wire.now (length uses.old) (length lens.old) }
    ensures uses_after { uses.new ≡ sets uses.old 0 (flat (add_out (held t.now spans.now) f wire.now (length uses.old) (length lens.old))) }
    ensures lens_after { lens.new ≡ sets lens.old 0 (map length (add_out (held t.now spans.now) f wire.now (length uses.old) (length lens.old))) }
{
    tables_known(t);
    check(t, spans)?;
    let lists = lists_in(t);
    let face = usize::from(f % 32768);
    if face >= lists.faces.len() {
        return Err(CallError::Refused(FaceEditError::Unnamed));
    }
    if !are_uses(wire, lists.ends.fronts.len()) {
        return Err(CallError::Refused(FaceEditError::Unnamed));
    }
    let part = face_wires(&lists, face);
    let own = Wire {
        uses: part.uses,
        ends: lists.ends,
    };
    let new = Wire {
        uses: wire,
        ends: lists.ends,
    };
    add_wire(&new, 32768 <= f, &own, part.lengths, uses, lens).map_err(CallError::Refused)
}
