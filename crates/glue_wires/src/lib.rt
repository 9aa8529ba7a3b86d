// The wires that a glue leaves, judged and written; the uses of two faces glued.
#![tactic(auto)]

ghost use Rattle.std.specs.Prelude.{◌≡◌, not, List, map, ◌≤◌, ℕ, length, replicate};
ghost use Rattle.face_edits.specs.FaceEdits.{chained, glued, keeps_rule, left_faults, meeting, met_faults};
ghost use Rattle.lists.specs.Lists.{flat, numbers, split, sum};
ghost use Rattle.openings.specs.Slots.{Holding, slots};
ghost use Rattle.pattern.specs.Contents.{Content};
ghost use Rattle.glue_walk.specs.Walks.{Columns, EndColumns, PartFits};
ghost use Rattle.glue_wires.specs.Glues.{EachFits, Shown, Wrote};

use edge::Ends;
use edit_answers::FaceEditError;
use face::check_faces;
use glue_walk::{chain_all, keep_face, meet_all};
use wire::Wire;
use words::copy_to;

// Whether the wires break the face rule. They have these lengths and stand in `out` in sequence.
fn breaks_rule(out: &Wire, parts: &[u16]) -> bool
    requires { (sum parts.now ≡ length out.now.uses.now) × (length parts.now ≤ 2048) }
    ensures { result ≡ not (keeps_rule out.now.ends.fronts.now out.now.ends.backs.now (split parts.now out.now.uses.now)) }
{
    check_faces(out, parts, &[parts.len() as u16]).is_err()
}

// The wires judged and written: 22, 28, 17. They have these lengths and stand in `out` in sequence.
fn judge_wires(
    out: &Wire,
    parts: &[u16],
    uses: &mut [u16],
    lens: &mut [u16],
) -> Result<(usize, usize), FaceEditError>
    requires { (sum parts.now ≡ length out.now.uses.now) × (length parts.now ≤ 2048) }
    ensures { (c : Content) (ws : List (List ℕ)) → Columns c out.now.ends.fronts.now out.now.ends.backs.now → flat ws ≡ out.now.uses.now → map length ws ≡ parts.now → Wrote (left_faults c ws (length uses.old) (length lens.old)) ws uses.old lens.old uses.new lens.new result }
{
    let n = out.uses.len();
    if parts.len() == 0 {
        return Err(FaceEditError::NothingRemains);
    }
    if breaks_rule(out, parts) {
        return Err(FaceEditError::FaceRule);
    }
    if uses.len() < n {
        return Err(FaceEditError::NoSpace);
    }
    if lens.len() < parts.len() {
        return Err(FaceEditError::NoSpace);
    }
    copy_to(out.uses, uses, 0);
    copy_to(parts, lens, 0);
    Ok((n, parts.len()))
}

// What is kept, chained, judged and written.
fn write_kept(
    kept: &mut [u16],
    ends: &Ends,
    uses: &mut [u16],
    lens: &mut [u16],
) -> Result<(usize, usize), FaceEditError>
    requires end_columns { EndColumns ends.now.fronts.now ends.now.backs.now }
    requires holding { Holding ends.now.fronts.now ends.now.backs.now kept.old }
    requires kept_len_bound { length kept.old ≤ 2048 }
    requires each_fits { EachFits ends.now.fronts.now ends.now.backs.now (length kept.old) (slots kept.old) }
    ensures { (c : Content) → Columns c ends.now.fronts.now ends.now.backs.now → Wrote (left_faults c (chained c (numbers (length kept.old)) (slots kept.old)) (length uses.old) (length lens.old)) (chained c (numbers (length kept.old)) (slots kept.old)) uses.old lens.old uses.new lens.new result }
{
    let mut out = [0u16; 2048];
    let mut parts = [0u16; 2048];
    let w = chain_all(kept, ends, &mut out, &mut parts);
    let wires = Wire {
        uses: &out[..w.uses],
        ends: *ends,
    };
    judge_wires(&wires, &parts[..w.wires], uses, lens)
}

// The uses of two faces glued: 21, 22, 28, 17. Nothing is kept at first.
fn glue_kept(
    kept: &mut [u16],
    first: &[u16],
    second: &[u16],
    ends: &Ends,
    uses: &mut [u16],
    lens: &mut [u16],
) -> Result<(usize, usize), FaceEditError>
    requires part_fits { PartFits ends.now.fronts.now ends.now.backs.now (length kept.old) first.now }
    requires part_fits_2 { PartFits ends.now.fronts.now ends.now.backs.now (length kept.old) second.now }
    requires kept_value { (kept.old ≡ replicate (length kept.old) 65535) × (length kept.old ≤ 2048) }
    ensures { (c : Content) (f g : ℕ) → Shown c f g ends.now.fronts.now ends.now.backs.now first.now second.now (length kept.old) → Wrote (met_faults c (meeting c f g) (length uses.old) (length lens.old)) (glued c f g) uses.old lens.old uses.new lens.new result }
{
    keep_face(kept, first, ends);
    if !meet_all(kept, second, ends) {
        return Err(FaceEditError::OppositeEdges);
    }
    write_kept(kept, ends, uses, lens)
}

// The same, where there are so many points.
pub fn glue_parts(
    points: usize,
    first: &[u16],
    second: &[u16],
    ends: &Ends,
    uses: &mut [u16],
    lens: &mut [u16],
) -> Result<(usize, usize), FaceEditError>
    requires part_fits { PartFits ends.now.fronts.now ends.now.backs.now points first.now }
    requires part_fits_2 { PartFits ends.now.fronts.now ends.now.backs.now points second.now }
    requires points_bound { points ≤ 2048 }
    ensures { (c : Content) (f g : ℕ) → Shown c f g ends.now.fronts.now ends.now.backs.now first.now second.now points → Wrote (met_faults c (meeting c f g) (length uses.old) (length lens.old)) (glued c f g) uses.old lens.old uses.new lens.new result }
{
    let mut kept = [65535u16; 2048];
    glue_kept(&mut kept[..points], first, second, ends, uses, lens)
}
