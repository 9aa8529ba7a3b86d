// The uses of two faces, kept in an array and met one after the other; the outlines that they leave,
// chained. The kept uses are a slice with a place for each point, 65535 where none is kept.
#![tactic(auto)]

ghost use Rattle.std.specs.Prelude.{◌≡◌, ◌&&◌, false, not, ◌<◌, eqb, get_or, length, None};
ghost use Rattle.edge.specs.Uses.{edge_number};
ghost use Rattle.edge.specs.OfEnds.{back_in, front_in, HasEdge};
ghost use Rattle.face_edits.specs.FaceEdits.{chained, meet, meet_all};
ghost use Rattle.lists.specs.Lists.{numbers};
ghost use Rattle.openings.specs.Slots.{Holding, slots};
ghost use Rattle.pattern.specs.Contents.{Content};
ghost use Rattle.shell.specs.Openings.{back_in as back_point, keep};
ghost use Rattle.glue_walk.specs.Walks.{Columns, EndColumns, Fits, kept_chained, kept_met, Laid, met_as, nothing, outline_at, Room, PartFits};

use edge::Ends;
use openings::{follow_from, keep_at};

// How many uses and how many wires have been written.
#[derive(Clone, Copy)]
pub struct Chained {
    pub uses: usize,
    pub wires: usize,
}

// Keeps the uses of the part, each at its front, in sequence.
pub fn keep_face(kept: &mut [u16], part: &[u16], ends: &Ends)
    requires part_fits { PartFits ends.now.fronts.now ends.now.backs.now (length kept.old) part.now }
    requires holding { Holding ends.now.fronts.now ends.now.backs.now kept.old }
    ensures kept_after { slots kept.new ≡ keep (front_in ends.now) (back_in ends.now) part.now (slots kept.old) }
    ensures holding_2 { Holding ends.now.fronts.now ends.now.backs.now kept.new }
{
    for u in part {
        let p = ends.front_of(*u);
        keep_at(kept, p, *u);
    }
}

// Whether v is a use, not 65535, and ends at point a.
fn ends_at(v: u16, a: usize, ends: &Ends) -> bool
    requires { (v ≡ 65535 → ⊥) → HasEdge ends.now (edge_number v) }
    ensures { result ≡ (not (eqb v 65535) && eqb (back_in ends.now v) a) }
{
    if v == 65535 {
        return false;
    }
    ends.back_of(v) == a
}

// One use of the second face. If one kept at its back ends at its front, both go when the edge is
// the same, else false; otherwise the use is kept at its front.
fn meet_use(kept: &mut [u16], u: u16, ends: &Ends) -> bool
    requires end_columns { EndColumns ends.now.fronts.now ends.now.backs.now }
    requires fits { Fits ends.now.fronts.now ends.now.backs.now (length kept.old) u }
    requires holding { Holding ends.now.fronts.now ends.now.backs.now kept.old }
    ensures kept_value { (c : Content) → Columns c ends.now.fronts.now ends.now.backs.now → meet c u (get_or (slots kept.old) (back_point c u) None) (slots kept.old) ≡ met_as result (slots kept.new) }
    ensures holding_2 { Holding ends.now.fronts.now ends.now.backs.now kept.new }
    ensures kept_unchanged { result ≡ false → kept.new ≡ kept.old }
{
    let a = ends.front_of(u);
    let b = ends.back_of(u);
    let v = kept[b];
    if !ends_at(v, a, ends) {
        keep_at(kept, a, u);
        return true;
    }
    if u % 32768 != v % 32768 {
        return false;
    }
    kept[b] = 65535;
    true
}

// The uses of the second face, in sequence; false at the first that cannot be met, which changes
// nothing.
pub fn meet_all(kept: &mut [u16], part: &[u16], ends: &Ends) -> bool
    requires part_fits { PartFits ends.now.fronts.now ends.now.backs.now (length kept.old) part.now }
    requires holding { Holding ends.now.fronts.now ends.now.backs.now kept.old }
    ensures kept_value { (c : Content) → Columns c ends.now.fronts.now ends.now.backs.now → meet_all c part.now (slots kept.old) ≡ met_as result (slots kept.new) }
    ensures holding_2 { Holding ends.now.fronts.now ends.now.backs.now kept.new }
    ensures kept_after { (c : Content) → Columns c ends.now.fronts.now ends.now.backs.now → slots kept.new ≡ kept_met c part.now (slots kept.old) }
{
    for u in part {
        if !meet_use(kept, *u, ends) {
            return false;
        }
    }
    true
}

// The outline from point q, if a use is kept there.
fn chain_at(
    kept: &mut [u16],
    q: usize,
    ends: &Ends,
    out: &mut [u16],
    lens: &mut [u16],
    w: Chained,
) -> Chained
    requires q_in_bounds { q < length kept.old }
    requires room { Room ends.now.fronts.now ends.now.backs.now kept.old out.old lens.old w }
    ensures laid { Laid (outline_at (front_in ends.now) (back_in ends.now) (get_or (slots kept.old) q None) q (slots kept.old)).wires out.old lens.old w out.new lens.new result }
    ensures kept_after { slots kept.new ≡ (outline_at (front_in ends.now) (back_in ends.now) (get_or (slots kept.old) q None) q (slots kept.old)).kept }
    ensures room_2 { Room ends.now.fronts.now ends.now.backs.now kept.new out.new lens.new result }
{
    if kept[q] == 65535 {
        return w;
    }
    let at = w.uses;
    let k = w.wires;
    let s = follow_from(kept, q, ends, out, at, 0);
    let end = s.at;
    lens[k] = (end - at) as u16;
    Chained {
        uses: end,
        wires: k + 1,
    }
}

// What is kept, chained: each outline from the lowest point left. The uses are written to `out`,
// the lengths of the outlines to `lens`.
pub fn chain_all(kept: &mut [u16], ends: &Ends, out: &mut [u16], lens: &mut [u16]) -> Chained
    requires { Room ends.now.fronts.now ends.now.backs.now kept.old out.old lens.old nothing }
    ensures laid { (c : Content) → Columns c ends.now.fronts.now ends.now.backs.now → Laid (chained c (numbers (length kept.old)) (slots kept.old)) out.old lens.old nothing out.new lens.new result }
    ensures room { Room ends.now.fronts.now ends.now.backs.now kept.new out.new lens.new result }
    ensures kept_after { (c : Content) → Columns c ends.now.fronts.now ends.now.backs.now → slots kept.new ≡ kept_chained c (numbers (length kept.old)) (slots kept.old) }
{
    let mut w = Chained { uses: 0, wires: 0 };
    for q in 0..kept.len() {
        w = chain_at(kept, q, ends, out, lens, w);
    }
    w
}
