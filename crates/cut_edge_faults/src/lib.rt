// The refusals of cutting an edge. The wires of the shell are flags, one for each wire of the
// pattern.
#![tactic(auto)]

ghost use Rattle.std.specs.Prelude.{◌&&◌, map, ◌≡◌, ◌≤◌, ltb, length};
ghost use Rattle.lists.specs.Lists.{has, pick, split, sum};
ghost use Rattle.edge.specs.Uses.{edge_number};
ghost use Rattle.wire.specs.OfWire.{of_wire};
ghost use Rattle.wire.specs.Wires.{points};
ghost use Rattle.cut_edge_faults.specs.Flags.{cuts_where, uses_where};
ghost use Rattle.cut_edge_faults.specs.Judgement.{found_faults, judgement};

use edge::{Curve, EdgeID};
use edit_answers::EditError;
use vertex::VertexID;
use wire::{Wire, find_use};

// Whether a wire is flagged and meets a vertex.
fn wire_meets(wire: &Wire, flag: bool, v: VertexID) -> bool
    ensures { result ≡ (flag && has v.0 (of_wire points wire.now)) }
{
    if !flag {
        return false;
    }
    let p = usize::from(v.0);
    for u in wire.uses {
        if p == wire.ends.front_of(*u) {
            return true;
        }
    }
    false
}

// Whether a flagged wire meets a vertex.
fn meets_vertex(wires: &Wire, lens: &[u16], flags: &[bool], v: VertexID) -> bool
    requires { (sum lens.now ≤ length wires.now.uses.now) × (length lens.now ≤ length flags.now) × (length wires.now.uses.now ≤ 4096) }
    ensures { result ≡ has v.0 (points wires.now.ends.fronts.now wires.now.ends.backs.now (uses_where flags.now 0 (split lens.now wires.now.uses.now))) }
{
    let mut at: usize = 0;
    for (k, len) in lens.iter().enumerate() {
        let n = usize::from(*len);
        if wire_meets(&wires.part(at, n), flags[k], v) {
            return true;
        }
        at += n;
    }
    false
}

// How many uses of an edge a wire gives way to: one if it is flagged and has a use of it.
fn wire_cuts(uses: &[u16], flag: bool, e: EdgeID) -> usize
    ensures { (result ≡ pick (flag && has e.0 (map edge_number uses.now)) 1 0) × (result ≤ 1) }
{
    usize::from(flag && find_use(uses, e).is_some())
}

// How many flagged wires have a use of an edge.
fn count_cuts(uses: &[u16], lens: &[u16], flags: &[bool], e: EdgeID) -> usize
    requires { (sum lens.now ≤ length uses.now) × (length lens.now ≤ length flags.now) × (length uses.now ≤ 4096) × (length lens.now ≤ 1024) }
    ensures { (result ≡ cuts_where flags.now e.0 0 (split lens.now uses.now)) × (result ≤ 1024) }
{
    let mut count: usize = 0;
    let mut at: usize = 0;
    for (k, len) in lens.iter().enumerate() {
        let n = usize::from(*len);
        count += wire_cuts(&uses[at..at + n], flags[k], e);
        at += n;
    }
    count
}

// The refusals after 3, from what was found: 27, 14, 15, 16, 17; or the halves of the edge's curve.
fn judge(
    shared: bool,
    met: bool,
    cuts: usize,
    halves: Option<(Curve, Curve)>,
    ecount: usize,
    ucount: usize,
) -> Result<(Curve, Curve), EditError>
    requires { (cuts ≤ 1024) × (ecount ≤ 1024) × (ucount ≤ 4096) }
    ensures { result ≡ judgement (found_faults shared met cuts halves ecount ucount) halves }
{
    if shared {
        return Err(EditError::SharedFace);
    }
    if met {
        return Err(EditError::VertexInShell);
    }
    if cuts == 0 {
        return Err(EditError::EdgeNotInShell);
    }
    let both = halves.ok_or(EditError::CurveRefuses)?;
    if ecount + 2 > 1024 {
        return Err(EditError::NoSpace);
    }
    if ucount + cuts > 4096 {
        return Err(EditError::NoSpace);
    }
    Ok(both)
}

// Judges a cut of the wires, which have the lengths `lens`: the halves of the edge's curve, or the refusal.
pub fn judge_cut(
    wires: &Wire,
    lens: &[u16],
    shared: bool,
    flags: &[bool],
    e: EdgeID,
    v: VertexID,
    halves: Option<(Curve, Curve)>,
) -> Result<(Curve, Curve), EditError>
    requires lens_value { (sum lens.now ≡ length wires.now.uses.now) × (length lens.now ≤ length flags.now) }
    requires in_bounds { (length lens.now ≤ 1024) × (length wires.now.uses.now ≤ 4096) × (length wires.now.ends.fronts.now ≤ 1024) }
    ensures { result ≡ judgement (found_faults shared (has v.0 (points wires.now.ends.fronts.now wires.now.ends.backs.now (uses_where flags.now 0 (split lens.now wires.now.uses.now)))) (cuts_where flags.now e.0 0 (split lens.now wires.now.uses.now)) halves (length wires.now.ends.fronts.now) (length wires.now.uses.now)) halves }
{
    let met = meets_vertex(wires, lens, flags, v);
    let cuts = count_cuts(wires.uses, lens, flags, e);
    judge(
        shared,
        met,
        cuts,
        halves,
        wires.ends.fronts.len(),
        wires.uses.len(),
    )
}

// Whether the shell, the edge and the vertex are there.
pub fn all_named(
    n: usize,
    scount: usize,
    e: EdgeID,
    ecount: usize,
    v: VertexID,
    pcount: usize,
) -> bool
    ensures { result ≡ (ltb n scount && ltb e.0 ecount && ltb v.0 pcount) }
{
    n < scount && usize::from(e.0) < ecount && usize::from(v.0) < pcount
}
