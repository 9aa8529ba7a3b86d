// The swaps of a wire: uses that give way to others, written to a lent list.
#![tactic(auto)]

ghost use Rattle.std.specs.Prelude.{◌≡◌, ◌+◌, ◌<◌, ◌≤◌, get_or, length};
ghost use Rattle.std.proofs.lemmas.List.Edits.{sets};
ghost use Rattle.lists.specs.Lists.{pick};
ghost use Rattle.edge.specs.OfEnds.{HasEdge};
ghost use Rattle.edge.specs.Uses.{edge_number};
ghost use Rattle.wire_swaps.specs.Swaps.{same_ends, swap_edge, swap_subwire};

use wire::Wire;
use words::copy_to;

// Whether a wire has a use, and runs between the ends of use u.
fn same_ends(u: u16, new: &Wire) -> bool
    requires { HasEdge new.now.ends (edge_number u) }
    ensures { result ≡ same_ends new.now.ends.fronts.now new.now.ends.backs.now u new.now.uses.now }
{
    let ends = &new.ends;
    let n = new.uses.len();
    if n > 0 {
        let p = ends.front_of(u);
        let q = ends.front_of(new.uses[0]);
        if p == q {
            let r = ends.back_of(u);
            let s = ends.back_of(new.uses[n - 1]);
            return r == s;
        }
    }
    false
}

// Writes the wire, with the use at place i given way to the uses of another wire, from `at` on. If
// the other wire has no use or other ends, writes nothing and answers false.
pub fn swap_edge_into_wire(uses: &[u16], i: usize, new: &Wire, out: &mut [u16], at: usize) -> bool
    requires i_in_bounds { i < length uses.now }
    requires has_edge { HasEdge new.now.ends (edge_number (get_or uses.now i 0)) }
    requires in_bounds { at + length uses.now + length new.now.uses.now ≤ length out.old + 1 }
    ensures value { result ≡ same_ends new.now.ends.fronts.now new.now.ends.backs.now (get_or uses.now i 0) new.now.uses.now }
    ensures out_after { out.new ≡ pick (same_ends new.now.ends.fronts.now new.now.ends.backs.now (get_or uses.now i 0) new.now.uses.now) (sets out.old at (swap_edge uses.now i new.now.uses.now)) out.old }
{
    if same_ends(uses[i], new) {
        let next = i + 1;
        copy_to(&uses[0..i], out, at);
        copy_to(new.uses, out, at + i);
        copy_to(&uses[next..uses.len()], out, at + i + new.uses.len());
        return true;
    }
    false
}

// Writes the wire, with the use at place i and the next given way to one use, from `at` on. Where
// the use is its wire's last, the wire first rotates left by one.
pub fn swap_subwire_into_edges(uses: &[u16], i: usize, u: u16, out: &mut [u16], at: usize)
    requires i_in_bounds { i < length uses.now }
    requires in_bounds { 2 ≤ length uses.now }
    requires uses_in_bounds { at + length uses.now ≤ length out.old + 1 }
    ensures { out.new ≡ sets out.old at (swap_subwire uses.now i u) }
{
    if i + 1 == uses.len() {
        let m = i - 1;
        copy_to(&uses[1..i], out, at);
        out[at + m] = u;
    } else {
        let rest = i + 2;
        copy_to(&uses[0..i], out, at);
        out[at + i] = u;
        copy_to(&uses[rest..uses.len()], out, at + i + 1);
    }
}
