// Writing the wires after a cut. The wires of the shell are flags, one for each wire of the pattern.
#![tactic(auto)]

ghost use Rattle.std.specs.Prelude.{None, map, ◌≡◌, ◌+◌, ◌<◌, ◌≤◌, length};
ghost use Rattle.std.proofs.lemmas.List.Edits.{sets};
ghost use Rattle.lists.specs.Lists.{flat, pick, split, sum};
ghost use Rattle.wire.specs.Wires.{find_from};
ghost use Rattle.shell_edits.specs.Edits.{cut_wire, each_wire, halves_of};
ghost use Rattle.cut_edge_wires.specs.Halves.{cut_flagged, Halved};

use edge::EdgeID;
use wire::{Wire, find_use};
use wire_swaps::swap_edge_into_wire;
use words::copy_to;

// The uses of the halves: edges a and a + 1, for a use along the edge or reversed.
fn halves_of(a: u16, u: u16) -> [u16; 2]
    requires { a < 1024 }
    ensures { result ≡ halves_of a u }
{
    if 32768 <= u {
        [a + 32769, a + 32768]
    } else {
        [a, a + 1]
    }
}

// The place of the first use of an edge in a wire, if it is flagged.
fn find_flagged(uses: &[u16], flag: bool, e: EdgeID) -> Option<usize>
    ensures { result ≡ pick flag (find_from 0 e.0 uses.now) None }
{
    if flag {
        return find_use(uses, e);
    }
    None
}

// Writes a wire from `at` on: if it is flagged, the halves for the first use of the edge. How many
// uses are written. The halves run between the ends of that use, so the swap is always made.
fn put_wire(wire: &Wire, flag: bool, e: EdgeID, a: u16, out: &mut [u16], at: usize) -> usize
    requires halved { Halved wire.now.ends.fronts.now wire.now.ends.backs.now e.0 a }
    requires uses_in_bounds { at + length (pick flag (cut_wire e.0 a wire.now.uses.now) wire.now.uses.now) ≤ length out.old }
    ensures value { result ≡ length (pick flag (cut_wire e.0 a wire.now.uses.now) wire.now.uses.now) }
    ensures out_after { out.new ≡ sets out.old at (pick flag (cut_wire e.0 a wire.now.uses.now) wire.now.uses.now) }
{
    let uses = wire.uses;
    match find_flagged(uses, flag, e) {
        None => {
            copy_to(uses, out, at);
            uses.len()
        }
        Some(i) => {
            let both = halves_of(a, uses[i]);
            let new = Wire {
                uses: &both,
                ends: wire.ends,
            };
            swap_edge_into_wire(uses, i, &new, out, at);
            uses.len() + 1
        }
    }
}

// Writes all wires, which have the lengths `lens`, after the cut, and their lengths then. How many uses
// are written.
pub fn put_cut_wires(
    wires: &Wire,
    lens: &[u16],
    flags: &[bool],
    e: EdgeID,
    a: u16,
    out: &mut [u16],
    sizes: &mut [u16],
) -> usize
    requires halved { Halved wires.now.ends.fronts.now wires.now.ends.backs.now e.0 a }
    requires lens_in_bounds { (sum lens.now ≤ length wires.now.uses.now) × (length lens.now ≤ length flags.now) × (length lens.now ≤ length sizes.old) }
    requires uses_in_bounds { (length (flat (each_wire (cut_flagged flags.now e.0 a) 0 (split lens.now wires.now.uses.now))) ≤ length out.old) × (length wires.now.uses.now ≤ 4096) × (length out.old ≤ 4096) }
    ensures value { result ≡ length (flat (each_wire (cut_flagged flags.now e.0 a) 0 (split lens.now wires.now.uses.now))) }
    ensures out_after { out.new ≡ sets out.old 0 (flat (each_wire (cut_flagged flags.now e.0 a) 0 (split lens.now wires.now.uses.now))) }
    ensures sizes_after { sizes.new ≡ sets sizes.old 0 (map length (each_wire (cut_flagged flags.now e.0 a) 0 (split lens.now wires.now.uses.now))) }
{
    let mut from: usize = 0;
    let mut at: usize = 0;
    for (k, len) in lens.iter().enumerate() {
        let n = usize::from(*len);
        let m = put_wire(&wires.part(from, n), flags[k], e, a, out, at);
        sizes[k] = m as u16;
        from += n;
        at += m;
    }
    at
}
