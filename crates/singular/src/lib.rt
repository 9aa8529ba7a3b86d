// Singular points (singular_vertices): points where the edges, linked when neighbours on a wire
// there, fall into more than one group. Member 2e of the groups is edge e where it begins, 2e + 1
// edge e where it ends.
#![tactic(auto)]

ghost use Rattle.std.specs.Prelude.{false, ◌≡◌, [], ◌∷◌, map, ◌*◌, ◌+◌, ◌<◌, ◌≤◌, ℕ, get_or, length, replicate};
ghost use Rattle.std.proofs.lemmas.List.Edits.{sets};
ghost use Rattle.lists.specs.Lists.{flat, numbers, only, pick, split, rotated};
ghost use Rattle.edge.specs.OfEnds.{back_in, front_in};
ghost use Rattle.groups.specs.OfGroups.{Joined};
ghost use Rattle.shell.specs.Singular.{corners, first_end, last_end, singular_of};
ghost use Rattle.singular.specs.Ends.{Cornered, Wired};
ghost use Rattle.singular.specs.Noted.{Noteable, marked, none_noted, noted, notes, Unmarked, use_noted, uses_noted};
ghost use Rattle.edge.specs.Below.{EdgesBelow};

use edge::Ends;
use groups::Groups;

// The end of its edge where a use begins.
fn first_end(u: u16) -> u16
    ensures { result ≡ first_end u }
{
    if 32768 <= u {
        return 2 * (u % 32768) + 1;
    }
    2 * (u % 32768)
}

// The end of its edge where a use ends.
fn last_end(u: u16) -> u16
    ensures { result ≡ last_end u }
{
    if 32768 <= u {
        return 2 * (u % 32768);
    }
    2 * (u % 32768) + 1
}

// The use after that at place i of its wire.
fn next_use(wire: &[u16], i: usize) -> u16
    requires { i < length wire.now }
    ensures { result ≡ get_or (rotated wire.now) i 0 }
{
    if i < wire.len() - 1 {
        return wire[i + 1];
    }
    wire[0]
}

// Joins, for each use of a wire, the end where it ends and that where the next use begins.
fn join_wire(groups: &mut Groups, edges: usize, wire: &[u16])
    requires { (groups.old.count ≡ 2 * edges) × EdgesBelow edges wire.now }
    ensures { Joined (corners wire.now) groups.old groups.new }
{
    for (i, &u) in wire.iter().enumerate() {
        let last = usize::from(last_end(u));
        let first = usize::from(first_end(next_use(wire, i)));
        groups.join(last, first);
    }
}

// The same, for each of the wires.
fn join_wires(groups: &mut Groups, edges: usize, uses: &[u16], lens: &[u16])
    requires { (groups.old.count ≡ 2 * edges) × Wired uses.now lens.now edges }
    ensures { Joined (flat (map corners (split lens.now uses.now))) groups.old groups.new }
{
    let mut at: usize = 0;
    for &n in lens {
        let n = usize::from(n);
        join_wire(groups, edges, &uses[at..at + n]);
        at += n;
    }
}

// Notes that root r is met at point p. Returns whether a point is marked: `any` says whether one was.
fn note(roots: &mut [u16; 2048], several: &mut [bool; 2048], p: usize, r: u16, any: bool) -> bool
    requires { p < 2048 }
    ensures roots_after { roots.new ≡ (noted roots.old several.old p r).roots }
    ensures several_after { several.new ≡ (noted roots.old several.old p r).several }
    ensures unmarked { Unmarked any several.old result several.new }
{
    let first = roots[p];
    if first == 65535 {
        roots[p] = r;
        return any;
    }
    if first != r {
        several[p] = true;
        return true;
    }
    any
}

// Notes the roots of the two ends of a use, each at its point.
fn note_use(
    u: u16,
    ends: &Ends,
    groups: &Groups,
    roots: &mut [u16; 2048],
    several: &mut [bool; 2048],
    any: bool,
) -> bool
    requires { Noteable ends.now.fronts.now ends.now.backs.now groups.now.count u }
    ensures roots_after { roots.new ≡ (use_noted ends.now.fronts.now ends.now.backs.now groups.now.parents (notes roots.old several.old) u).roots }
    ensures several_after { several.new ≡ (use_noted ends.now.fronts.now ends.now.backs.now groups.now.parents (notes roots.old several.old) u).several }
    ensures unmarked { Unmarked any several.old result several.new }
{
    let first = groups.root(usize::from(first_end(u))) as u16;
    let last = groups.root(usize::from(last_end(u))) as u16;
    let front = note(roots, several, ends.front_of(u), first, any);
    note(roots, several, ends.back_of(u), last, front)
}

// Marks the points where several roots are met. Returns whether there are any.
fn several_roots(uses: &[u16], ends: &Ends, groups: &Groups, several: &mut [bool; 2048]) -> bool
    requires by_index { (k : ℕ) → k < length uses.now → Noteable ends.now.fronts.now ends.now.backs.now groups.now.count (get_or uses.now k 0) }
    requires several_value { several.old ≡ replicate 2048 false }
    ensures several_after { several.new ≡ (uses_noted ends.now.fronts.now ends.now.backs.now groups.now.parents none_noted uses.now).several }
    ensures several_after_2 { result ≡ false → several.new ≡ replicate 2048 false }
{
    let mut roots = [65535u16; 2048];
    let mut any = false;
    for &u in uses {
        any = note_use(u, ends, groups, &mut roots, several, any);
    }
    any
}

// Writes point p at place n, if it is marked; the next place.
fn put_point(out: &mut [u16], n: usize, p: usize, marked: bool) -> usize
    requires { (p < 2048) × (n < length out.old) }
    ensures out_after { (out.new ≡ sets out.old n (pick marked (p ∷ []) [])) × (result ≡ n + length (pick marked (p ∷ []) [])) }
    ensures upper_bound { result ≤ n + 1 }
{
    if marked {
        out[n] = p as u16;
        return n + 1;
    }
    n
}

// Writes the points that are marked, the lowest first; their number.
fn put_points(marks: &[bool; 2048], points: usize, out: &mut [u16]) -> usize
    requires { (points ≤ 2048) × (points ≤ length out.old) }
    ensures out_after { (out.new ≡ sets out.old 0 (only (marked marks.now) (numbers points))) × (result ≡ length (only (marked marks.now) (numbers points))) }
    ensures upper_bound { result ≤ points }
{
    let mut n: usize = 0;
    for p in 0..points {
        n = put_point(out, n, p, marks[p]);
    }
    n
}

// The singular points of the wires (singular_vertices), the lowest first: written to `out`; their
// number. `uses` are the uses of all wires one after the other, `lens` the lengths of the wires,
// `fronts` and `backs` the ends of the edges.
pub fn singular_of(uses: &[u16], lens: &[u16], ends: &Ends, points: usize, out: &mut [u16]) -> usize
    requires { Cornered uses.now lens.now ends.now.fronts.now ends.now.backs.now points out.old }
    ensures out_after { (out.new ≡ sets out.old 0 (singular_of (front_in ends.now) (back_in ends.now) (length ends.now.fronts.now) points (split lens.now uses.now))) × (result ≡ length (singular_of (front_in ends.now) (back_in ends.now) (length ends.now.fronts.now) points (split lens.now uses.now))) }
    ensures upper_bound { result ≤ points }
{
    let edges = ends.fronts.len();
    let mut groups = Groups::new();
    groups.start(2 * edges);
    join_wires(&mut groups, edges, uses, lens);
    let mut several = [false; 2048];
    if !several_roots(uses, ends, &groups, &mut several) {
        return 0;
    }
    put_points(&several, points, out)
}
