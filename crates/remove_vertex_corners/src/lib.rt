// The wires with a use that ends at a vertex; that use and the next on its wire; the wires after the two give way
// to one.
#![tactic(auto)]

ghost use Rattle.std.specs.Prelude.{◌≡◌, false, [], ◌∷◌, map, ◌+◌, ◌≤◌, ◌<◌, ℕ, get_or, length};
ghost use Rattle.std.proofs.lemmas.List.Edits.{sets};
ghost use Rattle.lists.specs.Lists.{numbers, only, padded, pick, split, sum, tabulate, flat};
ghost use Rattle.shell_edits.specs.Edits.{listed_wires, each_wire};
ghost use Rattle.shell_wires.specs.Flags.{NameFaces};
ghost use Rattle.remove_vertex_corners.specs.Endings.{ending_of, ends_at, flagged, followed, no_ending};
ghost use Rattle.remove_vertex_corners.specs.Tables.{WireTables};
ghost use Rattle.edge.specs.Uses.{edge_number};
ghost use Rattle.remove_vertex_corners.specs.Corners.{corner_of, joined_wire, place_of, removed_wire, fit};

use vertex::VertexID;
use wire::Wire;
use wire_swaps::swap_subwire_into_edges;
use words::{copy_to, sum_of};

// Wires in sequence: how many, the first, the last. Of none, all is 0.
#[derive(Clone, Copy)]
pub struct Ending {
    pub number: usize,
    pub first: usize,
    pub last: usize,
}

const NO_ENDING: Ending = Ending {
    number: 0,
    first: 0,
    last: 0,
};

impl Ending {
    // These wires, and then those.
    fn then(self, next: Ending) -> Ending
        requires { self.number + next.number < 4294967296 }
        ensures { result ≡ followed self next }
    {
        Ending {
            number: self.number + next.number,
            first: if self.number == 0 {
                next.first
            } else {
                self.first
            },
            last: if next.number == 0 {
                self.last
            } else {
                next.last
            },
        }
    }
}

// The wire, if it has a flag.
fn one_wire(flag: bool, w: usize) -> Ending
    ensures { result ≡ ending_of (pick flag (w ∷ []) []) }
{
    if flag {
        Ending {
            number: 1,
            first: w,
            last: w,
        }
    } else {
        NO_ENDING
    }
}

// Those with a flag among n wires from `start` on.
fn ending_among(flags: &[bool], start: usize, n: usize) -> Ending
    requires { (start + n ≤ length flags.now) × (n ≤ 1024) }
    ensures { result ≡ ending_of (flagged flags.now (tabulate n (λ (k : ℕ). start + k))) }
{
    let mut e = NO_ENDING;
    for w in start..start + n {
        let d = one_wire(flags[w], w);
        e = e.then(d);
    }
    e
}

// Those with a flag of each face. The rest is none.
fn face_endings(flags: &[bool], counts: &[u16]) -> [Ending; 256]
    requires { (length counts.now ≤ 256) × (sum counts.now ≤ length flags.now) × (sum counts.now ≤ 1024) }
    ensures { result ≡ padded 256 no_ending (map (λ ws. ending_of (flagged flags.now ws)) (split counts.now (numbers (sum counts.now)))) }
{
    let mut out = [NO_ENDING; 256];
    let mut at: usize = 0;
    for (f, count) in counts.iter().enumerate() {
        let n = usize::from(*count);
        let e = ending_among(flags, at, n);
        out[f] = e;
        at += n;
    }
    out
}

// Those with a flag of the listed faces, counted per listing.
fn ending_wires(flags: &[bool], counts: &[u16], listings: &[u16]) -> Ending
    requires counts_len_bound { (length counts.now ≤ 256) × (sum counts.now ≤ length flags.now) × (sum counts.now ≤ 1024) }
    requires listings_len_bound { (length listings.now ≤ 512) × NameFaces listings.now }
    ensures { result ≡ ending_of (flagged flags.now (listed_wires counts.now (sum counts.now) listings.now)) }
{
    let ends = face_endings(flags, counts);
    let mut e = NO_ENDING;
    for l in listings {
        let d = ends[usize::from(*l % 32768)];
        e = e.then(d);
    }
    e
}

// Whether a use of the wire ends at v.
fn ends_at(wire: &Wire, v: VertexID) -> bool
    ensures { result ≡ ends_at wire.now.ends.fronts.now wire.now.ends.backs.now v.0 wire.now.uses.now }
{
    wire.find_end(v).is_some()
}

// A flag for each wire with a use that ends at v. The rest is false.
fn wire_ends(wires: &Wire, lens: &[u16], v: VertexID) -> [bool; 1024]
    requires { WireTables wires.now.uses.now lens.now }
    ensures { result ≡ padded 1024 false (map (ends_at wires.now.ends.fronts.now wires.now.ends.backs.now v.0) (split lens.now wires.now.uses.now)) }
{
    let mut out = [false; 1024];
    let mut at: usize = 0;
    for (w, len) in lens.iter().enumerate() {
        let n = usize::from(*len);
        out[w] = ends_at(&wires.part(at, n), v);
        at += n;
    }
    out
}

// The wires of listings with a use that ends at v, counted per listing; the wires have the lengths `lens`,
// `counts` has the faces' numbers of wires.
pub fn ending_in(
    wires: &Wire,
    lens: &[u16],
    v: VertexID,
    counts: &[u16],
    listings: &[u16],
) -> Ending
    requires wire_tables { WireTables wires.now.uses.now lens.now }
    requires counts_value { (length counts.now ≤ 256) × (sum counts.now ≡ length lens.now) }
    requires listings_len_bound { (length listings.now ≤ 512) × NameFaces listings.now }
    ensures { result ≡ ending_of (only (λ (w : ℕ). ends_at wires.now.ends.fronts.now wires.now.ends.backs.now v.0 (get_or (split lens.now wires.now.uses.now) w [])) (listed_wires counts.now (length lens.now) listings.now)) }
{
    let flags = wire_ends(wires, lens, v);
    ending_wires(&flags, counts, listings)
}

// A use that ends at a vertex, and the next on its wire.
#[derive(Clone, Copy)]
pub struct Corner {
    pub ending: u16,
    pub next: u16,
}

// Both corners of two wires.
#[derive(Clone, Copy)]
pub struct Corners {
    pub first: Corner,
    pub last: Corner,
}

// The place of the first use that ends at v; if none does, 0.
fn end_place(wire: &Wire, v: VertexID) -> usize
    requires { 0 < length wire.now.uses.now }
    ensures value { result ≡ place_of wire.now.ends.fronts.now wire.now.ends.backs.now v.0 wire.now.uses.now }
    ensures upper_bound { result < length wire.now.uses.now }
{
    wire.find_end(v).unwrap_or(0)
}

// That use, and the next on its wire; after the last, the first.
fn corner_of(wire: &Wire, v: VertexID) -> Corner
    requires { 0 < length wire.now.uses.now }
    ensures { result ≡ corner_of wire.now.ends.fronts.now wire.now.ends.backs.now v.0 wire.now.uses.now }
{
    let uses = wire.uses;
    let i = end_place(wire, v);
    if i + 1 == uses.len() {
        return Corner {
            ending: uses[i],
            next: uses[0],
        };
    }
    Corner {
        ending: uses[i],
        next: uses[i + 1],
    }
}

// Writes a wire on which the two give way to use u, from `at` on; how many uses it then has.
fn put_joined(wire: &Wire, v: VertexID, u: u16, out: &mut [u16], at: usize) -> usize
    requires { (2 ≤ length wire.now.uses.now) × (at + length wire.now.uses.now ≤ length out.old) }
    ensures out_after { out.new ≡ sets out.old at (joined_wire wire.now.ends.fronts.now wire.now.ends.backs.now v.0 u wire.now.uses.now) }
    ensures value { (result ≡ length (joined_wire wire.now.ends.fronts.now wire.now.ends.backs.now v.0 u wire.now.uses.now)) × (result ≤ length wire.now.uses.now) }
{
    let i = end_place(wire, v);
    swap_subwire_into_edges(wire.uses, i, u, out, at);
    wire.uses.len() - 1
}

// Writes wire w as it is after the removal, where the new edge is a.
fn put_wire(
    wire: &Wire,
    w: usize,
    v: VertexID,
    e: Ending,
    a: u16,
    out: &mut [u16],
    at: usize,
) -> usize
    requires { (2 ≤ length wire.now.uses.now) × (at + length wire.now.uses.now ≤ length out.old) × (a < 1024) }
    ensures out_after { out.new ≡ sets out.old at (removed_wire wire.now.ends.fronts.now wire.now.ends.backs.now v.0 e a w wire.now.uses.now) }
    ensures value { (result ≡ length (removed_wire wire.now.ends.fronts.now wire.now.ends.backs.now v.0 e a w wire.now.uses.now)) × (result ≤ length wire.now.uses.now) }
{
    if w == e.last {
        return put_joined(wire, v, a, out, at);
    }
    if w == e.first {
        return put_joined(wire, v, a + 32768, out, at);
    }
    copy_to(wire.uses, out, at);
    wire.uses.len()
}

// Writes all wires, which have the lengths `lens`, as they are after the removal, where the new edge is a,
// and their lengths then; how many uses there are then.
pub fn put_wires(
    wires: &Wire,
    lens: &[u16],
    v: VertexID,
    e: Ending,
    a: u16,
    out: &mut [u16],
    sizes: &mut [u16],
) -> usize
    requires wire_tables { WireTables wires.now.uses.now lens.now }
    requires in_bounds { (length lens.now ≤ length sizes.old) × (length wires.now.uses.now ≤ length out.old) × (a < 1024) }
    ensures out_after { out.new ≡ sets out.old 0 (flat (each_wire (removed_wire wires.now.ends.fronts.now wires.now.ends.backs.now v.0 e a) 0 (split lens.now wires.now.uses.now))) }
    ensures sizes_after { sizes.new ≡ sets sizes.old 0 (map length (each_wire (removed_wire wires.now.ends.fronts.now wires.now.ends.backs.now v.0 e a) 0 (split lens.now wires.now.uses.now))) }
    ensures value { (result ≡ length (flat (each_wire (removed_wire wires.now.ends.fronts.now wires.now.ends.backs.now v.0 e a) 0 (split lens.now wires.now.uses.now)))) × (result ≤ length wires.now.uses.now) }
{
    let mut from: usize = 0;
    let mut at: usize = 0;
    for (w, len) in lens.iter().enumerate() {
        let n = usize::from(*len);
        let m = put_wire(&wires.part(from, n), w, v, e, a, out, at);
        sizes[w] = m as u16;
        from += n;
        at += m;
    }
    at
}

// The corner at v of wire w.
fn corner_in(wires: &Wire, lens: &[u16], w: usize, v: VertexID) -> Corner
    requires wire_tables { WireTables wires.now.uses.now lens.now }
    requires w_bound { w < length lens.now }
    ensures value { result ≡ corner_of wires.now.ends.fronts.now wires.now.ends.backs.now v.0 (get_or (split lens.now wires.now.uses.now) w []) }
    ensures ending_in_bounds { (edge_number result.ending < length wires.now.ends.fronts.now) × (edge_number result.next < length wires.now.ends.fronts.now) }
{
    let start = sum_of(&lens[..w]);
    let n = usize::from(lens[w]);
    corner_of(&wires.part(start, n), v)
}

// The corners at v of the first and the last wire; the wires have the lengths `lens`.
pub fn corners_in(wires: &Wire, lens: &[u16], v: VertexID, e: Ending) -> Corners
    requires wire_tables { WireTables wires.now.uses.now lens.now }
    requires first_bound { (e.first < length lens.now) × (e.last < length lens.now) }
    ensures first_value { result.first ≡ corner_of wires.now.ends.fronts.now wires.now.ends.backs.now v.0 (get_or (split lens.now wires.now.uses.now) e.first []) }
    ensures last_value { result.last ≡ corner_of wires.now.ends.fronts.now wires.now.ends.backs.now v.0 (get_or (split lens.now wires.now.uses.now) e.last []) }
    ensures ending_bound { (edge_number result.last.ending < length wires.now.ends.fronts.now) × (edge_number result.last.next < length wires.now.ends.fronts.now) }
{
    Corners {
        first: corner_in(wires, lens, e.first, v),
        last: corner_in(wires, lens, e.last, v),
    }
}

// Whether there is one wire, or the two match.
pub fn corners_fit(e: Ending, a: Corner, b: Corner) -> bool
    ensures { result ≡ fit e a b }
{
    e.number < 2 || (a.ending % 32768 == b.next % 32768 && b.ending % 32768 == a.next % 32768)
}
