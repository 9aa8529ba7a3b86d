// The face and sign pairs of a shell, each once, ordered by first listing, without faces that have
// no wires; their wires and uses stand one after the other in plain columns.
#![tactic(auto)]

ghost use Rattle.std.specs.Prelude.{◌≡◌, map, ℕ, ◌+◌, ◌<◌, ◌≤◌, get_or, length, replicate};
ghost use Rattle.std.proofs.lemmas.List.Edits.{sets};
ghost use Rattle.lists.specs.Lists.{padded};
ghost use Rattle.lists.specs.Marks.{stamped};
ghost use Rattle.listing.specs.OfParts.{of_parts};
ghost use Rattle.listing.specs.Parts.{part_at, parts_of};
ghost use Rattle.pairs.specs.Pairs.{has_wires_at, is_new, Listed, mark_of, new_pair, no_pairs, pairs_in, pairs_of, Parted, Showing};

use face::FaceID;
use listing::Parts;
use words::copy_to;

// The pairs of a shell, with their wires and uses: how many of each; the pairs, how many wires each has
// and how many uses each shows; how many uses each wire has; the uses. The columns are 0 after the last.
#[derive(Drop)]
pub struct Pairs {
    pub number: usize,
    pub wires: usize,
    pub uses: usize,
    pub pairs: [u16; 512],
    pub counts: [u16; 512],
    pub spans: [u16; 512],
    pub lens: [u16; 2048],
    pub shown: [u16; 8192],
}

// Whether the face of a listing has wires.
fn has_wires(firsts: &[usize], l: u16) -> bool
    requires { Listed firsts.now l }
    ensures { result ≡ has_wires_at firsts.now l }
{
    let face = FaceID::of_listing(l);
    let f = usize::from(face.0);
    firsts[f] < firsts[f + 1]
}

// The mark of a pair.
fn mark_of(l: u16) -> usize
    ensures { result ≡ mark_of l }
{
    usize::from(l % 32768) * 2 + usize::from(l / 32768)
}

// Whether a listing makes a pair that has no mark yet.
fn is_new(marks: &[u8], firsts: &[usize], l: u16) -> bool
    requires listed { Listed firsts.now l }
    requires marks_len { length marks.now ≡ 512 }
    ensures { result ≡ is_new marks.now firsts.now l }
{
    has_wires(firsts, l) && marks[mark_of(l)] != 1
}

// Writes a listing at `at` and marks it, if it is a new pair. Returns the place after it.
fn add_pair(marks: &mut [u8], firsts: &[usize], out: &mut [u16], at: usize, l: u16) -> usize
    requires listed { Listed firsts.now l }
    requires marks_len { (length marks.old ≡ 512) × (at < length out.old) }
    ensures marks_after { marks.new ≡ stamped 1 (map mark_of (new_pair marks.old firsts.now l)) marks.old }
    ensures out_after { out.new ≡ sets out.old at (new_pair marks.old firsts.now l) }
    ensures value { result ≡ at + length (new_pair marks.old firsts.now l) }
{
    if !is_new(marks, firsts, l) {
        return at;
    }
    let m = mark_of(l);
    marks[m] = 1;
    out[at] = l;
    at + 1
}

// Writes the pairs of the listings from the front on. Returns how many they are.
fn distinct(listings: &[u16], firsts: &[usize], out: &mut [u16]) -> usize
    requires listings_in_bounds { length listings.now ≤ length out.old }
    requires by_index { (k : ℕ) → k < length listings.now → Listed firsts.now (get_or listings.now k 0) }
    ensures out_after { out.new ≡ sets out.old 0 (pairs_in listings.now firsts.now) }
    ensures value { result ≡ length (pairs_in listings.now firsts.now) }
{
    let mut marks = [0u8; 512];
    let mut at: usize = 0;
    for &l in listings {
        at = add_pair(&mut marks, firsts, out, at, l);
    }
    at
}

// A number below 65,536.
fn short(n: usize) -> u16
    requires { n < 65536 }
    ensures { result ≡ n }
{
    n as u16
}

// Writes how many each pair shows, from the front on.
fn put_spans(pairs: &[u16], parts: &Parts, out: &mut [u16])
    requires pairs_len_bound { (length pairs.now ≤ 512) × (out.old ≡ replicate 512 0) }
    requires parted { of_parts Parted parts.now pairs.now }
    ensures { out.new ≡ padded 512 0 (map (λ (l : ℕ). length (of_parts part_at parts.now l)) pairs.now) }
{
    for (k, &pair) in pairs.iter().enumerate() {
        let part = parts.part(pair);
        out[k] = short(part.len());
    }
}

// Writes a part from `at` on, and returns the place after it.
fn put_part(out: &mut [u16], at: usize, part: &[u16]) -> usize
    requires { at + length part.now ≤ length out.old }
    ensures out_after { out.new ≡ sets out.old at part.now }
    ensures value { result ≡ at + length part.now }
{
    copy_to(part, out, at);
    at + part.len()
}

// Writes what the pairs show, one after the other, from the front on. Returns how many they are.
fn put_parts(pairs: &[u16], parts: &Parts, out: &mut [u16]) -> usize
    requires pairs_in_bounds { length (of_parts parts_of parts.now pairs.now) ≤ length out.old }
    requires parted { of_parts Parted parts.now pairs.now }
    ensures out_after { out.new ≡ sets out.old 0 (of_parts parts_of parts.now pairs.now) }
    ensures value { result ≡ length (of_parts parts_of parts.now pairs.now) }
{
    let mut at: usize = 0;
    for &pair in pairs {
        at = put_part(out, at, parts.part(pair));
    }
    at
}

impl Pairs {
    // No pairs.
    pub fn new() -> Pairs
        ensures { result ≡ no_pairs }
    {
        Pairs {
            number: 0,
            wires: 0,
            uses: 0,
            pairs: [0u16; 512],
            counts: [0u16; 512],
            spans: [0u16; 512],
            lens: [0u16; 2048],
            shown: [0u16; 8192],
        }
    }

    // Writes the pairs of the listings. `parts` has the uses that listings show; `firsts` says where the
    // wires of each face begin in `wires`.
    pub fn fill(&mut self, listings: &[u16], parts: &Parts, wires: &[u16], firsts: &[usize])
        requires showing { Showing listings.now parts.now.along.now parts.now.back.now parts.now.starts.now wires.now firsts.now }
        requires none { self.old ≡ no_pairs }
        ensures { self.new ≡ pairs_of listings.now parts.now.along.now parts.now.back.now parts.now.starts.now wires.now firsts.now }
    {
        self.number = distinct(listings, firsts, &mut self.pairs);
        let listed = &self.pairs[..self.number];
        let lengths = Parts {
            along: wires,
            back: wires,
            starts: firsts,
        };
        put_spans(listed, &lengths, &mut self.counts);
        put_spans(listed, parts, &mut self.spans);
        self.wires = put_parts(listed, &lengths, &mut self.lens);
        self.uses = put_parts(listed, parts, &mut self.shown);
    }
}
