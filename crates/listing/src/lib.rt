// The uses of a listing (Face::edge_iter): a face listed reversed shows each wire in reverse order
// with every use turned. Both forms of all wires stand in columns, so that a listing is a part of one.
#![tactic(auto)]

ghost use Rattle.std.specs.Prelude.{◌≡◌, map, reverse, ◌+◌, ◌-◌, ◌≤◌, suc, drop, length, replicate, take};
ghost use Rattle.std.proofs.lemmas.List.Edits.{sets};
ghost use Rattle.lists.specs.Lists.{padded, pick, sum, tabulate};
ghost use Rattle.edge.specs.Uses.{turned};
ghost use Rattle.listing.specs.OfParts.{of_parts};
ghost use Rattle.listing.specs.Parts.{face_start, part_at, Shows, turned_uses};

use face::FaceID;
use words::sum_of;

// A use turned: the same edge the other way.
fn turn(u: u16) -> u16
    ensures { result ≡ turned u }
{
    if 32768 <= u {
        return u - 32768;
    }
    u + 32768
}

// Writes the uses of a wire from `at` on, the last first, each turned.
pub fn put_turned(out: &mut [u16], at: usize, wire: &[u16])
    requires { at + length wire.now ≤ length out.old }
    ensures { out.new ≡ sets out.old at (map turned (reverse wire.now)) }
{
    for i in 0..wire.len() {
        out[at + i] = turn(wire[wire.len() - 1 - i]);
    }
}

// Writes the uses of each wire in reverse order and turned, wire after wire.
pub fn put_turned_uses(uses: &[u16], wires: &[u16], out: &mut [u16])
    requires { (length uses.now ≤ 4096) × (length wires.now ≤ 1024) × (sum wires.now ≡ length uses.now) × (out.old ≡ replicate 4096 0) }
    ensures { out.new ≡ padded 4096 0 (turned_uses wires.now uses.now) }
{
    let mut at: usize = 0;
    for &n in wires {
        let n = usize::from(n);
        put_turned(out, at, &uses[at..at + n]);
        at += n;
    }
}

// Writes where the uses of each face begin, and where the last one's end. `counts` has the faces' numbers
// of wires, `wires` the wires' lengths.
pub fn put_face_starts(wires: &[u16], counts: &[u16], out: &mut [usize])
    requires { (length counts.now ≤ 256) × (sum counts.now ≡ length wires.now) × (length wires.now ≤ 1024) × (out.old ≡ replicate 257 0) }
    ensures { out.new ≡ padded 257 0 (tabulate (suc (length counts.now)) (face_start counts.now wires.now)) }
{
    let mut at: usize = 0;
    let mut start: usize = 0;
    for (k, &m) in counts.iter().enumerate() {
        out[k] = start;
        let m = usize::from(m);
        start += sum_of(&wires[at..at + m]);
        at += m;
    }
    out[counts.len()] = start;
}

// What listings show, in columns: the uses of all faces one after the other, and those that the faces show
// reversed; `starts` says where those of each face begin in both. Or the same for the lengths of the wires,
// where one column serves both ways.
#[derive(Clone, Copy)]
pub struct Parts<'a> {
    pub along: &'a [u16],
    pub back: &'a [u16],
    pub starts: &'a [usize],
}

impl<'a> Parts<'a> {
    // What listing l shows.
    pub fn part(&self, l: u16) -> &'a [u16]
        requires { of_parts Shows self.now l }
        ensures { result.now ≡ of_parts part_at self.now l }
    {
        let face = FaceID::of_listing(l);
        let f = usize::from(face.0);
        let column = if 32768 <= l { self.back } else { self.along };
        &column[self.starts[f]..self.starts[f + 1]]
    }
}
