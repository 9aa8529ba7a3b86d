// The columns that are derived of a pattern in the store: its uses turned, where each face's uses and
// wires begin, where each shell's listings begin. They are made once; the reports on shells are lent
// them with the store.
#![tactic(auto)]

ghost use Rattle.std.specs.Prelude.{◌≡◌, ◌<◌, ◌≤◌, suc, ℕ, get_or, length, replicate, take};
ghost use Rattle.lists.specs.Lists.{padded, sum, tabulate};
ghost use Rattle.columns.specs.Columns.{Made};
ghost use Rattle.columns.specs.Sound.{Faultless};
ghost use Rattle.columns.specs.Underived.{underived};
ghost use Rattle.store.specs.Store.{use_table};

use listing::{Parts, put_face_starts, put_turned_uses};
use store::{Tables, listings_in, lists_in, tables_known, uses_in};

// The numbers of a slice have 16 bits, which a read of one tells.
fn short_known(s: &[u16]) -> u16
    requires { 0 < length s.now }
    ensures { (k : ℕ) → get_or s.now k 0 < 65536 }
{
    s[0]
}

// Writes where the wires of each face begin, and where the last one's end; or the listings of shells.
fn put_firsts(counts: &[u16], out: &mut [usize])
    requires { (length counts.now ≤ 256) × (out.old ≡ replicate 257 0) }
    ensures { out.new ≡ padded 257 0 (tabulate (suc (length counts.now)) (λ (f : ℕ). sum (take f counts.now))) }
{
    let mut at: usize = 0;
    for (k, &n) in counts.iter().enumerate() {
        out[k] = at;
        at += usize::from(n);
    }
    out[counts.len()] = at;
}

// The lists that are derived of a pattern: its uses turned, where the uses and the wires of each face
// begin, and the listings of each shell.
#[derive(Clone, Copy)]
pub struct Derived {
    pub turned: [u16; 4096],
    pub starts: [usize; 257],
    pub firsts: [usize; 257],
    pub places: [usize; 257],
}

impl Derived {
    // Room for them.
    pub fn new() -> Derived
        ensures { result ≡ underived }
    {
        Derived {
            turned: [0; 4096],
            starts: [0; 257],
            firsts: [0; 257],
            places: [0; 257],
        }
    }

    // Derives them of a pattern.
    pub fn put(&mut self, t: &Tables)
        requires faultless { Faultless t.now }
        requires self_underived { self.old ≡ underived }
        ensures { Made t.now self.new.turned self.new.starts self.new.firsts self.new.places }
    {
        tables_known(t);
        short_known(uses_in(t));
        short_known(listings_in(t));
        let lists = lists_in(t);
        put_turned_uses(lists.uses, lists.wires, &mut self.turned);
        put_face_starts(lists.wires, lists.faces, &mut self.starts);
        put_firsts(lists.faces, &mut self.firsts);
        put_firsts(lists.shells, &mut self.places);
    }
}

// The columns of a pattern without fault in the store: its tables, and what is derived of them. These lists
// are lent: moved into the struct they were copied twice, a sixth of a small report's time.
#[derive(Clone, Copy)]
pub struct Columns<'a> {
    pub t: &'a Tables,
    pub derived: &'a Derived,
    ghost made: { Made t.now derived.now.turned derived.now.starts derived.now.firsts derived.now.places },
}

impl<'a> Columns<'a> {
    // What listings show of the uses.
    pub fn parts(&self) -> Parts<'a>
        ensures { (result.along.now ≡ use_table self.now.t.now) × (result.back.now ≡ self.now.derived.now.turned) × (result.starts.now ≡ self.now.derived.now.starts) }
    {
        Parts {
            along: uses_in(self.t),
            back: &self.derived.turned,
            starts: &self.derived.starts,
        }
    }
}
