// The wires of a shell, for its edits: which of the wires in storage are its own, and whether it
// shares a face with another shell. Faces are marked first, then their wires.
#![tactic(auto)]

ghost use Rattle.std.specs.Prelude.{◌≡◌, false, map, ◌++◌, ◌+◌, ◌<◌, ◌≤◌, ℕ, drop, length, replicate, take};
ghost use Rattle.std.proofs.lemmas.List.Edits.{sets};
ghost use Rattle.lists.specs.Lists.{has, padded, sum, tabulate};
ghost use Rattle.shell.specs.Shells.{face_number};
ghost use Rattle.shell_wires.specs.Flags.{NameFaces, lists_flagged, wire_flags};
ghost use Rattle.shell_wires.specs.Lent.{Listed};
ghost use Rattle.shell_wires.specs.ShellWires.{marks_of};
ghost use Rattle.pattern.specs.Contents.{Pattern};

use pattern::Lists;
use words::sum_of;

// Which wires a shell has, and whether another shell lists one of its faces.
#[derive(Clone, Copy)]
pub struct Marks {
    pub shared: bool,
    pub wires: [bool; 1024],
}

// A flag for each face that is listed.
fn face_flags(listings: &[u16]) -> [bool; 256]
    requires { NameFaces listings.now }
    ensures { result ≡ tabulate 256 (λ (f : ℕ). has f (map face_number listings.now)) }
{
    let mut out = [false; 256];
    for &l in listings {
        out[usize::from(l % 32768)] = true;
    }
    out
}

// Whether a face with a flag is listed.
fn lists_flagged(listings: &[u16], flags: &[bool]) -> bool
    requires name_faces { NameFaces listings.now }
    requires flags_len { length flags.now ≡ 256 }
    ensures { result ≡ lists_flagged flags.now listings.now }
{
    for &l in listings {
        if flags[usize::from(l % 32768)] {
            return true;
        }
    }
    false
}

// Whether a face with a flag is listed, the listings from `first` to `end` left out.
fn lists_outside(listings: &[u16], first: usize, end: usize, flags: &[bool]) -> bool
    requires first_le_end { (first ≤ end) × (end ≤ length listings.now) }
    requires name_faces { NameFaces listings.now }
    requires flags_len { length flags.now ≡ 256 }
    ensures { result ≡ lists_flagged flags.now (take first listings.now ++ drop end listings.now) }
{
    lists_flagged(&listings[..first], flags) || lists_flagged(&listings[end..], flags)
}

// Writes a flag n times from `at` on.
fn put_flags(out: &mut [bool], at: usize, n: usize, flag: bool)
    requires { at + n ≤ length out.old }
    ensures { out.new ≡ sets out.old at (replicate n flag) }
{
    out[at..at + n].fill(flag);
}

// The flag of each face, once for each of its wires; `counts` has the faces' numbers of wires. The rest is false.
fn wire_flags(flags: &[bool], counts: &[u16]) -> [bool; 1024]
    requires { (length counts.now ≤ length flags.now) × (sum counts.now ≤ 1024) }
    ensures { result ≡ padded 1024 false (wire_flags flags.now counts.now) }
{
    let mut out = [false; 1024];
    let mut at: usize = 0;
    for (f, count) in counts.iter().enumerate() {
        let n = usize::from(*count);
        put_flags(&mut out, at, n, flags[f]);
        at += n;
    }
    out
}

// The wires of shell n, from the lists of faces, shells and listings of a pattern without fault.
pub fn mark_wires(lists: &Lists, n: usize) -> Marks
    requires listed { (p : Pattern) × Listed p lists.now }
    requires n_bound { n < length lists.now.shells.now }
    ensures { (p : Pattern) → Listed p lists.now → result ≡ marks_of p n }
{
    let listings = lists.listings;
    let first = sum_of(&lists.shells[..n]);
    let end = first + usize::from(lists.shells[n]);
    let flags = face_flags(&listings[first..end]);
    let shared = lists_outside(listings, first, end, &flags);
    let wires = wire_flags(&flags, lists.faces);
    Marks { shared, wires }
}
