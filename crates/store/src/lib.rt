// The store of a pattern: one array for all that has 16 bits, each table at its place, and the ends of
// the curves beside it. A label stands in two places, the lower half first.
#![tactic(auto)]

ghost use Rattle.std.specs.Prelude.{◌≡◌, [], List, ◌+◌, ◌<◌, ◌≤◌, Float, length, set};
ghost use Rattle.std.proofs.lemmas.List.Edits.{sets};
ghost use Rattle.store.specs.Store.{count_table, edge_in, face_in, held, label_in, listing_table, shell_table, use_table, wire_table};
ghost use Rattle.pattern.specs.Checks.{count_faults};
ghost use Rattle.store.specs.Columns.{back_table, counted, face_table, front_table, with_counts, with_edges, with_faces, with_points, with_uses, with_wires};

use edge::{Curve, Edge, Ends};
use face::Face;
use pattern::{Counts, Lists};
use vertex::VertexID;

// Where each table begins; the counts stand from 0 on.
pub const FRONTS: usize = 8;

pub const BACKS: usize = 1032;

pub const USES: usize = 2056;

pub const WIRES: usize = 6152;

pub const FACES: usize = 7176;

pub const SURFACES: usize = 7432;

pub const SHELLS: usize = 7688;

pub const LISTINGS: usize = 7704;

pub const LABELS: usize = 8216;

// All tables, one after the other.
pub const TABLES: usize = 12312;

pub type Tables = [u16; TABLES];

// t0 and t1 of each edge.
pub const SPANS: usize = 2048;

pub type Spans = [f64; SPANS];

// The lengths of the arrays, which a reference to an array does not tell by itself.
pub fn tables_known(t: &Tables) -> usize
    ensures { length t.now ≡ 12312 }
{
    let s: &[u16] = t;
    s.len()
}

pub fn spans_known(spans: &Spans) -> usize
    ensures { length spans.now ≡ 2048 }
{
    let s: &[f64] = spans;
    s.len()
}

pub fn counts_in(t: &Tables) -> Counts
    ensures { result ≡ count_table t.now }
{
    tables_known(t);
    [
        usize::from(t[0]),
        usize::from(t[1]),
        usize::from(t[2]),
        usize::from(t[3]),
        usize::from(t[4]),
        usize::from(t[5]),
        usize::from(t[6]),
    ]
}

// The ends of all edges for which there is place.
pub fn ends_in(t: &Tables) -> Ends<'_>
    ensures { (result.fronts.now ≡ front_table t.now) × (result.backs.now ≡ back_table t.now) }
{
    let s: &[u16] = t;
    Ends {
        fronts: &s[FRONTS..BACKS],
        backs: &s[BACKS..USES],
    }
}

pub fn uses_in(t: &Tables) -> &[u16]
    ensures { result.now ≡ use_table t.now }
{
    let s: &[u16] = t;
    &s[USES..WIRES]
}

pub fn wires_in(t: &Tables) -> &[u16]
    ensures { result.now ≡ wire_table t.now }
{
    let s: &[u16] = t;
    &s[WIRES..FACES]
}

// The faces' numbers of wires.
pub fn faces_in(t: &Tables) -> &[u16]
    ensures { result.now ≡ face_table t.now }
{
    let s: &[u16] = t;
    &s[FACES..SURFACES]
}

pub fn shells_in(t: &Tables) -> &[u16]
    ensures { result.now ≡ shell_table t.now }
{
    let s: &[u16] = t;
    &s[SHELLS..LISTINGS]
}

pub fn listings_in(t: &Tables) -> &[u16]
    ensures { result.now ≡ listing_table t.now }
{
    let s: &[u16] = t;
    &s[LISTINGS..LABELS]
}

// The lists of the pattern, each as long as its count.
pub fn lists_in(t: &Tables) -> Lists<'_>
    requires { count_faults (count_table t.now) ≡ [] }
    ensures ends { (result.ends.fronts.now ≡ counted 1 front_table t.now) × (result.ends.backs.now ≡ counted 1 back_table t.now) }
    ensures uses { result.uses.now ≡ counted 2 use_table t.now }
    ensures wires { result.wires.now ≡ counted 3 wire_table t.now }
    ensures faces { result.faces.now ≡ counted 4 face_table t.now }
    ensures shells { result.shells.now ≡ counted 5 shell_table t.now }
    ensures listings { result.listings.now ≡ counted 6 listing_table t.now }
{
    tables_known(t);
    let counts = counts_in(t);
    let ends = ends_in(t);
    Lists {
        ends: Ends {
            fronts: &ends.fronts[..counts[1]],
            backs: &ends.backs[..counts[1]],
        },
        uses: &uses_in(t)[..counts[2]],
        wires: &wires_in(t)[..counts[3]],
        faces: &faces_in(t)[..counts[4]],
        shells: &shells_in(t)[..counts[5]],
        listings: &listings_in(t)[..counts[6]],
    }
}

// Point k.
pub fn label_in(t: &Tables, k: usize) -> u32
    requires { k < 2048 }
    ensures { result ≡ label_in t.now k }
{
    tables_known(t);
    let low = u32::from(t[LABELS + 2 * k]);
    let high = u32::from(t[LABELS + 1 + 2 * k]);
    low + high * 65536
}

// Edge k.
pub fn edge_in(t: &Tables, spans: &Spans, k: usize) -> Edge
    requires { k < 1024 }
    ensures { result ≡ edge_in t.now spans.now k }
{
    let curve = Curve {
        t0: spans[2 * k],
        t1: spans[2 * k + 1],
    };
    Edge::new_unchecked(VertexID(t[FRONTS + k]), VertexID(t[BACKS + k]), curve)
}

// Face k.
pub fn face_in(t: &Tables, k: usize) -> Face
    requires { k < 256 }
    ensures { result ≡ face_in t.now k }
{
    Face {
        wires: t[FACES + k],
        surface: t[SURFACES + k],
    }
}

// Stores the count of body b.
pub fn store_count(t: &mut Tables, b: usize, n: u16)
    requires { b < 7 }
    ensures { (spans : List Float) → held t.new spans ≡ with_counts (held t.old spans) (set (held t.old spans).counts b n) }
{
    tables_known(t);
    t[b] = n;
}

// Stores point k.
pub fn store_label(t: &mut Tables, k: usize, label: u32)
    requires { k < 2048 }
    ensures { (spans : List Float) → held t.new spans ≡ with_points (held t.old spans) (set (held t.old spans).points k label) }
{
    tables_known(t);
    t[LABELS + 2 * k] = (label % 65536) as u16;
    t[LABELS + 1 + 2 * k] = (label / 65536) as u16;
}

// Stores edge k.
pub fn store_edge(t: &mut Tables, spans: &mut Spans, k: usize, d: Edge)
    requires { k < 1024 }
    ensures { held t.new spans.new ≡ with_edges (held t.old spans.old) (set (held t.old spans.old).edges k d) }
{
    tables_known(t);
    spans_known(spans);
    t[FRONTS + k] = d.front.0;
    t[BACKS + k] = d.back.0;
    spans[2 * k] = d.curve.t0;
    spans[2 * k + 1] = d.curve.t1;
}

// Stores face k.
pub fn store_face(t: &mut Tables, k: usize, f: Face)
    requires { k < 256 }
    ensures { (spans : List Float) → held t.new spans ≡ with_faces (held t.old spans) (set (held t.old spans).faces k f) }
{
    tables_known(t);
    t[FACES + k] = f.wires;
    t[SURFACES + k] = f.surface;
}

// Stores numbers from `at` on.
fn store_numbers(t: &mut Tables, at: usize, from: &[u16])
    requires { at + length from.now ≤ 12312 }
    ensures { (length t.old ≡ 12312) × (t.new ≡ sets t.old at from.now) }
{
    tables_known(t);
    t[at..at + from.len()].copy_from_slice(from);
}

// Stores uses from place k on.
pub fn store_uses(t: &mut Tables, k: usize, from: &[u16])
    requires { k + length from.now ≤ 4096 }
    ensures { (spans : List Float) → held t.new spans ≡ with_uses (held t.old spans) (sets (held t.old spans).uses k from.now) }
{
    store_numbers(t, USES + k, from);
}

// Stores wires from place k on.
pub fn store_wires(t: &mut Tables, k: usize, from: &[u16])
    requires { k + length from.now ≤ 1024 }
    ensures { (spans : List Float) → held t.new spans ≡ with_wires (held t.old spans) (sets (held t.old spans).wires k from.now) }
{
    store_numbers(t, WIRES + k, from);
}
