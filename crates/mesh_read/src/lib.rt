// The bytes of a mesh, piece by piece.
#![tactic(auto)]

ghost use Rattle.std.specs.Prelude.{◌≡◌, ℕ, suc, ◌+◌, ◌%◌, ◌<◌, ◌≤◌, List, [], ◌++◌, length, drop};
ghost use Rattle.mesh.specs.Mesh.{Mesh};
ghost use Rattle.mesh.specs.Reading.{State, byte, close_face, end_line, start};
ghost use Rattle.mesh_draw.specs.Kept.{Kept};
ghost use Rattle.mesh_read.specs.Pieces.{HasRead};
ghost use Rattle.mesh_read.specs.Runs.{is_break, stops};
ghost use Rattle.mesh_words.specs.Following.{Follows};
ghost use Rattle.pattern.specs.Contents.{Pattern};
ghost use Rattle.store.specs.Store.{held};
ghost use Rattle.text.specs.Text.{before};

use mesh::LineFault;
use mesh_draw::{add_face, add_side};
use mesh_edges::Index;
use mesh_words::{Place, Reader};
use store::{Spans, Tables};
use text::line_end;

// At the start of the next line.
fn fresh(mut r: Reader) -> Reader
    ensures { (n : ℕ) (m : Mesh) (p : Pattern) (index : List ℕ) → r.line ≡ n % 18446744073709551616 → Kept m [] r.filled p index → Follows (start (suc n) m) result p index }
{
    r.line = r.line.wrapping_add(1);
    r.place = Place::Start;
    r.held = false;
    r.length = 0;
    r.slashed = false;
    r.corners = 0;
    r
}

// The face that was read is closed and added.
fn close_face(mut r: Reader, t: &mut Tables, spans: &mut Spans, index: &mut Index) -> Reader
    ensures { (st : State) → Follows st r (held t.old spans.old) index.old → st.place < 30 → 0 < st.face.corners → Follows (start (suc st.line) (close_face st)) result (held t.new spans.new) index.new }
{
    let g = add_side(r.filled, r.last, r.first, t, spans, index);
    r.filled = add_face(g, t);
    fresh(r)
}

// A line has ended.
pub fn end_line(from: Reader, t: &mut Tables, spans: &mut Spans, index: &mut Index) -> Reader
    ensures { (st : State) → Follows st from (held t.old spans.old) index.old → Follows (end_line st) result (held t.new spans.new) index.new }
{
    let mut r = from.end_word(t, spans, index);
    if let Some(_) = r.place.fault() {
        return r;
    }
    match r.place {
        Place::Between => {
            if r.corners < 3 {
                r.place = Place::Refused(LineFault::TooFew);
                return r;
            }
            close_face(r, t, spans, index)
        }
        _ => fresh(r),
    }
}

// A byte of the mesh.
fn byte(from: Reader, b: u8, t: &mut Tables, spans: &mut Spans, index: &mut Index) -> Reader
    ensures { (st : State) → Follows st from (held t.old spans.old) index.old → Follows (byte b st) result (held t.new spans.new) index.new }
{
    if let Some(_) = from.place.fault() {
        return from;
    }
    if b == b'\n' {
        return end_line(from, t, spans, index);
    }
    if let Place::Rest = from.place {
        return from;
    }
    let mut r = from.release();
    if b == b'\r' {
        r.held = true;
        return r;
    }
    if b == b' ' {
        return r.end_word(t, spans, index);
    }
    if b == b'\t' {
        return r.end_word(t, spans, index);
    }
    r.ink(b)
}

fn is_break(b: u8) -> bool
    ensures { result ≡ is_break b }
{
    b == b' ' || b == b'\t' || b == b'\n' || b == b'\r'
}

// Where the bytes of a word end.
fn ink_end(text: &[u8], from: usize) -> usize
    requires { from ≤ length text.now }
    ensures { (result ≡ from + length (before is_break (drop from text.now))) × (result ≤ length text.now) }
{
    match text[from..].iter().position(|b| is_break(*b)) {
        Some(n) => from + n,
        None => text.len(),
    }
}

// Where the bytes end that are put to a word in one run: none while a carriage return is held back.
fn run_end(held: bool, text: &[u8], from: usize) -> usize
    requires { from ≤ length text.now }
    ensures { (result ≡ from + length (before (stops held) (drop from text.now))) × (result ≤ length text.now) }
{
    if held {
        return from;
    }
    ink_end(text, from)
}

// A piece of the mesh.
pub fn step(
    mut r: Reader,
    piece: &[u8],
    t: &mut Tables,
    spans: &mut Spans,
    index: &mut Index,
) -> Reader
    ensures { (s : List ℕ) → HasRead s r (held t.old spans.old) index.old → HasRead (s ++ piece.now) result (held t.new spans.new) index.new }
{
    let mut i: usize = 0;
    // No `for`: each turn takes a whole run of bytes, and the byte that ends it.
    while i < piece.len() {
        if let Some(_) = r.place.fault() {
            return r;
        }
        let e = match r.place {
            Place::Rest => line_end(piece, i),
            _ => {
                let end = run_end(r.held, piece, i);
                r = r.ink_all(&piece[i..end]);
                end
            }
        };
        if e >= piece.len() {
            return r;
        }
        r = byte(r, piece[e], t, spans, index);
        i = e + 1;
    }
    r
}
