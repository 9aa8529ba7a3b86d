// A pattern file as text that people can read.
#![tactic(auto)]

ghost use Rattle.std.specs.Prelude.{◌≡◌, true, [], ℕ, ◌+◌, ◌*◌, ◌<◌, ◌≤◌, length};
ghost use Rattle.std.proofs.lemmas.List.Edits.{sets};
ghost use Rattle.edge.specs.Edges.{is_span};
ghost use Rattle.lists.specs.Lists.{flat, tabulate};
ghost use Rattle.pattern.specs.Checks.{pattern_faults};
ghost use Rattle.pattern.specs.Contents.{content};
ghost use Rattle.show_text.specs.PatternText.{file_text, pattern_text};
ghost use Rattle.show_text.specs.StoreText.{Faced, Shelled, edge_held, face_held, point_held, shell_held};
ghost use Rattle.store.specs.Store.{edge_in, held};

use draft_parts::is_bare;
use output::{put_refusal, put_text};
use show_lines::{put_edge, put_face, put_point, put_shell};
use store::{
    SPANS, Spans, TABLES, Tables, counts_in, edge_in, face_in, label_in, listings_in, shells_in,
    tables_known, uses_in, wires_in,
};
use store_read::read;
use words::sum_of;

// Writes the lines of the first n points.
fn put_points(t: &Tables, n: usize, out: &mut [u8], at: usize) -> usize
    requires { (n ≤ 2048) × (at + 40 * n ≤ length out.old) }
    ensures { (out.new ≡ sets out.old at (flat (tabulate n (point_held t.now)))) × (result ≡ at + length (flat (tabulate n (point_held t.now)))) × (result ≤ at + 40 * n) }
{
    let mut end = at;
    for k in 0..n {
        end = put_point(out, end, k, label_in(t, k));
    }
    end
}

// Writes the lines of the first n edges, which have spans.
fn put_edges(t: &Tables, spans: &Spans, n: usize, out: &mut [u8], at: usize) -> usize
    requires n_bound { (n ≤ 1024) × (at + 96 * n ≤ length out.old) }
    requires by_index { (k : ℕ) → k < n → is_span (edge_in t.now spans.now k).curve ≡ true }
    ensures { (out.new ≡ sets out.old at (flat (tabulate n (edge_held t.now spans.now)))) × (result ≡ at + length (flat (tabulate n (edge_held t.now spans.now)))) × (result ≤ at + 96 * n) }
{
    let mut end = at;
    for k in 0..n {
        let e = edge_in(t, spans, k);
        end = put_edge(
            out,
            end,
            k,
            e.front.0,
            e.back.0,
            f64::to_bits(e.curve.t0),
            f64::to_bits(e.curve.t1),
        );
    }
    end
}

// Writes the lines of the first n faces.
fn put_faces(t: &Tables, n: usize, out: &mut [u8], at: usize) -> usize
    requires { Faced t.now n × (at + 44032 ≤ length out.old) }
    ensures { (out.new ≡ sets out.old at (flat (tabulate n (face_held t.now n)))) × (result ≡ at + length (flat (tabulate n (face_held t.now n)))) × (result ≤ at + 44032) }
{
    tables_known(t);
    let uses = uses_in(t);
    let wires = wires_in(t);
    let mut end = at;
    let mut wire: usize = 0;
    let mut first: usize = 0;
    for k in 0..n {
        let face = face_in(t, k);
        let last = wire + usize::from(face.wires);
        let lens = &wires[wire..last];
        let m = sum_of(lens);
        end = put_face(out, end, k, face.surface, &uses[first..first + m], lens);
        wire = last;
        first += m;
    }
    end
}

// Writes the lines of the first n shells.
fn put_shells(t: &Tables, n: usize, out: &mut [u8], at: usize) -> usize
    requires { Shelled t.now n × (at + 4224 ≤ length out.old) }
    ensures { (out.new ≡ sets out.old at (flat (tabulate n (shell_held t.now n)))) × (result ≡ at + length (flat (tabulate n (shell_held t.now n)))) }
{
    tables_known(t);
    let shells = shells_in(t);
    let listings = listings_in(t);
    let mut end = at;
    let mut first: usize = 0;
    for (k, count) in shells[..n].iter().enumerate() {
        let m = usize::from(*count);
        end = put_shell(out, end, k, &listings[first..first + m]);
        first += m;
    }
    end
}

// Writes the lines of an accepted pattern, or the one that says that there are none.
fn put_pattern(t: &Tables, spans: &Spans, out: &mut [u8]) -> usize
    requires { (pattern_faults (held t.now spans.now) ≡ []) × (228480 ≤ length out.old) }
    ensures { (out.new ≡ sets out.old 0 (pattern_text (content (held t.now spans.now)))) × (result ≡ length (pattern_text (content (held t.now spans.now)))) }
{
    tables_known(t);
    let counts = counts_in(t);
    if is_bare(counts) {
        return put_text(out, 0, b"empty\n");
    }
    let mut at = put_points(t, counts[0], out, 0);
    at = put_edges(t, spans, counts[1], out, at);
    at = put_faces(t, counts[4], out, at);
    put_shells(t, counts[5], out, at)
}

// Writes the text of a pattern file, or the line of its refusal, and returns its length.
pub fn show(file: &[u8], text: &mut [u8; 262144]) -> usize
    ensures { (text.new ≡ sets text.old 0 (file_text file.now)) × (result ≡ length (file_text file.now)) }
{
    let mut t = [0u16; TABLES];
    let mut spans = [0.0; SPANS];
    match read(file, &mut t, &mut spans) {
        Err(f) => put_refusal(f, text),
        Ok(()) => put_pattern(&t, &spans, text),
    }
}
