// A fresh point, appended (the Rust's vertex.rs, `Vertex::new`).
#![tactic(auto)]

ghost use Rattle.std.specs.Prelude.{◌≡◌, []};
ghost use Rattle.pattern.specs.Checks.{pattern_faults};
ghost use Rattle.shell_edits.specs.Answers.{after_vertex, vertex_answer};
ghost use Rattle.store.specs.Store.{held};

use edit_answers::EditError;
use errors::CallError;
use store::{Spans, Tables, counts_in, store_count, store_label, tables_known};
use store_check::check;
use vertex::VertexID;

// Appends a point with this label: 3, 17. Refused, the pattern is as it was. An accepted pattern stays
// so.
pub fn add_vertex(
    t: &mut Tables,
    spans: &Spans,
    label: usize,
) -> Result<VertexID, CallError<EditError>>
    ensures value { result ≡ vertex_answer (held t.old spans.now) label }
    ensures spans_after { held t.new spans.now ≡ after_vertex (held t.old spans.now) label }
    ensures spans_after_2 { pattern_faults (held t.old spans.now) ≡ [] → pattern_faults (held t.new spans.now) ≡ [] }
{
    tables_known(t);
    check(t, spans)?;
    if label >= 4294967296 {
        return Err(CallError::Refused(EditError::Unnamed));
    }
    let counts = counts_in(t);
    let n = counts[0];
    if n >= 2048 {
        return Err(CallError::Refused(EditError::NoSpace));
    }
    store_label(t, n, label as u32);
    store_count(t, 0, (n + 1) as u16);
    Ok(VertexID(n as u16))
}
