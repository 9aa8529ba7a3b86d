// The adding of a point as a call on a pattern file in memory: the edited file is written to a lent
// slice, and the file stays as it is.
#![tactic(auto)]

ghost use Rattle.std.specs.Prelude.{◌≡◌};
ghost use Rattle.file_vertex.specs.FileVertex.{file_vertex, file_vertex_bytes};

use add_vertex::add_vertex;
use answers::{Answer, put_edited, unread};
use store::{SPANS, TABLES};
use store_read::load;

// Adds a point with this label.
pub fn file_add_vertex(file: &[u8], label: usize, out: &mut [u8]) -> Answer
    ensures value { result ≡ file_vertex file.now label out.old }
    ensures out_after { out.new ≡ file_vertex_bytes file.now label out.old }
{
    let mut t = [0u16; TABLES];
    let mut spans = [0.0; SPANS];
    match load(file, &mut t, &mut spans) {
        Err(f) => unread(f),
        Ok(()) => {
            let added = add_vertex(&mut t, &spans, label);
            put_edited(added, &t, &spans, out)
        }
    }
}
