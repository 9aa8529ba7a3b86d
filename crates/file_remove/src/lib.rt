// The removal of a point as a call on a pattern file in memory: the edited file is written to a lent
// slice, and the file stays as it is.
#![tactic(auto)]

ghost use Rattle.std.specs.Prelude.{◌≡◌};
ghost use Rattle.file_remove.specs.FileRemove.{file_remove, file_remove_bytes};

use answers::{Answer, put_edited, unread};
use remove_vertex::remove_vertex_by_concat_edges;
use store::{SPANS, TABLES};
use store_read::load;
use vertex::VertexID;

// Removes point v of shell n.
pub fn file_remove(file: &[u8], n: usize, v: u16, out: &mut [u8]) -> Answer
    ensures value { result ≡ file_remove file.now n v out.old }
    ensures out_after { out.new ≡ file_remove_bytes file.now n v out.old }
{
    let mut t = [0u16; TABLES];
    let mut spans = [0.0; SPANS];
    match load(file, &mut t, &mut spans) {
        Err(f) => unread(f),
        Ok(()) => {
            let joined = remove_vertex_by_concat_edges(&mut t, &mut spans, n, VertexID(v));
            put_edited(joined, &t, &spans, out)
        }
    }
}
