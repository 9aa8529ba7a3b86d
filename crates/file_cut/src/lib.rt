// The cut of an edge as a call on a pattern file in memory: the edited file is written to a lent
// slice, and the file stays as it is.
#![tactic(auto)]

ghost use Rattle.std.specs.Prelude.{◌≡◌};
ghost use Rattle.file_cut.specs.FileCut.{file_cut, file_cut_bytes};

use answers::{Answer, put_edited, unread};
use curve::parameter_of;
use cut_edge::cut_edge;
use edge::EdgeID;
use store::{SPANS, TABLES};
use store_read::load;
use vertex::VertexID;

// Cuts edge e of shell n at point v, where the search put it: `bits` are those of the parameter.
pub fn file_cut(file: &[u8], n: usize, e: u16, v: u16, bits: u64, out: &mut [u8]) -> Answer
    ensures value { result ≡ file_cut file.now n e v bits out.old }
    ensures out_after { out.new ≡ file_cut_bytes file.now n e v bits out.old }
{
    let mut t = [0u16; TABLES];
    let mut spans = [0.0; SPANS];
    match load(file, &mut t, &mut spans) {
        Err(f) => unread(f),
        Ok(()) => {
            let cut = cut_edge(
                &mut t,
                &mut spans,
                n,
                EdgeID(e),
                VertexID(v),
                parameter_of(bits),
            );
            put_edited(cut, &t, &spans, out)
        }
    }
}
