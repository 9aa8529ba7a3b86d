// The joining of two uses as a call on a pattern file in memory: the edited file is written to a lent
// slice, and the file stays as it is.
#![tactic(auto)]

ghost use Rattle.std.specs.Prelude.{◌≡◌};
ghost use Rattle.file_concat.specs.FileConcat.{file_concat, file_concat_bytes};

use answers::{Answer, put_edited, unread};
use concat::concat;
use store::{SPANS, TABLES};
use store_read::load;

// Joins uses u and v to a new edge.
pub fn file_concat(file: &[u8], u: u16, v: u16, out: &mut [u8]) -> Answer
    ensures value { result ≡ file_concat file.now u v out.old }
    ensures out_after { out.new ≡ file_concat_bytes file.now u v out.old }
{
    let mut t = [0u16; TABLES];
    let mut spans = [0.0; SPANS];
    match load(file, &mut t, &mut spans) {
        Err(f) => unread(f),
        Ok(()) => {
            let joined = concat(&mut t, &mut spans, u, v);
            put_edited(joined, &t, &spans, out)
        }
    }
}
