// Reads a Wavefront OBJ mesh on standard input, piece by piece, to its end, and writes the pattern file of it. Where the
// mesh is refused, the line of the refusal goes to standard error, and nothing is written.
#![tactic(auto)]

use mesh_edges::{INDEX, Index};
use mesh_read::step;
use mesh_words::Reader;
use pattern::LONGEST;
use std::io::Read;
use store::{SPANS, Spans, TABLES, Tables};

// Reads the mesh, if its bytes can be read to the end.
fn take_in(
    rt: &HostRuntime,
    piece: &mut [u8],
    t: &mut Tables,
    spans: &mut Spans,
    index: &mut Index,
) -> Option<Reader> {
    let mut reader = Reader::new();
    for _ in 0..u64::MAX {
        match rt.stdin().read(piece) {
            Ok(0) => {
                return Some(reader);
            }
            Ok(n) => {
                reader = step(reader, &piece[..n], t, spans, index);
            }
            Err(e) => {
                console::fail(rt, b"import: standard input", e);
                return None;
            }
        }
    }
    None
}

fn main(rt: HostRuntime) {
    if !console::is_alone(
        &rt,
        b"import: standard output",
        b"usage: import < MESH > FILE\nreads a Wavefront OBJ mesh and writes its pattern file, or says why it is refused\n",
    ) {
        return;
    }
    let mut t = [0u16; TABLES];
    let mut spans = [0.0; SPANS];
    let mut index = [0u16; INDEX];
    let mut piece = [0u8; 16384];
    let Some(reader) = take_in(&rt, &mut piece, &mut t, &mut spans, &mut index) else {
        return;
    };
    let mut file = [0u8; LONGEST];
    let end = mesh_file::finish(reader, &mut t, &mut spans, &mut index, &mut file);
    match end.answer {
        Ok(n) => {
            if let Err(e) = console::print_first(&rt, &file, n) {
                console::fail(&rt, b"import: standard output", e);
            }
        }
        other => {
            let mut line = [0u8; 96];
            let length = mesh_answers::put_import(other, &mut line);
            let _ = rt.stderr().write_all(&line[..length]);
        }
    }
}
