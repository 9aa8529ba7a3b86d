// For each mesh that the arguments name, prints a line with its name, and then the pattern of it, as `show` prints that, or the
// line of its refusal. Each mesh is read whole, and in pieces of 1, 2, 3 and 7 bytes; where these give another answer or
// another file, a line says so.
#![tactic(auto)]

use errors::CallError;
use mesh::MeshError;
use mesh_edges::INDEX;
use mesh_file::{finish, import_mesh};
use mesh_read::step;
use mesh_words::Reader;
use pattern::LONGEST;
use std::io;
use store::{SPANS, TABLES};

// Reads a mesh in pieces of so many bytes, at least 1.
fn in_pieces(
    mesh: &[u8],
    size: usize,
    file: &mut [u8; LONGEST],
) -> Result<usize, CallError<MeshError>> {
    let mut t = [0u16; TABLES];
    let mut spans = [0.0; SPANS];
    let mut index = [0u16; INDEX];
    let mut reader = Reader::new();
    for piece in mesh.chunks(size.max(1)) {
        reader = step(reader, piece, &mut t, &mut spans, &mut index);
    }
    let end = finish(reader, &mut t, &mut spans, &mut index, file);
    end.answer
}

// Whether two answers have the same numbers.
fn same(a: Result<usize, CallError<MeshError>>, b: Result<usize, CallError<MeshError>>) -> bool {
    let x = mesh_answers::import_values(a);
    let y = mesh_answers::import_values(b);
    (x.outcome, x.number, x.first, x.second) == (y.outcome, y.number, y.first, y.second)
}

fn print_pattern(rt: &HostRuntime, file: &[u8]) -> io::Result<()> {
    let mut text = [0u8; 262144];
    let length = show_text::show(file, &mut text);
    console::print_first(rt, &text, length)
}

fn print_answer(
    rt: &HostRuntime,
    answer: Result<usize, CallError<MeshError>>,
    file: &[u8; LONGEST],
) -> io::Result<()> {
    match answer {
        Ok(n) => match file.get(..n) {
            Some(file) => print_pattern(rt, file),
            None => Ok(()),
        },
        other => {
            let mut line = [0u8; 96];
            let length = mesh_answers::put_import(other, &mut line);
            rt.write_all(&line[..length])
        }
    }
}

fn tell(rt: &HostRuntime, mesh: &[u8]) -> io::Result<()> {
    let mut file = [0u8; LONGEST];
    let whole = import_mesh(mesh, &mut file);
    print_answer(rt, whole, &file)?;
    for size in [1, 2, 3, 7] {
        let mut other = [0u8; LONGEST];
        let answer = in_pieces(mesh, size, &mut other);
        if !same(whole, answer) || file != other {
            println!(rt; "another answer in pieces of {size}")?;
        }
    }
    Ok(())
}

fn main(rt: HostRuntime) -> io::Result<()> {
    let mut mesh = [0u8; 131072];
    console::each_content(&rt, &mut mesh, |mesh| tell(&rt, mesh))
}
