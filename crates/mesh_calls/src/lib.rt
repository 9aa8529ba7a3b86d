// The import of a mesh as calls, whole or piece by piece, with its answer in numbers.
#![tactic(auto)]

ghost use Rattle.std.specs.Prelude.{List, [], ◌++◌, ◌∷◌, ◌≡◌, ℕ};
ghost use Rattle.mesh.specs.Mesh.{imported, imported_in};
ghost use Rattle.mesh_answers.specs.ImportLines.{import_values};
ghost use Rattle.mesh_hold.specs.MeshTheorems.{ImportPromised};
ghost use Rattle.mesh_read.specs.Pieces.{HasRead};
ghost use Rattle.mesh_state.specs.State.{reader_in};
ghost use Rattle.pattern.specs.Contents.{Pattern};
ghost use Rattle.store.specs.Store.{held};

use answers::Answer;
use mesh_answers::import_values;
use mesh_edges::{Index, clear_index};
use mesh_file::{finish, import_mesh};
use mesh_read::step;
use mesh_state::{Numbers, put_reader, reader_in};
use mesh_words::Reader;
use store::{Spans, Tables};

// Writes the pattern file of a mesh in memory.
pub fn import_file(mesh: &[u8], out: &mut [u8]) -> Answer
    ensures value { (result ≡ import_values (imported mesh.now out.old)) × (out.new ≡ imported_in mesh.now out.old) }
    ensures import_promised { ImportPromised mesh.now }
{
    import_values(import_mesh(mesh, out))
}

// Before the first piece of a mesh. Any content of the lists is taken.
pub fn start_import(numbers: &mut Numbers, index: &mut Index)
    ensures { (p : Pattern) → HasRead [] (reader_in numbers.new) p index.new }
{
    clear_index(index);
    put_reader(Reader::new(), numbers);
}

// Reads a piece of a mesh.
pub fn step_import(
    numbers: &mut Numbers,
    t: &mut Tables,
    spans: &mut Spans,
    index: &mut Index,
    piece: &[u8],
)
    ensures { (s : List ℕ) → HasRead s (reader_in numbers.old) (held t.old spans.old) index.old → HasRead (s ++ piece.now) (reader_in numbers.new) (held t.new spans.new) index.new }
{
    let r = step(reader_in(numbers), piece, t, spans, index);
    put_reader(r, numbers);
}

// The mesh ends. Writes the pattern file of the mesh that was read.
pub fn finish_import(
    numbers: &mut Numbers,
    t: &mut Tables,
    spans: &mut Spans,
    index: &mut Index,
    out: &mut [u8],
) -> Answer
    ensures { (s : List ℕ) → HasRead s (reader_in numbers.old) (held t.old spans.old) index.old → (result ≡ import_values (imported s out.old)) × (out.new ≡ imported_in s out.old) × HasRead (s ++ (10 ∷ [])) (reader_in numbers.new) (held t.new spans.new) index.new }
{
    let end = finish(reader_in(numbers), t, spans, index, out);
    let r = end.reader;
    put_reader(r, numbers);
    let a = end.answer;
    import_values(a)
}
