// The lines of the records of a pattern file. Each function writes from `at` on, and returns the place
// after what it wrote.
#![tactic(auto)]

ghost use Rattle.std.specs.Prelude.{◌≡◌, ◌+◌, ◌*◌, ◌<◌, ◌≤◌, length};
ghost use Rattle.std.proofs.lemmas.List.Edits.{sets};
ghost use Rattle.lists.specs.Lists.{split, sum};
ghost use Rattle.show_lines.specs.PatternLines.{edge_line, face_line, point_line, shell_line};

use answer_lines::put_wires;
use decimals::put_real;
use lines::{put_items, put_number};
use output::{put_field, put_text};

// Writes the line of a point.
pub fn put_point(out: &mut [u8], at: usize, k: usize, label: u32) -> usize
    requires { (at + 40 ≤ length out.old) × (k < 65536) }
    ensures { (out.new ≡ sets out.old at (point_line k label)) × (result ≡ at + length (point_line k label)) × (result ≤ at + 40) }
{
    let end = put_field(out, at, b"point ", k);
    put_number(out, end, b" label ", label as usize)
}

// Writes the line of an edge.
pub fn put_edge(
    out: &mut [u8],
    at: usize,
    k: usize,
    front: u16,
    back: u16,
    t0: u64,
    t1: u64,
) -> usize
    requires { (at + 96 ≤ length out.old) × (k < 65536) }
    ensures { (out.new ≡ sets out.old at (edge_line k front back t0 t1)) × (result ≡ at + length (edge_line k front back t0 t1)) × (result ≤ at + 96) }
{
    let mut end = put_field(out, at, b"edge ", k);
    end = put_field(out, end, b" from ", usize::from(front));
    end = put_field(out, end, b" to ", usize::from(back));
    end = put_text(out, end, b" span ");
    end = put_real(out, end, t0);
    end = put_text(out, end, b" ");
    end = put_real(out, end, t1);
    put_text(out, end, b"\n")
}

// Writes the line of a face with these wires.
pub fn put_face(
    out: &mut [u8],
    at: usize,
    k: usize,
    surface: u16,
    us: &[u16],
    lens: &[u16],
) -> usize
    requires { (sum lens.now ≡ length us.now) × (k < 65536) × (at + 40 + 5 * length lens.now + 7 * length us.now ≤ length out.old) }
    ensures { (out.new ≡ sets out.old at (face_line k surface (split lens.now us.now))) × (result ≡ at + length (face_line k surface (split lens.now us.now))) × (result ≤ at + 40 + 5 * length lens.now + 7 * length us.now) }
{
    let mut end = put_field(out, at, b"face ", k);
    end = put_field(out, end, b" surface ", usize::from(surface));
    end = put_wires(out, end, us, lens);
    put_text(out, end, b"\n")
}

// Writes the line of a shell with these listings.
pub fn put_shell(out: &mut [u8], at: usize, k: usize, listings: &[u16]) -> usize
    requires { (k < 65536) × (at + 40 + 7 * length listings.now ≤ length out.old) }
    ensures { (out.new ≡ sets out.old at (shell_line k listings.now)) × (result ≡ at + length (shell_line k listings.now)) × (result ≤ at + 40 + 7 * length listings.now) }
{
    let mut end = put_field(out, at, b"shell ", k);
    end = put_text(out, end, b" faces");
    end = put_items(out, end, listings);
    put_text(out, end, b"\n")
}
