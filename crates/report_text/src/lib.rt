// What `report` prints, as bytes: for every file its whole text.
#![tactic(auto)]

ghost use Rattle.std.specs.Prelude.{◌≡◌, ℕ, ◌+◌, ◌<◌, ◌≤◌, get_or, length};
ghost use Rattle.std.proofs.lemmas.List.Edits.{sets};
ghost use Rattle.columns.specs.Sound.{Faultless, OfTables};
ghost use Rattle.pattern.specs.Contents.{content};
ghost use Rattle.shell.specs.OpeningsHold.{OpeningsPromised};
ghost use Rattle.solid.specs.Solid.{solid_shell};
ghost use Rattle.store.specs.Store.{count_table};
ghost use Rattle.report_text.specs.Report.{report_of, ReportPromised, report_text, solid_text};
ghost use Rattle.report_text.specs.Texts.{Shelled};

use columns::{Columns, Derived};
use lines::{put_shell, put_solid};
use output::put_refusal;
use reports::{put_groups, put_openings};
use solid::{ShellError, SolidError, and_shell, check_shell};
use store::{SPANS, TABLES, Tables, counts_in};
use store_read::read;

// The place after the lines of a shell, and what is wrong with it.
#[derive(Clone, Copy)]
pub struct ShellText {
    pub at: usize,
    pub check: Result<(), ShellError>,
}

// Writes the lines of shell n from `at` on.
fn shell_text(columns: &Columns, n: usize, out: &mut [u8], at: usize) -> ShellText
    requires { (n < get_or (count_table columns.now.t.now) 5 0) × (at + 70300 ≤ length out.old) }
    ensures of_tables { OfTables columns.now.t.now (λ p. Shelled (content p) n out.old at out.new result) }
    ensures at_bound { result.at ≤ at + 70300 }
{
    let first = columns.derived.places[n];
    let end = columns.derived.places[n + 1];
    let mut walked = [0u16; 2048];
    let mut lens = [0u16; 2048];
    let mut pairs = [0u16; 512];
    let mut sizes = [0u16; 512];
    let mut corners = [0u16; 2048];
    let o = put_openings(columns, n, &mut walked, &mut lens);
    let g = put_groups(columns, n, &mut pairs, &mut sizes, &mut corners);
    let condition = o.condition;
    let used = o.used;
    let openings = o.openings;
    let connected = g.connected;
    let members = g.members;
    let components = g.components;
    let singular = g.singular;
    let after = put_shell(
        out,
        at,
        n,
        condition,
        connected,
        &walked[0..used],
        &lens[0..openings],
        o.lookups,
        &pairs[0..members],
        &sizes[0..components],
        &corners[0..singular],
    );
    ShellText {
        at: after,
        check: check_shell(end - first, connected, condition, singular),
    }
}

// Writes the line of a solid's answer from `at` on.
fn solid_text(out: &mut [u8], at: usize, a: Result<(), SolidError>) -> usize
    requires { (solid_shell a < 100) × (at + 64 ≤ length out.old) }
    ensures { (out.new ≡ sets out.old at (solid_text a)) × (result ≡ at + length (solid_text a)) }
{
    match a {
        Ok(()) => put_solid(out, at, true, 0, 0),
        Err(e) => put_solid(out, at, false, e.reason.number(), e.shell),
    }
}

// Writes the text of a pattern with these columns.
fn columns_text(columns: &Columns, out: &mut [u8]) -> usize
    requires { 1126400 ≤ length out.old }
    ensures of_tables { OfTables columns.now.t.now (λ p. (out.new ≡ sets out.old 0 (report_text (content p))) × (result ≡ length (report_text (content p)))) }
    ensures of_tables_2 { OfTables columns.now.t.now (λ p. (k : ℕ) → OpeningsPromised (content p) k) }
{
    let counts = counts_in(columns.t);
    let shells = counts[5];
    let mut solid = Ok(());
    let mut at: usize = 0;
    for n in 0..shells {
        let s = shell_text(columns, n, out, at);
        at = s.at;
        solid = and_shell(solid, n, s.check);
    }
    solid_text(out, at, solid)
}

// Writes the text of a pattern without fault.
fn pattern_text(t: &Tables, out: &mut [u8]) -> usize
    requires { Faultless t.now × (1126400 ≤ length out.old) }
    ensures of_tables { OfTables t.now (λ p. (out.new ≡ sets out.old 0 (report_text (content p))) × (result ≡ length (report_text (content p)))) }
    ensures of_tables_2 { OfTables t.now (λ p. (k : ℕ) → OpeningsPromised (content p) k) }
{
    let mut derived = Derived::new();
    derived.put(t);
    let columns = Columns {
        t,
        derived: &derived,
    };
    columns_text(&columns, out)
}

// Writes all that `report` prints for a file, from the first place on, and returns its length. The
// longest text has 16 shells of at most 70,300 bytes each and a line for the solid.
pub fn report(bytes: &[u8], out: &mut [u8; 1126400]) -> usize
    ensures out_after { (out.new ≡ sets out.old 0 (report_of bytes.now)) × (result ≡ length (report_of bytes.now)) }
    ensures report_promised { ReportPromised bytes.now }
{
    let mut t = [0u16; TABLES];
    let mut spans = [0.0; SPANS];
    match read(bytes, &mut t, &mut spans) {
        Err(f) => put_refusal(f, out),
        Ok(()) => pattern_text(&t, out),
    }
}
