// The calls on a shell of a pattern in the store that ask for its groups: whether it is connected, its
// components, its singular points; each report by itself.
#![tactic(auto)]

ghost use Rattle.std.specs.Prelude.{◌≡◌, map, ◌<◌, ◌≤◌, get_or, length};
ghost use Rattle.std.proofs.lemmas.List.Edits.{sets};
ghost use Rattle.lists.specs.Lists.{flat};
ghost use Rattle.columns.specs.Sound.{Faultless, OfTables};
ghost use Rattle.pattern.specs.Contents.{content};
ghost use Rattle.reports.specs.Figures.{Grouped};
ghost use Rattle.store.specs.Store.{count_table, held};
ghost use Rattle.group_calls.specs.GroupCalls.{components_answer, components_out, connected_answer, singular_answer, singular_out};

use calls::{ShellFigure, find_shell};
use columns::{Columns, Derived};
use errors::{CallError, NotThere};
use reports::{GroupCounts, put_groups};
use store::{Spans, Tables};

// Writes the groups of a shell that is there.
fn groups_at(
    t: &Tables,
    n: usize,
    out: &mut [u16],
    sizes: &mut [u16],
    found: &mut [u16],
) -> GroupCounts
    requires faultless { Faultless t.now × (n < get_or (count_table t.now) 5 0) }
    requires in_bounds { (512 ≤ length out.old) × (512 ≤ length sizes.old) × (2048 ≤ length found.old) }
    ensures { OfTables t.now (λ p. Grouped (content p) n out.old sizes.old found.old out.new sizes.new found.new result) }
{
    let mut derived = Derived::new();
    derived.put(t);
    let columns = Columns {
        t,
        derived: &derived,
    };
    put_groups(&columns, n, out, sizes, found)
}

// Whether shell n is connected.
pub fn is_connected(t: &Tables, spans: &Spans, n: usize) -> Result<ShellFigure, CallError<NotThere>>
    ensures { result ≡ connected_answer (held t.now spans.now) n }
{
    find_shell(t, spans, n)?;
    let mut pairs = [0u16; 512];
    let mut sizes = [0u16; 512];
    let mut corners = [0u16; 2048];
    let g = groups_at(t, n, &mut pairs, &mut sizes, &mut corners);
    Ok(ShellFigure::Connected(g.connected))
}

// The components of shell n: their pairs one after the other, and the length of each.
pub fn connected_components(
    t: &Tables,
    spans: &Spans,
    n: usize,
    out: &mut [u16; 512],
    lens: &mut [u16; 512],
) -> Result<ShellFigure, CallError<NotThere>>
    ensures value { result ≡ components_answer (held t.now spans.now) n }
    ensures out_after { out.new ≡ sets out.old 0 (flat (components_out (held t.now spans.now) n)) }
    ensures lens_after { lens.new ≡ sets lens.old 0 (map length (components_out (held t.now spans.now) n)) }
{
    find_shell(t, spans, n)?;
    let mut corners = [0u16; 2048];
    let g = groups_at(t, n, out, lens, &mut corners);
    Ok(ShellFigure::Components(g.components, g.members))
}

// The singular points of shell n, ascending.
pub fn singular_vertices(
    t: &Tables,
    spans: &Spans,
    n: usize,
    out: &mut [u16; 2048],
) -> Result<ShellFigure, CallError<NotThere>>
    ensures value { result ≡ singular_answer (held t.now spans.now) n }
    ensures out_after { out.new ≡ sets out.old 0 (singular_out (held t.now spans.now) n) }
{
    find_shell(t, spans, n)?;
    let mut pairs = [0u16; 512];
    let mut sizes = [0u16; 512];
    let g = groups_at(t, n, &mut pairs, &mut sizes, out);
    Ok(ShellFigure::Singular(g.singular))
}
