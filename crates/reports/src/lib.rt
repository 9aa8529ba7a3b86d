// The figures of a shell of a pattern in the store: its condition and openings; whether it is connected,
// its components and its singular points.
#![tactic(auto)]

ghost use Rattle.std.specs.Prelude.{◌≡◌, ◌<◌, ◌≤◌, get_or, length};
ghost use Rattle.columns.specs.Columns.{lent};
ghost use Rattle.columns.specs.Sound.{OfTables};
ghost use Rattle.condition.specs.Tallies.{inserted_all};
ghost use Rattle.extract.specs.Listings.{no_uses};
ghost use Rattle.pattern.specs.Contents.{content};
ghost use Rattle.shell.specs.Conditions.{condition};
ghost use Rattle.shell.specs.Shells.{shell_uses};
ghost use Rattle.store.specs.Store.{count_table};
ghost use Rattle.reports.specs.InHand.{listings_in, uses_in};
ghost use Rattle.reports.specs.Figures.{Counted, Figured, Grouped, Opened};

use columns::Columns;
use components::components_of;
use condition::{Condition, Tally, condition_of, odd_of};
use connected::connected_of;
use edge::Ends;
use extract::{openings_of, tally_listings};
use pairs::Pairs;
use singular::singular_of;
use store::{counts_in, listings_in, lists_in, wires_in};

// The condition of a shell; how many openings it has, their uses in all, the lookups.
#[derive(Clone, Copy)]
pub struct OpeningCounts {
    pub condition: Condition,
    pub openings: usize,
    pub used: usize,
    pub lookups: usize,
}

// Whether a shell is connected; how many components it has, their pairs in all; its singular points.
#[derive(Clone, Copy)]
pub struct GroupCounts {
    pub connected: bool,
    pub components: usize,
    pub members: usize,
    pub singular: usize,
}

// The listings of shell n.
fn shell_listings<'a>(columns: &Columns<'a>, n: usize) -> &'a [u16]
    requires { n < get_or (count_table columns.now.t.now) 5 0 }
    ensures { result.now ≡ listings_in (lent columns.now.t.now columns.now.derived.now.turned columns.now.derived.now.starts columns.now.derived.now.firsts columns.now.derived.now.places) n }
{
    let listings = listings_in(columns.t);
    &listings[columns.derived.places[n]..columns.derived.places[n + 1]]
}

// The tally of the uses of shell n.
fn shell_tally(columns: &Columns, n: usize) -> Tally
    requires { n < get_or (count_table columns.now.t.now) 5 0 }
    ensures { result ≡ inserted_all no_uses (uses_in (lent columns.now.t.now columns.now.derived.now.turned columns.now.derived.now.starts columns.now.derived.now.firsts columns.now.derived.now.places) n) }
{
    tally_listings(shell_listings(columns, n), &columns.parts())
}

// The condition of shell n.
pub fn condition_in(columns: &Columns, n: usize) -> Condition
    requires { n < get_or (count_table columns.now.t.now) 5 0 }
    ensures { OfTables columns.now.t.now (λ p. result.0 ≡ condition (shell_uses (content p) n)) }
{
    let counts = counts_in(columns.t);
    condition_of(shell_tally(columns, n), counts[1])
}

// Finds the condition of shell n and writes its openings: their uses one after the other, and the
// length of each.
pub fn put_openings(columns: &Columns, n: usize, out: &mut [u16], lens: &mut [u16]) -> OpeningCounts
    requires n_bound { n < get_or (count_table columns.now.t.now) 5 0 }
    requires in_bounds { (2048 ≤ length out.old) × (2048 ≤ length lens.old) }
    ensures of_tables { OfTables columns.now.t.now (λ p. Opened (content p) n out.old lens.old out.new lens.new result) }
    ensures used_bound { (result.used ≤ 2048) × (result.openings ≤ 2048) × (result.lookups ≤ 1000000) }
{
    let counts = counts_in(columns.t);
    let ends = lists_in(columns.t).ends;
    let listings = shell_listings(columns, n);
    let edges = counts[1];
    let tally = shell_tally(columns, n);
    let condition = condition_of(tally, edges);
    if condition == Condition::CLOSED {
        // a Closed shell has no openings
        return OpeningCounts {
            condition,
            openings: 0,
            used: 0,
            lookups: 0,
        };
    }
    let odd = odd_of(tally, edges);
    let w = openings_of(
        listings,
        &columns.parts(),
        &odd,
        &ends,
        counts[0],
        out,
        lens,
    );
    OpeningCounts {
        condition,
        openings: w.openings,
        used: w.at,
        lookups: w.lookups,
    }
}

// Writes the groups of the pairs, whose uses have these ends.
fn put_figures(
    pairs: &Pairs,
    ends: &Ends,
    points: usize,
    out: &mut [u16],
    sizes: &mut [u16],
    found: &mut [u16],
) -> GroupCounts
    requires { Figured pairs.now ends.now.fronts.now ends.now.backs.now points out.old sizes.old found.old }
    ensures { Counted pairs.now ends.now.fronts.now ends.now.backs.now points out.old sizes.old found.old out.new sizes.new found.new result }
{
    let listed = &pairs.pairs[..pairs.number];
    let counts = &pairs.counts[..pairs.number];
    let spans = &pairs.spans[..pairs.number];
    let wires = &pairs.lens[..pairs.wires];
    let uses = &pairs.shown[..pairs.uses];
    let connected = connected_of(uses, wires, counts, ends, points);
    let components = components_of(listed, spans, uses, ends.fronts.len(), out, sizes);
    let singular = singular_of(uses, wires, ends, points, found);
    GroupCounts {
        connected,
        components,
        members: pairs.number,
        singular,
    }
}

// Writes the groups of shell n: the pairs of its components one after the other, the number of pairs of
// each, and its singular points.
pub fn put_groups(
    columns: &Columns,
    n: usize,
    out: &mut [u16],
    sizes: &mut [u16],
    found: &mut [u16],
) -> GroupCounts
    requires n_bound { n < get_or (count_table columns.now.t.now) 5 0 }
    requires in_bounds { (512 ≤ length out.old) × (512 ≤ length sizes.old) × (2048 ≤ length found.old) }
    ensures { OfTables columns.now.t.now (λ p. Grouped (content p) n out.old sizes.old found.old out.new sizes.new found.new result) }
{
    let table = counts_in(columns.t);
    let wires = wires_in(columns.t);
    let ends = lists_in(columns.t).ends;
    let listings = shell_listings(columns, n);
    let mut pairs = Pairs::new();
    pairs.fill(listings, &columns.parts(), wires, &columns.derived.firsts);
    put_figures(&pairs, &ends, table[0], out, sizes, found)
}
