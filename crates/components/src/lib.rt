// The components of a shell (connected_components): its pairs of a face and a sign, grouped by
// shared edges. Pairs and edges are members of one forest, where each use joins its edge and its
// pair; pairs with the same root are a component.
#![tactic(auto)]

ghost use Rattle.std.specs.Prelude.{◌≡◌, map, ◌+◌, ◌<◌, ◌≤◌, length, take};
ghost use Rattle.std.proofs.lemmas.List.Edits.{sets};
ghost use Rattle.lists.specs.Lists.{flat, split};
ghost use Rattle.groups.specs.OfGroups.{Joined};
ghost use Rattle.sequence.specs.Keys.{Keyed, key_groups};
ghost use Rattle.shell.specs.Components.{components_of};
ghost use Rattle.components.specs.Pairs.{Linkable, member_links, Paired, pair_roots, roots_of, use_links, Within};

use groups::Groups;
use sequence::groups_by;

// Joins the edge of each use of a part with a member.
fn join_part(groups: &mut Groups, part: &[u16], member: usize)
    requires { Within groups.old.count part.now × (member < groups.old.count) }
    ensures { Joined (member_links member part.now) groups.old groups.new }
{
    for &u in part {
        groups.join(usize::from(u % 32768), member);
    }
}

// Joins the edge of each use with its pair.
fn link_uses(groups: &mut Groups, spans: &[u16], uses: &[u16], edges: usize)
    requires { Linkable spans.now uses.now edges × (groups.old.count ≡ edges + length spans.now) }
    ensures { Joined (use_links edges spans.now uses.now) groups.old groups.new }
{
    let mut at: usize = 0;
    for (k, &m) in spans.iter().enumerate() {
        let m = usize::from(m);
        join_part(groups, &uses[at..at + m], edges + k);
        at += m;
    }
}

// Writes the roots of n members, from member `first` on.
fn put_roots(out: &mut [u16], groups: &Groups, first: usize, n: usize)
    requires { (first + n ≤ groups.now.count) × (n ≤ length out.old) }
    ensures { out.new ≡ sets out.old 0 (roots_of groups.now.parents first n) }
{
    for k in 0..n {
        out[k] = groups.root(first + k) as u16;
    }
}

// Writes the root of each pair.
fn put_keys(keys: &mut [u16], spans: &[u16], uses: &[u16], edges: usize)
    requires { Linkable spans.now uses.now edges × (length spans.now ≤ length keys.old) }
    ensures { keys.new ≡ sets keys.old 0 (pair_roots edges spans.now uses.now) }
{
    let mut groups = Groups::new();
    groups.start(edges + spans.len());
    link_uses(&mut groups, spans, uses, edges);
    put_roots(keys, &groups, edges, spans.len());
}

// The groups of the names by as many keys.
fn group_first(keys: &[u16], names: &[u16], out: &mut [u16], lens: &mut [u16]) -> usize
    requires { (length names.now ≤ length keys.now) × Keyed (take (length names.now) keys.now) names.now out.old lens.old }
    ensures out_after { out.new ≡ sets out.old 0 (flat (key_groups names.now (take (length names.now) keys.now))) }
    ensures lens_after { lens.new ≡ sets lens.old 0 (map length (key_groups names.now (take (length names.now) keys.now))) }
    ensures value { result ≡ length (key_groups names.now (take (length names.now) keys.now)) }
{
    groups_by(&keys[0..names.len()], names, out, lens)
}

// The components of the pairs, ordered by first listing: their pairs one after the other are
// written to `out`, the numbers of pairs to `lens`; how many components. `pairs` are listing
// numbers, `spans` how many uses each pair shows, `uses` the uses of all pairs one after the other.
pub fn components_of(
    pairs: &[u16],
    spans: &[u16],
    uses: &[u16],
    edges: usize,
    out: &mut [u16],
    lens: &mut [u16],
) -> usize
    requires { Paired pairs.now spans.now uses.now edges out.old lens.old }
    ensures out_after { out.new ≡ sets out.old 0 (flat (components_of pairs.now (split spans.now uses.now))) }
    ensures lens_after { lens.new ≡ sets lens.old 0 (map length (components_of pairs.now (split spans.now uses.now))) }
    ensures value { result ≡ length (components_of pairs.now (split spans.now uses.now)) }
    ensures uses_len { (length (flat (components_of pairs.now (split spans.now uses.now))) ≡ length pairs.now) × (result ≤ length pairs.now) }
{
    let mut keys = [0u16; 512];
    put_keys(&mut keys, spans, uses, edges);
    group_first(&keys, pairs, out, lens)
}
