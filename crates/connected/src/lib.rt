// Connected (is_connected): whether the points of the uses form at most one group, where each use
// links its ends, and each wire's first point is linked with that of the next wire of its face.
#![tactic(auto)]

ghost use Rattle.std.specs.Prelude.{◌≡◌, ◌++◌, map, get_or, length, ◌<◌, ◌≤◌, ℕ};
ghost use Rattle.lists.specs.Lists.{flat, padded, split, sum};
ghost use Rattle.edge.specs.OfEnds.{back_in, front_in};
ghost use Rattle.groups.specs.Forest.{one_root, root_of};
ghost use Rattle.groups.specs.Groups.{links, one_group};
ghost use Rattle.groups.specs.OfGroups.{Joined};
ghost use Rattle.shell.specs.Connected.{connected_of, first_points};
ghost use Rattle.connected.specs.Wired.{Begins, Below, Cut, Ended, Linkable, Started, Wired, neighbours};

use edge::Ends;
use groups::Groups;

// The point that a use begins at.
fn point_of(u: u16, ends: &Ends) -> u16
    requires { Begins ends.now.fronts.now ends.now.backs.now u }
    ensures { result ≡ front_in ends.now u }
{
    ends.front_of(u) as u16
}

// The first point of each wire; the rest is 0.
fn firsts_of(uses: &[u16], lens: &[u16], ends: &Ends) -> [u16; 2048]
    requires { Cut uses.now lens.now × Started uses.now ends.now.fronts.now ends.now.backs.now }
    ensures { result ≡ padded 2048 0 (first_points (front_in ends.now) (back_in ends.now) (split lens.now uses.now)) }
{
    let mut out = [0u16; 2048];
    let mut at: usize = 0;
    for (k, &n) in lens.iter().enumerate() {
        out[k] = point_of(uses[at], ends);
        at += usize::from(n);
    }
    out
}

// Links each of the points with the next.
fn join_next(groups: &mut Groups, points: &[u16])
    requires { Below groups.old.count points.now }
    ensures { Joined (neighbours points.now) groups.old groups.new }
{
    if points.len() == 0 {
        return;
    }
    groups.join_all(&points[..points.len() - 1], &points[1..]);
}

// Links, in each face, the first point of each wire with that of the next.
fn join_faces(groups: &mut Groups, firsts: &[u16], counts: &[u16])
    requires { (sum counts.now ≤ length firsts.now) × Below groups.old.count firsts.now }
    ensures { Joined (flat (map neighbours (split counts.now firsts.now))) groups.old groups.new }
{
    let mut at: usize = 0;
    for &m in counts {
        let m = usize::from(m);
        join_next(groups, &firsts[at..at + m]);
        at += m;
    }
}

// Links the two ends of each use.
fn join_uses(groups: &mut Groups, uses: &[u16], ends: &Ends)
    requires { Ended groups.old.count uses.now ends.now.fronts.now ends.now.backs.now }
    ensures { Joined (links (map (front_in ends.now) uses.now) (map (back_in ends.now) uses.now)) groups.old groups.new }
{
    for &u in uses {
        groups.join(ends.front_of(u), ends.back_of(u));
    }
}

// The root of the point that a use begins at.
fn root_of(groups: &Groups, u: u16, ends: &Ends) -> usize
    requires { Begins ends.now.fronts.now ends.now.backs.now u × (front_in ends.now u < groups.now.count) }
    ensures { result ≡ root_of groups.now.parents (front_in ends.now u) }
{
    groups.root(ends.front_of(u))
}

// Whether the points that the uses begin at are all in one group.
fn one_root(groups: &Groups, uses: &[u16], ends: &Ends) -> bool
    requires { Ended groups.now.count uses.now ends.now.fronts.now ends.now.backs.now }
    ensures { result ≡ one_root groups.now.parents (map (front_in ends.now) uses.now) }
{
    if uses.len() == 0 {
        return true;
    }
    let root = root_of(groups, uses[0], ends);
    for &u in &uses[1..] {
        if root_of(groups, u, ends) != root {
            return false;
        }
    }
    true
}

// Whether the points that the uses begin at are in one group, where each use links its ends, and in
// each face the first point of each wire is linked with that of the next.
fn linked(uses: &[u16], ends: &Ends, firsts: &[u16], counts: &[u16], n: usize) -> bool
    requires { Linkable n uses.now ends.now.fronts.now ends.now.backs.now firsts.now counts.now }
    ensures { result ≡ one_group n (links (map (front_in ends.now) uses.now) (map (back_in ends.now) uses.now) ++ flat (map neighbours (split counts.now firsts.now))) (map (front_in ends.now) uses.now) }
{
    let mut groups = Groups::new();
    groups.start(n);
    join_uses(&mut groups, uses, ends);
    join_faces(&mut groups, firsts, counts);
    one_root(&groups, uses, ends)
}

// Whether the faces are connected. `uses` has the uses of all wires, `lens` the length of each wire,
// `counts` the number of wires of each face; `fronts` and `backs` have the ends of the edges.
pub fn connected_of(uses: &[u16], lens: &[u16], counts: &[u16], ends: &Ends, points: usize) -> bool
    requires { Wired uses.now lens.now counts.now ends.now.fronts.now ends.now.backs.now points }
    ensures { result ≡ connected_of (front_in ends.now) (back_in ends.now) points (split counts.now (split lens.now uses.now)) }
{
    let firsts = firsts_of(uses, lens, ends);
    linked(uses, ends, &firsts[0..lens.len()], counts, points)
}
