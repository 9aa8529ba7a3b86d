// The openings of a shell, on arrays: the walk along the free uses (extract_boundaries). The kept
// uses are a slice with a place for each point, 65535 where none is kept.
#![tactic(auto)]

ghost use Rattle.std.specs.Prelude.{◌≡◌, [], ◌∷◌, ◌+◌, ◌<◌, ◌≤◌, suc, length, set};
ghost use Rattle.lists.specs.Lists.{only};
ghost use Rattle.edge.specs.OfEnds.{back_in, front_in};
ghost use Rattle.edge.specs.Uses.{edge_number};
ghost use Rattle.wire.specs.Named.{Named};
ghost use Rattle.shell.specs.Openings.{look_up, chain, keep};
ghost use Rattle.shell.specs.OnePass.{pass};
ghost use Rattle.openings.specs.Slots.{slots, kept_in, Holding};
ghost use Rattle.openings.specs.Passes.{is_odd, Keepable, Followed, Ready, Passed};

use edge::Ends;

// What a lookup answers: the use that is kept, or none; with the count of lookups.
#[derive(Clone, Copy)]
pub struct Looked {
    pub answer: Option<u16>,
    pub lookups: usize,
}

// Where one start ends: the next free place of the written uses, and the count.
#[derive(Clone, Copy)]
pub struct Step {
    pub at: usize,
    pub lookups: usize,
}

// Where a walk stands: the next free place of the written uses, the number of openings, the count.
#[derive(Clone, Copy)]
pub struct Walked {
    pub at: usize,
    pub openings: usize,
    pub lookups: usize,
}

// Asks for the use kept at point p. The answer is kept no more, and the count is one higher.
pub fn look_up(kept: &mut [u16], p: usize, lookups: usize) -> Looked
    requires p_in_bounds { p < length kept.old }
    requires lookups_bound { lookups < 1000000 }
    ensures answer_value { result.answer ≡ (look_up p (slots kept.old) lookups).answer }
    ensures kept_after { slots kept.new ≡ (look_up p (slots kept.old) lookups).kept }
    ensures lookups_value { result.lookups ≡ lookups + 1 }
    ensures kept_after_2 { kept.new ≡ set kept.old p 65535 }
{
    let u = kept[p];
    kept[p] = 65535;
    let n = lookups + 1;
    if u == 65535 {
        return Looked {
            answer: None,
            lookups: n,
        };
    }
    Looked {
        answer: Some(u),
        lookups: n,
    }
}

// One start: looks up at p, then at the back of what is found, until nothing is found. The uses
// found are written from `at` on.
pub fn follow_from(
    kept: &mut [u16],
    p: usize,
    ends: &Ends,
    out: &mut [u16],
    at: usize,
    lookups: usize,
) -> Step
    requires { (p < length kept.old) × Holding ends.now.fronts.now ends.now.backs.now kept.old × (at + kept_in kept.old ≤ length out.old) × (lookups + kept_in kept.old < 1000000) }
    ensures { Followed (chain (front_in ends.now) (back_in ends.now) (suc (length kept.old)) p (slots kept.old) lookups) ends.now.fronts.now ends.now.backs.now kept.old out.old at lookups kept.new out.new result }
{
    let mut q = p;
    let mut m = at;
    let mut n = lookups;
    // No `for`: each lookup is at the back of what the one before found.
    loop {
        let l = look_up(kept, q, n);
        n = l.lookups;
        let Some(u) = l.answer else { break };
        out[m] = u;
        m += 1;
        q = ends.back_of(u);
    }
    Step { at: m, lookups: n }
}

// Keeps use u at point p, and no more the one before it.
pub fn keep_at(kept: &mut [u16], p: usize, u: u16)
    requires { p < length kept.old }
    ensures { kept.new ≡ set kept.old p u }
{
    kept[p] = u;
}

// Keeps the uses of the part whose edges have an odd number of uses, each at its front, in sequence.
pub fn keep_part(kept: &mut [u16], part: &[u16], odd: &[u8], ends: &Ends)
    requires { Keepable ends.now.fronts.now ends.now.backs.now odd.now part.now kept.old }
    ensures kept_after { slots kept.new ≡ keep (front_in ends.now) (back_in ends.now) (only (is_odd odd.now) part.now) (slots kept.old) }
    ensures holding { Holding ends.now.fronts.now ends.now.backs.now kept.new }
{
    for &u in part {
        let e = (u % 32768) as usize;
        if odd[e] / 16 % 2 == 1 {
            let p = ends.front_of(u);
            keep_at(kept, p, u);
        }
    }
}

// One use of a pass: an opening, if a use is kept at its front.
fn walk_use(
    kept: &mut [u16],
    u: u16,
    ends: &Ends,
    out: &mut [u16],
    lens: &mut [u16],
    state: Walked,
) -> Walked
    requires u_in_bounds { (edge_number u < length ends.now.fronts.now) × (front_in ends.now u < 2048) }
    requires ready { Ready ends.now.fronts.now ends.now.backs.now kept.old out.old lens.old state }
    ensures passed { Passed (pass (front_in ends.now) (back_in ends.now) (u ∷ []) (slots kept.old) state.lookups) out.old lens.old state kept.new out.new lens.new result }
    ensures ready_2 { Ready ends.now.fronts.now ends.now.backs.now kept.new out.new lens.new result }
{
    let p = ends.front_of(u);
    if kept[p] == 65535 {
        return state;
    }
    let at = state.at;
    let openings = state.openings;
    let lookups = state.lookups;
    let s = follow_from(kept, p, ends, out, at, lookups);
    let end = s.at;
    lens[openings] = (end - at) as u16;
    Walked {
        at: end,
        openings: openings + 1,
        lookups: s.lookups,
    }
}

// One pass over the uses of a part: a start at each front that has one kept. The uses found are
// written to `out`, the lengths of the openings to `lens`.
pub fn walk_part(
    kept: &mut [u16],
    part: &[u16],
    ends: &Ends,
    out: &mut [u16],
    lens: &mut [u16],
    state: Walked,
) -> Walked
    requires named { Named ends.now.fronts.now ends.now.backs.now part.now }
    requires ready { Ready ends.now.fronts.now ends.now.backs.now kept.old out.old lens.old state }
    ensures passed { Passed (pass (front_in ends.now) (back_in ends.now) part.now (slots kept.old) state.lookups) out.old lens.old state kept.new out.new lens.new result }
    ensures ready_2 { Ready ends.now.fronts.now ends.now.backs.now kept.new out.new lens.new result }
{
    let mut w = state;
    for &u in part {
        w = walk_use(kept, u, ends, out, lens, w);
    }
    w
}
