// The tally and the openings of a shell (extract_boundaries), listing by listing: each shows a part
// of one of two columns of uses.
#![tactic(auto)]

ghost use Rattle.std.specs.Prelude.{◌≡◌, ◌≤◌, length};
ghost use Rattle.lists.specs.Lists.{only};
ghost use Rattle.edge.specs.OfEnds.{back_in, front_in};
ghost use Rattle.shell.specs.Openings.{keep, walk_of};
ghost use Rattle.shell.specs.OnePass.{pass};
ghost use Rattle.condition.specs.Tallies.{inserted_all};
ghost use Rattle.listing.specs.OfParts.{of_parts};
ghost use Rattle.listing.specs.Parts.{parts_of};
ghost use Rattle.openings.specs.Slots.{slots, Holding};
ghost use Rattle.openings.specs.Passes.{is_odd, Passed, Ready};
ghost use Rattle.extract.specs.Listings.{AllTally, AllWalk, Extractable, no_uses, nowhere, Written};

use condition::{Tally, tally_part};
use edge::Ends;
use listing::Parts;
use openings::{Walked, keep_part, walk_part};

// The tally of the uses of the listings.
pub fn tally_listings(listings: &[u16], parts: &Parts) -> Tally
    requires { of_parts AllTally parts.now listings.now }
    ensures { result ≡ inserted_all no_uses (of_parts parts_of parts.now listings.now) }
{
    let mut t = Tally::new();
    for &l in listings {
        t = tally_part(t, parts.part(l));
    }
    t
}

// Keeps the free uses of the listings, each at its front, in sequence.
fn keep_listings(kept: &mut [u16], listings: &[u16], parts: &Parts, odd: &[u8], ends: &Ends)
    requires all_walk { of_parts AllWalk parts.now ends.now.fronts.now ends.now.backs.now listings.now }
    requires fronts_len_bound { (length ends.now.fronts.now ≤ 1024) × (length ends.now.fronts.now ≤ length odd.now) × (length kept.old ≡ 2048) × Holding ends.now.fronts.now ends.now.backs.now kept.old }
    ensures kept_after { slots kept.new ≡ keep (front_in ends.now) (back_in ends.now) (only (is_odd odd.now) (of_parts parts_of parts.now listings.now)) (slots kept.old) }
    ensures holding { Holding ends.now.fronts.now ends.now.backs.now kept.new }
{
    for &l in listings {
        keep_part(kept, parts.part(l), odd, ends);
    }
}

// One pass over the uses of the listings. The uses found are written to `out`, the lengths of the
// openings to `lens`.
fn walk_listings(
    kept: &mut [u16],
    listings: &[u16],
    parts: &Parts,
    ends: &Ends,
    out: &mut [u16],
    lens: &mut [u16],
) -> Walked
    requires all_walk { of_parts AllWalk parts.now ends.now.fronts.now ends.now.backs.now listings.now }
    requires ready { Ready ends.now.fronts.now ends.now.backs.now kept.old out.old lens.old nowhere }
    ensures passed { Passed (pass (front_in ends.now) (back_in ends.now) (of_parts parts_of parts.now listings.now) (slots kept.old) 0) out.old lens.old nowhere kept.new out.new lens.new result }
    ensures ready_2 { Ready ends.now.fronts.now ends.now.backs.now kept.new out.new lens.new result }
{
    let mut w = Walked {
        at: 0,
        openings: 0,
        lookups: 0,
    };
    for &l in listings {
        w = walk_part(kept, parts.part(l), ends, out, lens, w);
    }
    w
}

// The openings: their uses one after the other are written to `out`, their lengths to `lens`.
pub fn openings_of(
    listings: &[u16],
    parts: &Parts,
    odd: &[u8],
    ends: &Ends,
    points: usize,
    out: &mut [u16],
    lens: &mut [u16],
) -> Walked
    requires all_walk { of_parts AllWalk parts.now ends.now.fronts.now ends.now.backs.now listings.now }
    requires extractable { Extractable (of_parts parts_of parts.now listings.now) odd.now ends.now.fronts.now ends.now.backs.now points out.old lens.old }
    ensures { Written (walk_of (front_in ends.now) (back_in ends.now) points (of_parts parts_of parts.now listings.now)) out.old lens.old out.new lens.new result }
{
    let mut kept = [65535u16; 2048];
    keep_listings(&mut kept, listings, parts, odd, ends);
    walk_listings(&mut kept, listings, parts, ends, out, lens)
}
