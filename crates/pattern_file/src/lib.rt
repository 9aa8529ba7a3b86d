// The layout of the pattern file: where its bodies stand.
#![tactic(auto)]

ghost use Rattle.std.specs.Prelude.{◌≡◌, []};
ghost use Rattle.lists.specs.Lists.{tabulate};
ghost use Rattle.pattern.specs.Checks.{count_faults};
ghost use Rattle.pattern_file.specs.File.{start_of};

use pattern::{BODIES, Counts, Starts, file_layout};

// Where each body begins, and where the file ends, with counts within the limits.
pub fn starts_of(counts: Counts) -> Starts
    requires { count_faults counts ≡ [] }
    ensures { result ≡ tabulate 8 (start_of counts) }
{
    let lay = file_layout();
    let mut out = [0usize; BODIES + 1];
    let mut at = lay.first;
    for b in 0..BODIES {
        out[b] = at;
        at += lay.sizes[b] * counts[b];
    }
    out[BODIES] = at;
    out
}
