// The contents table of a pattern file.
#![tactic(auto)]

ghost use Rattle.std.specs.Prelude.{◌≡◌, ◌≤◌, length};
ghost use Rattle.lists.specs.Lists.{tabulate};
ghost use Rattle.errors.specs.Faults.{first as firstFault};
ghost use Rattle.pattern_file.specs.File.{start_of, file_counts, offset_faults, table_faults};

use errors::Refusal;
use pattern::{BODIES, Counts, Starts, check_counts, file_layout};
use pattern_file::starts_of;
use words::u32_at;

// The counts of the contents table.
pub fn counts_of(s: &[u8]) -> Counts
    requires { 56 ≤ length s.now }
    ensures { result ≡ file_counts s.now }
{
    let mut out = [0usize; BODIES];
    for (b, count) in out.iter_mut().enumerate() {
        *count = u32_at(s, 8 * b + 4) as usize;
    }
    out
}

// The offsets of the contents table in body order, then the end of file: 1.
fn check_offsets(s: &[u8], starts: Starts) -> Result<(), Refusal>
    requires in_bounds { 56 ≤ length s.now }
    requires starts_value { starts ≡ tabulate 8 (start_of (file_counts s.now)) }
    ensures { result ≡ firstFault (offset_faults s.now) }
{
    for b in 0..BODIES {
        if u32_at(s, 8 * b) as usize != starts[b] {
            return Err(Refusal::Layout(b));
        }
    }
    if s.len() != starts[BODIES] {
        return Err(Refusal::Layout(6));
    }
    Ok(())
}

// The contents table: length, counts, offsets, end of file.
pub fn check_table(s: &[u8]) -> Result<(), Refusal>
    ensures { result ≡ firstFault (table_faults s.now) }
{
    let lay = file_layout();
    let limits = lay.limits;
    let longest = starts_of(limits);
    if s.len() < lay.first {
        return Err(Refusal::Layout(0));
    }
    if s.len() > longest[BODIES] {
        return Err(Refusal::Layout(0));
    }
    let counts = counts_of(s);
    check_counts(counts)?;
    check_offsets(s, starts_of(counts))
}
