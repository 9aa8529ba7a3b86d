// A job's file saved: replaced whole by what the job left in memory, and how the job's line ends by that.
#![tactic(auto)]

ghost use Rattle.std.specs.Prelude.{◌≡◌};
ghost use Rattle.saving.specs.Saved.{ending_after, is_changed};

use queue::Ending;
use replace::{Reading, Replaced};

// Replaces the file at path, which was read, by the first bytes, as many as the edited file has. Where no file was edited there is nothing to save.
pub fn save(
    rt: &HostRuntime,
    path: &[u8],
    bytes: &[u8],
    edited: Option<usize>,
    read: Reading,
) -> Replaced {
    let Some(n) = edited else {
        return Replaced::Done;
    };
    match bytes.get(..n) {
        Some(file) => replace::replace(rt, path, file, read),
        None => Replaced::Kept,
    }
}

pub fn ending_of(saved: Replaced) -> Ending
    ensures { result ≡ ending_after saved }
{
    match saved {
        Replaced::Done => Ending::Done,
        Replaced::Kept => Ending::Kept,
        Replaced::Unsynced => Ending::Unsynced,
        Replaced::Changed => Ending::Kept,
    }
}

// Whether others have changed the file meanwhile.
pub fn is_changed(saved: Replaced) -> bool
    ensures { result ≡ is_changed saved }
{
    matches!(saved, Replaced::Changed)
}
