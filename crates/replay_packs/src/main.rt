// Prints for each pack that the arguments name a line with its name, and for each pattern in it a
// line with its number, and its report. A pack holds for each pattern its length, a u32, and its
// bytes.
#![tactic(auto)]

ghost use Rattle.std.specs.Prelude.{◌≤◌, IfSome};

use std::fs::File;
use std::io;

// The length of the next pattern; none at the end of the pack, and for one that is longer than any file.
fn next_length(pack: &mut File) -> Option<usize>
    ensures { IfSome result (λ n. n ≤ 41049) }
{
    let mut length = [0u8; 4];
    if console::read_full(pack, &mut length) < 4 {
        return None;
    }
    let n = u32::from_le_bytes(length) as usize;
    if n > 41049 {
        return None;
    }
    Some(n)
}

// Prints the number and the report of each pattern in a pack.
fn replay_pack(rt: &HostRuntime, pack: &mut File, text: &mut [u8; 1126400]) -> io::Result<()> {
    for k in 0..u64::MAX {
        let Some(n) = next_length(pack) else {
            break;
        };
        println!(rt; "pattern {k}")?;
        let mut bytes = [0u8; 41049];
        console::read_full(pack, &mut bytes[..n]);
        let length = report_text::report(&bytes[..n], text);
        console::print_first(rt, text, length)?;
    }
    Ok(())
}

fn main(rt: HostRuntime) -> io::Result<()> {
    let mut text = [0u8; 1126400];
    console::each_file(&rt, |pack| replay_pack(&rt, pack, &mut text))
}
