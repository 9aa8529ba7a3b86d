// Reads each file that the arguments name and prints its name and the answer; an accepted pattern is
// written back and compared with the file.
#![tactic(auto)]

use pattern::LONGEST;
use std::io;
use store::{SPANS, Spans, TABLES, Tables};

// Whether the file of a pattern is just these bytes.
fn written_back(t: &Tables, spans: &Spans, bytes: &[u8]) -> bool {
    let mut file = [0u8; LONGEST];
    match store_write::write(t, spans, &mut file) {
        Ok(n) => file.get(..n).is_some_and(|file| file == bytes),
        Err(_) => false,
    }
}

fn answer(rt: &HostRuntime, bytes: &[u8]) -> io::Result<()> {
    let mut t = [0u16; TABLES];
    let mut spans = [0.0; SPANS];
    match store_read::read(bytes, &mut t, &mut spans) {
        Err(f) => console::print_refusal(rt, f),
        Ok(()) => {
            if written_back(&t, &spans, bytes) {
                rt.write_all(b"accepted\n")
            } else {
                rt.write_all(b"accepted, written back otherwise\n")
            }
        }
    }
}

// Not by `console::each_content`: here the name and the answer stand in one line.
fn replay(rt: &HostRuntime, k: usize) -> io::Result<()> {
    console::print_argument(rt, k)?;
    rt.write_all(b" ")?;
    let Ok(mut file) = console::open_argument(rt, k) else {
        return rt.write_all(b"not found\n");
    };
    // One byte more than the longest file.
    let mut bytes = [0u8; LONGEST + 1];
    let n = console::read_full(&mut file, &mut bytes);
    answer(rt, &bytes[..n])
}

fn main(rt: HostRuntime) -> io::Result<()> {
    for k in 1..console::arg_count(&rt) {
        replay(&rt, k)?;
    }
    Ok(())
}
