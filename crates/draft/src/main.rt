// Reads a text on standard input, to its end, and writes the pattern file that it describes. Where the text
// has a fault, its line and what is wrong go to standard error, and nothing is written.
#![tactic(auto)]

use pattern::LONGEST;

fn main(rt: HostRuntime) {
    if !console::is_alone(
        &rt,
        b"draft: standard output",
        b"usage: draft < TEXT > FILE\nreads a text and writes the pattern file that it describes, or says what is wrong\n",
    ) {
        return;
    }
    // One byte more than the longest text.
    let mut text = [0u8; 262145];
    let Ok(n) = console::read_input(&rt, b"draft: standard input", &mut text) else {
        return;
    };
    let mut file = [0u8; LONGEST];
    match draft_text::make(&text[..n], &mut file) {
        Ok(length) => {
            if let Err(e) = console::print_first(&rt, &file, length) {
                console::fail(&rt, b"draft: standard output", e);
            }
        }
        other => {
            let mut line = [0u8; 256];
            let length = draft_faults::put_made(other, &mut line);
            let _ = rt.stderr().write_all(&line[..length]);
        }
    }
}
