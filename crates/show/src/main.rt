// Reads one pattern file on standard input, to its end, and prints it as text.
#![tactic(auto)]

fn main(rt: HostRuntime) {
    if !console::is_alone(
        &rt,
        b"show: standard output",
        b"usage: show < FILE\nreads a pattern file and prints it as text, or why it is refused\n",
    ) {
        return;
    }
    // One byte more than the longest file.
    let mut bytes = [0u8; 41049];
    let Ok(n) = console::read_input(&rt, b"show: standard input", &mut bytes) else {
        return;
    };
    let mut text = [0u8; 262144];
    let length = show_text::show(&bytes[..n], &mut text);
    if let Err(e) = console::print_first(&rt, &text, length) {
        console::fail(&rt, b"show: standard output", e);
    }
}
