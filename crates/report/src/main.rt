// Reads one pattern file on standard input, to its end, and prints its report.
#![tactic(auto)]

fn main(rt: HostRuntime) {
    if !console::is_alone(
        &rt,
        b"report: standard output",
        b"usage: report < FILE\nreads a pattern file and prints its report, or why it is refused\n",
    ) {
        return;
    }
    // One byte more than the longest file.
    let mut bytes = [0u8; 41049];
    let Ok(n) = console::read_input(&rt, b"report: standard input", &mut bytes) else {
        return;
    };
    let mut text = [0u8; 1126400];
    let length = report_text::report(&bytes[..n], &mut text);
    if let Err(e) = console::print_first(&rt, &text, length) {
        console::fail(&rt, b"report: standard output", e);
    }
}
