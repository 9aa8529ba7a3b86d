// Prints for each pattern file that the arguments name a line with its name, and its report.
#![tactic(auto)]

use std::io;

fn main(rt: HostRuntime) -> io::Result<()> {
    // One byte more than the longest file.
    let mut bytes = [0u8; 41049];
    let mut text = [0u8; 1126400];
    console::each_content(&rt, &mut bytes, |file| {
        let length = report_text::report(file, &mut text);
        console::print_first(&rt, &text, length)
    })
}
