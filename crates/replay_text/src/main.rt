// For each file that the arguments name, prints a line with its name, and then: `back`, for a pattern file
// whose text makes the same file; else what its making as a text gives: `length` and the length of the file, or
// the line that says what is wrong and, after `answer`, the number of the refusal and the first two values.
#![tactic(auto)]

use pattern::LONGEST;
use std::io;

// Whether a text makes a file of these bytes.
fn makes(text: &[u8], bytes: &[u8]) -> bool {
    let mut file = [0u8; LONGEST];
    let mut line = [0u8; 256];
    let answer = text_calls::draft(text, &mut file, &mut line);
    answer.outcome == 0 && file.get(..answer.first).is_some_and(|made| made == bytes)
}

fn tell(rt: &HostRuntime, bytes: &[u8]) -> io::Result<()> {
    let mut text = [0u8; 262144];
    let n = show_text::show(bytes, &mut text);
    if text.get(..n).is_some_and(|text| makes(text, bytes)) {
        return rt.write_all(b"back\n");
    }
    let mut file = [0u8; LONGEST];
    let mut line = [0u8; 256];
    let answer = text_calls::draft(bytes, &mut file, &mut line);
    if answer.outcome == 0 {
        return println!(rt; "length {}", answer.first);
    }
    console::print_first(rt, &line, answer.third)?;
    println!(rt;
        "answer {} {} {}",
        answer.number, answer.first, answer.second
    )
}

fn main(rt: HostRuntime) -> io::Result<()> {
    // One byte more than the longest text.
    let mut bytes = [0u8; 262145];
    console::each_content(&rt, &mut bytes, |file| tell(&rt, file))
}
