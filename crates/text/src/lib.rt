// The lines of a text, the words of a line, and what a word can say.
#![tactic(auto)]

ghost use Rattle.std.specs.Prelude.{◌≡◌, [], ◌∷◌, ◌+◌, ◌*◌, ◌^◌, ◌<◌, ◌≤◌, None, Some, drop, length};
ghost use Rattle.std.specs.Option.{MatchOption};
ghost use Rattle.lists.specs.Lists.{pick};
ghost use Rattle.text.specs.Text.{before, is_blank, is_feed, is_ink, lines, trimmed, words};
ghost use Rattle.text.specs.Tokens.{all_digits, name, number, signed, value_after};

// Where the line that begins at `from` ends: at its line feed, or at the end of the text.
pub fn line_end(text: &[u8], from: usize) -> usize
    requires { from ≤ length text.now }
    ensures { (result ≡ from + length (before is_feed (drop from text.now))) × (result ≤ length text.now) }
{
    match text[from..].iter().position(|b| *b == b'\n') {
        Some(n) => from + n,
        None => text.len(),
    }
}

// A line without a carriage return at its end.
pub fn trimmed(line: &[u8]) -> &[u8]
    ensures { result.now ≡ trimmed line.now }
{
    line.strip_suffix(b"\r").unwrap_or(line)
}

// The next line of a text, as `trimmed` has it, and what follows it, if there is one.
pub fn next_line(text: &[u8]) -> Option<(&[u8], &[u8])>
    ensures { MatchOption result (lines text.now ≡ []) (λ next. (lines text.now ≡ next.0.now ∷ lines next.1.now) × (length next.0.now ≤ length text.now) × (length next.1.now < length text.now)) }
{
    if text.is_empty() {
        return None;
    }
    let end = line_end(text, 0);
    let next = text.len().min(end + 1);
    Some((trimmed(&text[..end]), &text[next..]))
}

fn is_blank(b: u8) -> bool
    ensures { result ≡ is_blank b }
{
    b == b' ' || b == b'\t'
}

// Where the next word begins, from `from` on; the end of the line where there is none.
pub fn word_start(line: &[u8], from: usize) -> usize
    requires { from ≤ length line.now }
    ensures { (result ≡ from + length (before is_ink (drop from line.now))) × (result ≤ length line.now) }
{
    // No `position` here: on words of a few bytes it takes a fifth longer.
    for i in from..line.len() {
        if !is_blank(line[i]) {
            return i;
        }
    }
    line.len()
}

// Where the word that begins at `from` ends.
pub fn word_end(line: &[u8], from: usize) -> usize
    requires { from ≤ length line.now }
    ensures { (result ≡ from + length (before is_blank (drop from line.now))) × (result ≤ length line.now) }
{
    for i in from..line.len() {
        if is_blank(line[i]) {
            return i;
        }
    }
    line.len()
}

// The next word of a line, and what follows it, if there is one.
pub fn next_word(line: &[u8]) -> Option<(&[u8], &[u8])>
    ensures { MatchOption result (words line.now ≡ []) (λ next. (words line.now ≡ next.0.now ∷ words next.1.now) × (length next.1.now < length line.now)) }
{
    let start = word_start(line, 0);
    if start == line.len() {
        return None;
    }
    let end = word_end(line, start);
    Some((&line[start..end], &line[end..]))
}

// The digits of a word, after those of the number n.
pub fn digits_after(n: u64, word: &[u8]) -> Option<u64>
    requires { (n + 1) * 10 ^ length word.now ≤ 10000000000000000000 }
    ensures { result ≡ pick (all_digits word.now) (Some (value_after n word.now)) None }
{
    let mut m = n;
    for b in word {
        if !b.is_ascii_digit() {
            return None;
        }
        m = m * 10 + u64::from(*b - b'0');
    }
    Some(m)
}

// A number of one to nine digits.
pub fn number_of(word: &[u8]) -> Option<u64>
    ensures { result ≡ number word.now }
{
    if word.len() == 0 {
        return None;
    }
    if word.len() > 9 {
        return None;
    }
    digits_after(0, word)
}

// A use or listing: a number and + or -; as in a file, plus 32,768 if reversed.
pub fn signed_of(word: &[u8]) -> Option<u64>
    ensures { result ≡ signed word.now }
{
    let (sign, digits) = word.split_last()?;
    let k = number_of(digits)?.min(32767);
    match *sign {
        b'+' => Some(k),
        b'-' => Some(k + 32768),
        _ => None,
    }
}

// A word of at most seven bytes as a number; 0 for a longer one.
pub fn name_of(word: &[u8]) -> u64
    ensures { result ≡ name word.now }
{
    if word.len() > 7 {
        return 0;
    }
    let mut n: u64 = 1;
    for b in word {
        n = n * 256 + u64::from(*b);
    }
    n
}
