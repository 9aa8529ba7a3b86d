// f64 as words: read from a decimal or from hexadecimal digits, and written so that they read back.
#![tactic(auto)]

ghost use Rattle.std.specs.Prelude.{◌≡◌, ◌+◌, ◌*◌, ◌%◌, ◌^◌, ◌<◌, ◌≤◌, None, Some, false, length, nat_lt};
ghost use Rattle.std.specs.Float.{binary64};
ghost use Rattle.std.specs.Float.Ieee.{round};
ghost use Rattle.std.proofs.lemmas.List.Edits.{sets};
ghost use Rattle.lists.specs.Lists.{pick};
ghost use Rattle.text.specs.Text.{before};
ghost use Rattle.text.specs.Tokens.{all_digits, value_after};
ghost use Rattle.decimals.specs.Decimals.{decimal_text, hex, hex_digit, hex_text, is_point, nearest_bits, places_from, reads_back, real, real_text, scaled, unsigned};
ghost use Rattle.decimals.specs.Parts.{digit_byte, last_in, places_text, sign_text};

use output::{put_decimal, put_text};
use text::digits_after;

fn ten_to(k: usize) -> u64
    requires { k ≤ 15 }
    ensures { (result ≡ 10 ^ k) × (result ≤ 1000000000000000) }
{
    10u64.pow(k as u32)
}

fn power(k: usize) -> f64
    requires { k ≤ 15 }
    ensures { result ≡ round binary64 false (10 ^ k) 1 }
{
    std::num::nearest_u64_to_f64(ten_to(k))
}

// The bits of the f64 nearest to m / 10^k: both are exact, and the quotient is rounded once.
fn nearest_bits(negative: bool, m: u64, k: usize) -> u64
    requires { (m < 1000000000000000) × (k ≤ 15) }
    ensures { result ≡ nearest_bits negative m k }
{
    let q = std::num::nearest_u64_to_f64(m) / power(k);
    let bits = f64::to_bits(q);
    if negative {
        return bits + 0x8000000000000000;
    }
    bits
}

// Where the point of a word stands; the word's length where there is none.
fn point_of(word: &[u8]) -> usize
    ensures { (result ≡ length (before is_point word.now)) × (result ≤ length word.now) }
{
    word.iter().position(|b| *b == b'.').unwrap_or(word.len())
}

// The digits of a word, after those of the number n, over 10^k.
fn places_after(negative: bool, word: &[u8], n: u64, k: usize) -> Option<u64>
    requires { ((n + 1) * 10 ^ length word.now ≤ 1000000000000000) × (k ≤ 15) }
    ensures { result ≡ pick (all_digits word.now) (Some (nearest_bits negative (value_after n word.now) k)) None }
{
    let m = digits_after(n, word)?;
    Some(nearest_bits(negative, m, k))
}

// A decimal without a sign.
fn unsigned_of(negative: bool, word: &[u8]) -> Option<u64>
    ensures { result ≡ unsigned negative word.now }
{
    let n = word.len();
    let point = point_of(word);
    if point == 0 {
        return None;
    }
    if n > 16 {
        return None;
    }
    if point == n {
        if n > 15 {
            return None;
        }
        return places_after(negative, word, 0, 0);
    }
    let first = point + 1;
    if first == n {
        return None;
    }
    let m = digits_after(0, &word[..point])?;
    places_after(negative, &word[first..], m, n - first)
}

// The value of a hexadecimal digit.
fn hex_digit(b: u8) -> Option<u64>
    ensures { result ≡ pick (nat_lt (hex_digit b) 16) (Some (hex_digit b)) None }
{
    match b {
        b'0'..=b'9' => Some(u64::from(b - b'0')),
        b'a'..=b'f' => Some(u64::from(b - b'a') + 10),
        b'A'..=b'F' => Some(u64::from(b - b'A') + 10),
        _ => None,
    }
}

// 0x and 16 hexadecimal digits.
fn hex_of(word: &[u8]) -> Option<u64>
    ensures { result ≡ hex word.now }
{
    if word.len() != 18 {
        return None;
    }
    let mut n: u64 = 0;
    for b in &word[2..] {
        n = n * 16 + hex_digit(*b)?;
    }
    Some(n)
}

// An f64, as its bits.
#[tactic(auto, unfolding(crate::specs::Decimals::real))]
pub fn real_of(word: &[u8]) -> Option<u64>
    ensures { result ≡ real word.now }
{
    match word {
        [b'-', rest @ ..] => unsigned_of(true, rest),
        [b'0', b'x', ..] => hex_of(word),
        _ => unsigned_of(false, word),
    }
}

// A magnitude of at most 1,000,000 times 10^k, plus a half, without its fraction.
fn scaled_of(bits: u64, k: usize) -> u64
    requires { (bits % 0x8000000000000000 ≤ 0x412e848000000000) × (k ≤ 9) }
    ensures { result ≡ scaled bits k }
{
    std::num::saturating_f64_to_u64(f64::from_bits(bits % 0x8000000000000000) * power(k) + 0.5)
}

// Whether the decimal with k places reads back.
fn reads_back(bits: u64, k: usize) -> bool
    requires { k ≤ 9 }
    ensures { result ≡ reads_back bits k }
{
    if bits % 0x8000000000000000 > 0x412e848000000000 {
        return false;
    }
    let m = scaled_of(bits, k);
    if m >= 1000000000000000 {
        return false;
    }
    nearest_bits(bits >= 0x8000000000000000, m, k) == bits
}

// The fewest places that read back; 10 where there are none.
fn places_of(bits: u64) -> usize
    ensures { (result ≡ places_from bits 10 0) × (result ≤ 10) }
{
    for k in 0..10 {
        if reads_back(bits, k) {
            return k;
        }
    }
    10
}

// The byte of a digit.
fn digit_byte(n: u64) -> u8
    requires { n < 16 }
    ensures { result ≡ digit_byte n }
{
    if n < 10 { 48 + n as u8 } else { 87 + n as u8 }
}

// Writes the last d digits of n in the base from `at` on.
fn put_last(out: &mut [u8], at: usize, base: u64, d: usize, n: u64)
    requires { (0 < base) × (base ≤ 16) × (at + d ≤ length out.old) }
    ensures { out.new ≡ sets out.old at (last_in base d n) }
{
    if d == 0 {
        return;
    }
    put_last(out, at, base, d - 1, n / base);
    out[at + (d - 1)] = digit_byte(n % base);
}

// Writes a minus, where the number is negative.
fn put_sign(out: &mut [u8], at: usize, negative: bool) -> usize
    requires { at + 1 ≤ length out.old }
    ensures { (out.new ≡ sets out.old at (sign_text negative)) × (result ≡ at + length (sign_text negative)) }
{
    if negative {
        out[at] = b'-';
        return at + 1;
    }
    at
}

// Writes a point and the last k digits of m, where k is not 0.
fn put_places(out: &mut [u8], at: usize, m: u64, k: usize) -> usize
    requires { at + k + 1 ≤ length out.old }
    ensures { (out.new ≡ sets out.old at (places_text k m)) × (result ≡ at + length (places_text k m)) }
{
    if k == 0 {
        return at;
    }
    out[at] = b'.';
    put_last(out, at + 1, 10, k, m);
    at + 1 + k
}

// Writes m / 10^k from `at` on.
fn put_fraction(out: &mut [u8], at: usize, negative: bool, m: u64, k: usize) -> usize
    requires { (m < 1000000000000000) × (k ≤ 9) × (at + 18 ≤ length out.old) }
    ensures { (out.new ≡ sets out.old at (decimal_text negative m k)) × (result ≡ at + length (decimal_text negative m k)) × (result ≤ at + 18) }
{
    let sign = put_sign(out, at, negative);
    let whole = put_decimal(out, sign, (m / ten_to(k)) as usize);
    put_places(out, whole, m, k)
}

// Writes 0x and the 16 hexadecimal digits of n from `at` on.
fn put_hex(out: &mut [u8], at: usize, n: u64) -> usize
    requires { at + 18 ≤ length out.old }
    ensures { (out.new ≡ sets out.old at (hex_text n)) × (result ≡ at + length (hex_text n)) × (result ≤ at + 18) }
{
    let digits = put_text(out, at, b"0x");
    put_last(out, digits, 16, 16, n);
    digits + 16
}

// Writes an f64, given by its bits, from `at` on.
pub fn put_real(out: &mut [u8], at: usize, bits: u64) -> usize
    requires { at + 18 ≤ length out.old }
    ensures { (out.new ≡ sets out.old at (real_text bits)) × (result ≡ at + length (real_text bits)) × (result ≤ at + 18) }
{
    let k = places_of(bits);
    if k == 10 {
        return put_hex(out, at, bits);
    }
    put_fraction(out, at, bits >= 0x8000000000000000, scaled_of(bits, k), k)
}
