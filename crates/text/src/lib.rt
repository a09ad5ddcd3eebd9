// The bytes of a source: the UTF-8 test, places carried forward, and the converter of integers.
#![tactic(auto)]

ghost use Rattle.std.specs.Prelude.{◌≡◌, ◌+◌, ◌*◌, ◌≤◌, ◌<◌, ◌∷◌, true, length, drop, replicate, SomeIff};
ghost use Rattle.meaning.specs.Utf8.{tail, has, character, valid};
ghost use Rattle.meaning.specs.Places.{place_at};
ghost use Rattle.meaning.specs.Convert.{digit_of, digits, radix, convert, reason_of, value_of};
ghost use Rattle.text.specs.Fitting.{in_range, reached};
ghost use Rattle.text.specs.Utf8Laws.{octets};
ghost use Rattle.text.specs.PlaceLaws.{LineLength};

use meaning::{ConversionError, SourceLocation};

// Whether n tails stand at the front.
#[inline(always)]
fn has_tails(s: &[u8], n: usize) -> bool
    ensures { result ≡ has (replicate n tail) s.now }
{
    n <= s.len() && s[..n].iter().all(|b| matches!(b, 0x80..=0xBF))
}

// Whether a byte from least to most stands at the front, and then n tails.
#[inline(always)]
fn has_octets(s: &[u8], least: u8, most: u8, n: usize) -> bool
    ensures { result ≡ has (octets least most n) s.now }
{
    match s {
        [first, rest @ ..] => least <= *first && *first <= most && has_tails(rest, n),
        [] => false,
    }
}

// How long a character is, if behind its first byte stands one from least to most, and then n tails.
#[inline(always)]
fn followed(rest: &[u8], least: u8, most: u8, n: usize) -> Option<usize>
    requires { n ≤ 2 }
    ensures { SomeIff result (has (octets least most n) rest.now ≡ true) (n + 2) }
{
    has_octets(rest, least, most, n).then_some(n + 2)
}

// How long the character is whose first byte is above 0x7F and before these, if there is one. What may follow its first byte goes by
// the table of RFC 3629.
fn wide(first: u8, rest: &[u8]) -> Option<usize>
    requires { 0x7F < first }
    ensures { SomeIff result (0 < character (first ∷ rest.now)) (character (first ∷ rest.now)) }
{
    match first {
        0xC2..=0xDF => followed(rest, 0x80, 0xBF, 0),
        0xE0 => followed(rest, 0xA0, 0xBF, 1),
        0xE1..=0xEC => followed(rest, 0x80, 0xBF, 1),
        0xED => followed(rest, 0x80, 0x9F, 1),
        0xEE..=0xEF => followed(rest, 0x80, 0xBF, 1),
        0xF0 => followed(rest, 0x90, 0xBF, 2),
        0xF1..=0xF3 => followed(rest, 0x80, 0xBF, 2),
        0xF4 => followed(rest, 0x80, 0x8F, 2),
        _ => None,
    }
}

// The length of the longest prefix that is UTF-8. The loop is no `for`: it goes on by a character's length.
pub fn valid_prefix(s: &[u8]) -> usize
    ensures { result ≡ valid s.now }
{
    let mut len = 0;
    while len < s.len() {
        if s[len].is_ascii() {
            len += 1;
        } else {
            match wide(s[len], &s[len + 1..]) {
                Some(n) => len += n,
                None => return len,
            }
        }
    }
    len
}

// How many bytes from the front are no LF. Written as a loop by index, and the move line by line: one `for` over the bytes of the way
// takes half as long again.
fn line_length(s: &[u8]) -> usize
    ensures { LineLength s.now result }
{
    let mut i: usize = 0;
    while i < s.len() {
        if s[i] == 10 {
            return i;
        }
        i += 1;
    }
    i
}

// The place p, moved forward to the offset `to`: a line more for each LF on the way.
pub fn move_to(s: &[u8], p: SourceLocation, to: usize) -> SourceLocation
    requires { (p ≡ place_at s.now p.offset) × ((p.offset ≤ to) × (to ≤ length s.now)) }
    ensures { result ≡ place_at s.now to }
{
    let mut line: usize = p.line;
    let mut column: usize = p.column;
    let mut i: usize = p.offset;
    loop {
        let n = line_length(&s[i..to]);
        if i + n == to {
            return SourceLocation {
                offset: to,
                line,
                column: column + n,
            };
        }
        line += 1;
        column = 0;
        i += n + 1;
    }
}

// A digit's value, if it is one in the base, as Rust's char::to_digit. Three functions ask this of a base, as to_digit does; a type
// of the two bases that are used would be opened in each.
#[inline(always)]
fn to_digit(b: u8, base: u32) -> Option<u64>
    requires { (2 ≤ base) × (base ≤ 36) }
    ensures { SomeIff result (digit_of b < base) (digit_of b) }
{
    char::from(b).to_digit(base).map(u64::from)
}

// The number with one digit more behind it; none, once it is too large.
#[inline(always)]
fn add_digit(number: Option<u64>, base: u32, d: u64) -> Option<u64>
    requires { 1 ≤ base }
    ensures { result ≡ in_range (reached number * base + d) }
{
    number?.checked_mul(u64::from(base))?.checked_add(d)
}

// The number that the bytes say. A wrong byte behind one that is too large already is told first.
#[inline]
fn all_digits(s: &[u8], base: u32) -> Result<u64, ConversionError>
    requires { (2 ≤ base) × (base ≤ 36) }
    ensures { result ≡ digits base s.now 0 }
{
    let mut number = Some(0);
    for b in s {
        let d = to_digit(*b, base).ok_or(ConversionError::BadDigit)?;
        number = add_digit(number, base, d);
    }
    number.ok_or(ConversionError::TooLarge)
}

// One leading plus sign, if digits follow.
fn from_str_radix(s: &[u8], base: u32) -> Result<u64, ConversionError>
    requires { (2 ≤ base) × (base ≤ 36) }
    ensures { result ≡ radix base s.now }
{
    match s {
        [] => Err(ConversionError::Empty),
        [b'+'] => Err(ConversionError::BadDigit),
        [b'+', digits @ ..] => all_digits(digits, base),
        _ => all_digits(s, base),
    }
}

// Base 16 after `0x`, else base 10.
pub fn convert(s: &[u8]) -> Result<u64, ConversionError>
    ensures { result ≡ convert s.now }
{
    match s {
        [b'0', b'x', digits @ ..] => from_str_radix(digits, 16),
        _ => from_str_radix(s, 10),
    }
}

// 01's number for the answer, as the C interface tells it.
pub fn reason_of(c: Result<u64, ConversionError>) -> u64
    ensures { result ≡ reason_of c }
{
    match c {
        Ok(_) => 0,
        Err(error) => error.reason(),
    }
}

// The value, 0 where there is none, as rows and the C interface have it.
pub fn value_of(c: Result<u64, ConversionError>) -> u64
    ensures { result ≡ value_of c }
{
    c.unwrap_or(0)
}
