// A line of text taken apart: its content, its words, and the numbers and bytes that words write.
ghost use Rattle.std.specs.Prelude.{◌≡◌, ◌+◌, ◌*◌, ◌/◌, ◌≤◌, ◌<◌, min, length};
ghost use Rattle.text.specs.Written.{Written};
ghost use Rattle.replay_lexer.specs.Words.{is_blank, trimmed, content, word_at, words_behind, has_gap};
ghost use Rattle.replay_lexer.specs.Numbers.{is_number, are_numbers, value_of, wide_at, narrow_at};
ghost use Rattle.replay_lexer.specs.Hex.{is_hex, digit_value, pair_at, bytes_of};

use crate::lines;

fn is_blank(x: u8) -> bool
    ensures { result ≡ is_blank x }
{
    x == b' ' || x == b'\t' || x == b'\r'
}

// A text without the blanks at its end.
#[tactic(auto, unfolding(crate::specs::Words::trimmed))]
fn trimmed(s: &[u8]) -> &[u8]
    ensures { result.now ≡ trimmed s.now }
{
    match s.iter().rposition(|x| !is_blank(*x)) {
        Some(last) => &s[..=last],
        None => &[],
    }
}

// The content of a line.
#[tactic(auto, unfolding(crate::specs::Words::content))]
pub fn content(line: &[u8]) -> &[u8]
    ensures { result.now ≡ content line.now }
{
    trimmed(lines::until(line, b'#'))
}

// Word k, counted from 0; a text and the number of a word, here and below.
#[tactic(auto, unfolding(crate::specs::Words::word_at))]
pub fn word(s: &[u8], k: usize) -> &[u8]
    ensures { result.now ≡ word_at s.now k }
{
    s.split(|x| *x == b' ').nth(k).unwrap_or(&[])
}

// How many words stand behind the first.
#[tactic(auto, unfolding(crate::specs::Words::words_behind))]
pub fn words_behind(s: &[u8]) -> usize
    ensures { result ≡ words_behind s.now }
{
    s.iter().filter(|x| **x == b' ').count()
}

// Whether two spaces stand together or one in front.
pub fn has_gap(s: &[u8]) -> bool
    ensures { result ≡ has_gap s.now }
{
    let mut space = true;
    for x in s {
        let next = *x == b' ';
        if space && next {
            return true;
        }
        space = next;
    }
    false
}

// Whether a word is a decimal number.
#[tactic(auto, unfolding(crate::specs::Numbers::is_number))]
fn is_number(w: &[u8]) -> bool
    ensures { result ≡ is_number w.now }
{
    !w.is_empty() && w.iter().all(|x| x.is_ascii_digit())
}

// Whether words 1 to n are decimal numbers.
#[tactic(auto, unfolding(crate::specs::Numbers::are_numbers))]
pub fn are_numbers(s: &[u8], n: usize) -> bool
    ensures { result ≡ are_numbers s.now n }
{
    (0..n).all(|k| is_number(word(s, k + 1)))
}

// The number that a word's digits make; at most the greatest of 64 bits.
#[tactic(auto, unfolding(crate::specs::Numbers::value_of))]
fn value(w: &[u8]) -> u64
    ensures { result ≡ min 18446744073709551615 (value_of w.now) }
{
    w.iter().fold(0u64, |v, x| {
        v.saturating_mul(10)
            .saturating_add(u64::from(x.saturating_sub(b'0')))
    })
}

// The number in word k, at 64 bits.
#[tactic(auto, unfolding(crate::specs::Numbers::wide_at))]
pub fn wide_at(s: &[u8], k: usize) -> u64
    ensures { result ≡ wide_at s.now k }
{
    value(word(s, k))
}

// The number in word k, at 32 bits.
#[tactic(auto, unfolding(crate::specs::Numbers::narrow_at))]
pub fn narrow_at(s: &[u8], k: usize) -> u32
    ensures { result ≡ narrow_at s.now k }
{
    u32::try_from(value(word(s, k))).unwrap_or(u32::MAX)
}

// Whether a word is pairs of hexadecimal digits.
#[tactic(auto, unfolding(crate::specs::Hex::is_hex))]
pub fn is_hex(w: &[u8]) -> bool
    ensures { result ≡ is_hex w.now }
{
    w.len() % 2 == 0 && w.iter().all(|x| x.is_ascii_hexdigit())
}

#[tactic(auto, unfolding(crate::specs::Hex::digit_value))]
fn digit_value(x: u8) -> u8
    ensures { (result ≡ digit_value x) × (result < 16) }
{
    match x {
        b'0'..=b'9' => x - b'0',
        b'A'..=b'F' => x - b'A' + 10,
        b'a'..=b'f' => x - b'a' + 10,
        _ => 0,
    }
}

#[tactic(auto, unfolding(crate::specs::Hex::pair_at))]
fn pair_at(w: &[u8], k: usize) -> u8
    requires { 2 * k + 1 < length w.now }
    ensures { result ≡ pair_at w.now k }
{
    16 * digit_value(w[2 * k]) + digit_value(w[2 * k + 1])
}

// The bytes of a word of pairs, put at the start of a buffer; answers how many. The pairs go by their
// places: behind a `zip` with `w.chunks_exact(2)` nothing is known of the buffer's bytes. That a word
// fits is one inequality between two lent buffers, here and at its callers, and a name for it would
// say less.
#[tactic(auto, unfolding(crate::specs::Hex::bytes_of))]
pub fn put_pairs(w: &[u8], out: &mut [u8]) -> usize
    requires { length w.now ≤ 2 * length out.old }
    ensures { Written (bytes_of w.now) (length w.now / 2) out.old result out.new }
{
    let n = w.len() / 2;
    for (i, byte) in out[..n].iter_mut().enumerate() {
        *byte = pair_at(w, i);
    }
    n
}
