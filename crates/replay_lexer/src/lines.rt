// A buffer of text: where a line ends, and what is not read yet shifted to the start.
ghost use Rattle.std.specs.Prelude.{◌≡◌, ◌≤◌, ◌==◌, length};
ghost use Rattle.std.specs.List.{position_or_len};
ghost use Rattle.replay_lexer.specs.Lines.{until, past, place_of, shifted};

// The first place where b stands, or the end of s, which ends a piece as b does. A text and a byte here
// and below are no pair that stays together.
fn first(s: &[u8], b: u8) -> usize
    ensures place { result ≡ position_or_len (λ x. x == b) s.now }
    ensures within { result ≤ length s.now }
{
    s.iter().position(|x| *x == b).unwrap_or(s.len())
}

// The first place at or after `from` where b stands, or the end of s.
#[tactic(auto, unfolding(crate::specs::Lines::place_of))]
pub fn find(s: &[u8], from: usize, b: u8) -> usize
    requires { from ≤ length s.now }
    ensures { (result ≡ place_of b s.now from) × (from ≤ result) × (result ≤ length s.now) }
{
    from + first(&s[from..], b)
}

// What stands before the first byte b; all of s where there is none.
#[tactic(auto, unfolding(crate::specs::Lines::until))]
pub fn until(s: &[u8], b: u8) -> &[u8]
    ensures { result.now ≡ until b s.now }
{
    &s[..first(s, b)]
}

// What stands behind the first byte b; nothing where there is none.
#[tactic(auto, unfolding(crate::specs::Lines::past))]
pub fn past(s: &[u8], b: u8) -> &[u8]
    ensures { result.now ≡ past b s.now }
{
    let end = first(s, b);
    if end < s.len() { &s[end + 1..] } else { &[] }
}

// The first newline at or after `from`, or the end of the buffer. `first`, `find` and this one each say
// that the place is within the text, as callers cut there; a place has no type of its own.
pub fn line_end(buf: &[u8], from: usize) -> usize
    requires { from ≤ length buf.now }
    ensures { (result ≡ place_of 10 buf.now from) × (from ≤ result) × (result ≤ length buf.now) }
{
    find(buf, from, b'\n')
}

// The bytes from `from` up to `to`, shifted to the start of the buffer: a range, as `copy_within` has it.
#[tactic(auto, unfolding(crate::specs::Lines::shifted, text::specs::Decimal::starting_with))]
pub fn shift(buf: &mut [u8], from: usize, to: usize)
    requires { (from ≤ to) × (to ≤ length buf.old) }
    ensures { buf.new ≡ shifted buf.old from to }
{
    buf.copy_within(from..to, 0);
}
