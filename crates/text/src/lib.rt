// Text that programs print, put into a lent buffer. Each function answers how many bytes it put;
// what stands behind them in the buffer stays. A byte behind a text is stored at that place: by
// `put_bytes(&[after], &mut out[n..])` it would be no plainer. No `Display`: std's `write!` says what
// it put only where it answers Ok, and of a lent slice nothing.
#![tactic(auto)]

ghost use Rattle.std.specs.Prelude.{◌≡◌, ℕ, [], ◌∷◌, ◌++◌, ◌*◌, ◌^◌, ◌≤◌, ◌<◌, length};
ghost use Rattle.text.specs.Decimal.{glyph, digits_of, decimal, signed, spaced};
ghost use Rattle.text.specs.Hex.{hexadecimal};
ghost use Rattle.text.specs.Written.{Written};

// A digit below sixteen, capital from ten on.
fn glyph_of(d: u64) -> u8
    requires { d < 16 }
    ensures { result ≡ glyph d }
{
    if d < 10 {
        b'0' + d as u8
    } else {
        b'A' - 10 + d as u8
    }
}

// A base, as a type: so the compiler knows the divisor, and no digit takes a division. A const parameter would be
// plainer, but with one alone the kit does not prove the recursion below.
trait Base {
    ghost NUMBER: { ℕ };

    const NUMBER: u64;
}

struct Ten;

struct Sixteen;

impl Base for Ten {
    ghost NUMBER = { 10 };

    const NUMBER: u64 = 10;
}

impl Base for Sixteen {
    ghost NUMBER = { 16 };

    const NUMBER: u64 = 16;
}

// A number in a base, of at most `most` digits: the digits of its quotient, and behind them the last one.
fn put_digits<B: Base>(most: usize, x: u64, out: &mut [u8]) -> usize
    requires { (2 ≤ B.NUMBER) × (B.NUMBER ≤ 16) × (1 ≤ most) × (x < B.NUMBER ^ most) × (most ≤ length out.old) }
    ensures { Written (digits_of B.NUMBER most x) most out.old result out.new }
{
    let base = B::NUMBER;
    if x < base {
        out[0] = glyph_of(x);
        return 1;
    }
    let n = put_digits::<B>(most - 1, x / base, out);
    out[n] = glyph_of(x % base);
    n + 1
}

// A number in plain decimal. At most twenty calls deep.
#[tactic(auto, unfolding(crate::specs::Decimal::decimal))]
pub fn put_decimal(x: u64, out: &mut [u8]) -> usize
    requires { 20 ≤ length out.old }
    ensures { Written (decimal x) 20 out.old result out.new }
{
    put_digits::<Ten>(20, x, out)
}

// The same with a minus sign before it where it is negative. The sign stands beside the size, as
// `units::Signed` tells both.
pub fn put_signed(negative: bool, size: u64, out: &mut [u8]) -> usize
    requires { 21 ≤ length out.old }
    ensures { Written (signed negative size) 21 out.old result out.new }
{
    if negative {
        out[0] = b'-';
        return 1 + put_decimal(size, &mut out[1..]);
    }
    put_decimal(size, out)
}

// A number in capital hexadecimal. At most eight calls deep.
#[tactic(auto, unfolding(crate::specs::Hex::hexadecimal))]
pub fn put_hex(x: u32, out: &mut [u8]) -> usize
    requires { 8 ≤ length out.old }
    ensures { Written (hexadecimal x) 8 out.old result out.new }
{
    put_digits::<Sixteen>(8, u64::from(x), out)
}

// The bytes of a word.
#[tactic(auto, unfolding(crate::specs::Decimal::starting_with))]
pub fn put_bytes(word: &[u8], out: &mut [u8]) -> usize
    requires { length word.now ≤ length out.old }
    ensures { Written word.now (length word.now) out.old result out.new }
{
    out[..word.len()].copy_from_slice(word);
    word.len()
}

// A number and one byte behind it, a space or a newline.
pub fn put_item(x: u64, after: u8, out: &mut [u8]) -> usize
    requires { 21 ≤ length out.old }
    ensures { Written (decimal x ++ (after ∷ [])) 21 out.old result out.new }
{
    let n = put_decimal(x, out);
    out[n] = after;
    n + 1
}

// A line: numbers with single spaces between them, and a newline. It keeps its own place in the
// buffer: `text_writer::TextWriter` is of a crate above this one.
pub fn put_numbers(v: &[u64], out: &mut [u8]) -> usize
    requires { (1 ≤ length v.now) × (length v.now * 21 ≤ length out.old) }
    ensures { Written (spaced v.now ++ (10 ∷ [])) (length v.now * 21) out.old result out.new }
{
    let last = v.len() - 1;
    let mut at = 0;
    for x in &v[..last] {
        at += put_item(*x, b' ', &mut out[at..]);
    }
    at + put_item(v[last], b'\n', &mut out[at..])
}
