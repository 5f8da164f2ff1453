// Words and numbers put into a lent buffer one behind another; what else stands in the buffer stays.
#![tactic(auto)]

ghost use Rattle.std.specs.Prelude.{◌≡◌, cond, [], ◌∷◌, ◌++◌, ◌+◌, ◌≤◌, length};
ghost use Rattle.text.specs.Written.{Written};
ghost use Rattle.text_writer.specs.TextWriter.{HasHeadroom, Appended};
ghost use Rattle.text_writer.specs.Value.{fixed, value_text};

use units::{Charge, Hundredths, Millionths, Shown, Signed, TenThousandths};

// The most bytes of one line, `most_line` in contracts. Each function that puts lines asks that its
// buffer is as long: an array of so many bytes would shut out longer buffers.
pub const MOST_LINE: usize = 320;

// A number in a line: plain; in hexadecimal; a balance or a display as the number of its units, with
// a sign; a volume in cubic metres with two decimals; a price with four or a charge with six in yuan.
// One match puts them all: seven impls of a trait would each have a line of it, and a head of their own.
#[derive(Clone, Copy)]
pub enum Value {
    Whole(u64),
    Code(u32),
    Balance(Millionths),
    Display(Shown),
    Volume(Hundredths),
    Price(TenThousandths),
    Money(Charge),
}

// A number with k decimals: with none it has a point behind it. At most six calls deep.
fn put_fixed(x: u64, k: usize, out: &mut [u8]) -> usize
    requires { (k ≤ 6) × (27 ≤ length out.old) }
    ensures { Written (fixed k x) (21 + k) out.old result out.new }
{
    if k == 0 {
        return text::put_item(x, b'.', out);
    }
    let n = put_fixed(x / 10, k - 1, out);
    out[n] = b'0' + (x % 10) as u8;
    n + 1
}

impl Value {
    fn put(self, out: &mut [u8]) -> usize
        requires { 27 ≤ length out.old }
        ensures { Written (value_text self) 27 out.old result out.new }
    {
        match self {
            Value::Whole(x) => text::put_decimal(x, out),
            Value::Code(x) => text::put_hex(x, out),
            Value::Balance(b) => text::put_signed(b.negative(), b.size(), out),
            Value::Display(s) => text::put_signed(s.negative(), s.size(), out),
            Value::Volume(x) => put_fixed(u64::from(x.0), 2, out),
            Value::Price(x) => put_fixed(x.0, 4, out),
            Value::Money(x) => put_fixed(x.0, 6, out),
        }
    }
}

// A lent buffer and how many bytes of text stand at its start; there is no heap for a `String`.
pub struct TextWriter<'a> {
    pub buffer: &'a mut [u8],
    pub used: usize,
}

impl<'a> TextWriter<'a> {
    pub fn new(buffer: &'a mut [u8]) -> TextWriter<'a>
        ensures same_reference { result.buffer.ghost_name ≡ buffer.entry.ghost_name }
        ensures whole { result.buffer.now ≡ buffer.old }
        ensures blank { result.used ≡ 0 }
    {
        TextWriter { buffer, used: 0 }
    }

    // How many bytes the writer has put, which is given up.
    pub fn end(self) -> usize
        ensures used { result ≡ self.entry.used }
        ensures kept { self.exit.0.now ≡ self.entry.buffer.now }
    {
        let TextWriter { buffer: _, used } = self;
        used
    }

    // A word.
    pub fn word(&mut self, w: &[u8])
        requires { HasHeadroom (length w.now) self.old }
        ensures { Appended w.now (length w.now) self.old self.new }
    {
        self.used += text::put_bytes(w, &mut self.buffer[self.used..]);
    }

    // The first word where the flag holds, else the second.
    pub fn either(&mut self, flag: bool, yes: &[u8], no: &[u8])
        requires { HasHeadroom (length yes.now + length no.now) self.old }
        ensures { Appended (cond flag yes.now no.now) (length yes.now + length no.now) self.old self.new }
    {
        self.word(if flag { yes } else { no });
    }

    fn value(&mut self, v: Value)
        requires { HasHeadroom 27 self.old }
        ensures { Appended (value_text v) 27 self.old self.new }
    {
        self.used += v.put(&mut self.buffer[self.used..]);
    }

    // A word and a number behind it.
    pub fn item(&mut self, w: &[u8], v: Value)
        requires { HasHeadroom (length w.now + 27) self.old }
        ensures { Appended (w.now ++ value_text v) (length w.now + 27) self.old self.new }
    {
        self.word(w);
        self.value(v);
    }

    // A number and one byte behind it, a space or a newline.
    pub fn number(&mut self, v: Value, after: u8)
        requires { HasHeadroom 28 self.old }
        ensures { Appended (value_text v ++ (after ∷ [])) 28 self.old self.new }
    {
        self.value(v);
        self.word(&[after]);
    }
}
