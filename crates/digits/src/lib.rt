// Document 01, "Plan record (Table C.1)": "two decimal digits a byte, high digit first".
#![tactic(auto)]

ghost use Rattle.std.specs.Prelude.{◌≡◌, ◌<◌};
ghost use Rattle.digits.specs.Digits.{pair_of, byte_of, two_digits};

// The number of a byte's two digits.
pub fn pair(b: u8) -> u32
    ensures { result ≡ pair_of b }
{
    (b as u32) / 16 * 10 + (b as u32) % 16
}

// Whether neither digit is above 9.
#[tactic(auto, unfolding(crate::specs::Digits::two_digits))]
pub fn two_digits(b: u8) -> bool
    ensures { result ≡ two_digits b }
{
    (b / 16 < 10) & (b % 16 < 10)
}

// The byte of a number's two digits.
pub fn bcd(x: u64) -> u8
    requires { x < 100 }
    ensures { result ≡ byte_of x }
{
    (x / 10 * 16 + x % 10) as u8
}
