// Numbers as text has them: a decimal numeral's value, and a number's bits.
#![tactic(auto)]

ghost use Rattle.std.specs.Prelude.{◌≡◌, ◌<◌, IfSome};
ghost use Rattle.std.specs.Float.{binary64};
ghost use Rattle.std.specs.Float.Ieee.{of_bits};
ghost use Rattle.numeral.specs.Decimal.{decimal_of};
ghost use Rattle.numeral.specs.Bits.{bits_of};
ghost use Rattle.numeral.specs.Hex.{hex_of};

// The least number that has more than 15 digits.
const TOO_LONG: u64 = 1_000_000_000_000_000;

// The most digits behind the point.
const MOST_PLACES: usize = 15;

// The number nearest to digits / 10 ^ places, with its sign. Both are whole numbers below 2 ^ 53, which an f64 holds exactly, so one
// division rounds once. Refused: more than 15 digits, or more than 15 places.
pub fn decimal(negative: bool, digits: u64, places: usize) -> Option<f64>
    ensures { result ≡ decimal_of negative digits places }
{
    if digits < TOO_LONG && places <= MOST_PLACES {
        let size = (digits as f64) / (10_u64.pow(places as u32) as f64);
        return Some(if negative { -size } else { size });
    }
    None
}

// The number that has these bits. `f64::from_bits` is not defined at a NaN's: without the sign they are above those of infinity.
pub fn from_bits(bits: u64) -> f64
    ensures { result ≡ of_bits binary64 bits }
{
    if 0x7ff0_0000_0000_0000 < bits % 0x8000_0000_0000_0000 {
        return f64::NAN;
    }
    f64::from_bits(bits)
}

// The bits of a number, and one pattern for every NaN.
#[tactic(auto, unfolding(crate::specs::Bits::bits_of))]
pub fn to_bits(x: f64) -> u64
    ensures { result ≡ bits_of x }
{
    if x.is_nan() {
        return 0x7ff8_0000_0000_0000;
    }
    x.to_bits()
}

// What a byte is worth as a lower-case hexadecimal digit.
#[tactic(auto, using(std::proofs::lemmas::Bool::Decides::nat_tests), unfolding(crate::specs::Hex::hex_of))]
pub fn hex_digit(byte: u8) -> Option<u64>
    ensures value { result ≡ hex_of byte }
    ensures below { IfSome result (λ digit. digit < 16) }
{
    match byte {
        b'0'..=b'9' => Some(u64::from(byte - b'0')),
        b'a'..=b'f' => Some(u64::from(byte - b'a' + 10)),
        _ => None,
    }
}
