// A word as a number: a decimal numeral of at most 15 digits, or `x` and the 16 hexadecimal digits of its bits.
ghost use Rattle.std.specs.Prelude.{◌≡◌, drop};
ghost use Rattle.words.specs.Digits.{lead, after};
ghost use Rattle.words.specs.Runs.{Reads};
ghost use Rattle.words.specs.Number.{limited_of, plain_of, decimal_word, hex_word, number_of, whole_of};

// The most digits of a numeral.
const MOST_DIGITS: usize = 15;

// The least number that has that many digits.
const FULL: u64 = 100_000_000_000_000;

// The digits of a number's bits.
const BITS_DIGITS: usize = 16;

// Digits, read on from a value: the value with them, how many they are, and what follows them.
#[derive(Clone, Copy)]
struct Run<'a> {
    value: u64,
    len: usize,
    rest: &'a [u8],
}

// The digits that a text starts with, read on from a value. A value that has 15 digits takes no more.
fn digits(text: &[u8], before: u64) -> Run<'_>
    ensures reads { Reads text.now before result.value result.len }
    ensures rest { result.rest.now ≡ drop result.len text.now }
{
    let mut value = before;
    for (i, byte) in text.iter().enumerate() {
        if !byte.is_ascii_digit() || FULL <= value {
            return Run {
                value,
                len: i,
                rest: &text[i..],
            };
        }
        value = value * 10 + u64::from(*byte - b'0');
    }
    Run {
        value,
        len: text.len(),
        rest: &[],
    }
}

// The sign, and what follows it.
fn decimal(word: &[u8]) -> Option<f64>
    ensures { result ≡ decimal_word word.now }
{
    match word {
        [b'-', text @ ..] => plain(true, text),
        _ => plain(false, word),
    }
}

// Digits, and after them nothing, or a point and digits.
fn plain(negative: bool, text: &[u8]) -> Option<f64>
    ensures { result ≡ plain_of negative (lead text.now) (after text.now) }
{
    let whole = digits(text, 0);
    if whole.len == 0 {
        return None;
    }
    match whole.rest {
        [] => short(negative, whole.value, whole.len, 0),
        [b'.', places @ ..] => {
            let part = digits(places, whole.value);
            if part.len == 0 || !part.rest.is_empty() {
                return None;
            }
            short(negative, part.value, whole.len + part.len, part.len)
        }
        _ => None,
    }
}

// The numeral's value, unless it has too many digits in all.
#[tactic(auto, using(std::proofs::lemmas::Bool::Decides::nat_tests), unfolding(crate::specs::Number::limited_of))]
fn short(negative: bool, value: u64, digits: usize, places: usize) -> Option<f64>
    ensures { result ≡ limited_of negative value digits places }
{
    if MOST_DIGITS < digits {
        return None;
    }
    numeral::decimal(negative, value, places)
}

// Exactly 16 hexadecimal digits, most significant first.
fn bits(digits: &[u8]) -> Option<f64>
    ensures { result ≡ hex_word digits.now }
{
    if digits.len() != BITS_DIGITS {
        return None;
    }
    let mut bits = 0;
    for byte in digits {
        bits = bits * 16 + numeral::hex_digit(*byte)?;
    }
    Some(numeral::from_bits(bits))
}

#[tactic(auto, using(std::proofs::lemmas::Bool::Decides::nat_tests), unfolding(crate::specs::Number::number_of))]
pub fn of(word: &[u8]) -> Option<f64>
    ensures { result ≡ number_of word.now }
{
    match word {
        [b'x', digits @ ..] => bits(digits),
        _ => decimal(word),
    }
}

// A whole number: digits alone.
pub fn whole_of(word: &[u8]) -> Option<u64>
    ensures { result ≡ whole_of word.now }
{
    let run = digits(word, 0);
    if 0 < run.len && run.len <= MOST_DIGITS && run.rest.is_empty() {
        Some(run.value)
    } else {
        None
    }
}
