// The number that a word is, in decimal digits. A number above its limit is none: the test stands before the step, so that no step leaves its type.
ghost use Rattle.std.specs.Prelude.{◌≡◌};
ghost use Rattle.meaning.specs.SheetText.{number_of, signed_of};
ghost use Rattle.sheets.specs.Arguments.{in_digits, in_decimal};

// A number of at most so much.
pub fn number(word: &[u8], limit: u64) -> Option<u64>
    ensures { result ≡ number_of limit word.now }
{
    let mut n: u64 = 0;
    for byte in word {
        if !byte.is_ascii_digit() {
            return None;
        }
        let digit = u64::from(*byte - b'0');
        if limit < digit || (limit - digit) / 10 < n {
            return None;
        }
        n = 10 * n + digit;
    }
    if word.is_empty() {
        return None;
    }
    Some(n)
}

// A number of 64 bits, with a minus before it where it is below 0. The least one has no opposite among them.
pub fn signed(word: &[u8]) -> Option<i64>
    ensures { result ≡ signed_of word.now }
{
    if let Some(digits) = word.strip_prefix(b"-") {
        let below = number(digits, 9223372036854775808)?;
        return Some(0_i64.saturating_sub_unsigned(below));
    }
    let above = number(word, 9223372036854775807)?;
    Some(above as i64)
}

// Whether a word is a number, however large, with a minus before it where it is below 0.
pub fn is_decimal(word: &[u8]) -> bool
    ensures { result ≡ in_decimal word.now }
{
    is_digits(word.strip_prefix(b"-").unwrap_or(word))
}

// Whether a word is decimal digits, one at least.
#[tactic(auto, using(crate::proofs::numerals::Digits::in_digits_is))]
fn is_digits(word: &[u8]) -> bool
    ensures { result ≡ in_digits word.now }
{
    !word.is_empty() && word.iter().all(|byte| byte.is_ascii_digit())
}
