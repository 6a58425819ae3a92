//! Numbers as words and scripts spell them.

ghost use Rattle.std.specs.Prelude.{◌≡◌};
ghost use Rattle.kmem_text.specs.Numbers.{number_within, is_numeral, has_leading_zero};
ghost use Rattle.kmem_text.specs.Texts.{is_within};
ghost use Rattle.std.specs.List.{list_all};
ghost use Rattle.std.specs.Str.Parse.{digits_value};
ghost use Rattle.std.specs.Prelude.{◌^◌, min, true};

/// The number that a word spells, if it is one from `least` to `most`: digits alone, with no leading zero but in `0`.
pub fn number_within(word: &[u8], least: u32, most: u32) -> Option<u32>
    ensures { result ≡ number_within least most word.now }
{
    if !is_numeral(word) {
        return None;
    }
    let number = capped_value(word);
    if u64::from(least) <= number && number <= u64::from(most) {
        Some(number as u32)
    } else {
        None
    }
}

fn is_numeral(word: &[u8]) -> bool
    ensures { result ≡ is_numeral word.now }
{
    !word.is_empty() && all_digits(word) && !has_leading_zero(word)
}

fn all_digits(word: &[u8]) -> bool
    ensures { result ≡ list_all (is_within 48 57) word.now }
{
    word.iter().all(|byte| matches!(*byte, b'0'..=b'9'))
}

fn has_leading_zero(word: &[u8]) -> bool
    ensures { result ≡ has_leading_zero word.now }
{
    word.len() > 1 && word[0] == b'0'
}

/// The value of some digits, or 2^32 where it is more.
fn capped_value(digits: &[u8]) -> u64
    requires { list_all (is_within 48 57) digits.now ≡ true }
    ensures { result ≡ min (digits_value 10 digits.now) (2 ^ 32) }
{
    let mut value = 0u64;
    for digit in digits {
        value = (10 * value + u64::from(*digit - b'0')).min(1 << 32);
    }
    value
}
