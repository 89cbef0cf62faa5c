//! Numbers that words write in digits.
ghost use Rattle.std.specs.Prelude.{◌≡◌, ◌≤◌, ◌^◌, true, nat_lt, IfSome};
ghost use Rattle.std.specs.List.{list_all};
ghost use Rattle.std.specs.Bool.{then_some};
ghost use Rattle.std.specs.Char.{is_ascii_digit};
ghost use Rattle.std.specs.Str.Parse.{digits_value};
ghost use Rattle.hippo_stmt_lines.specs.Numbers.{has_leading_zero, is_numeral, numeral_value};

fn are_digits(bytes: &[u8]) -> bool
    ensures { result ≡ list_all is_ascii_digit bytes.now }
{
    bytes.iter().all(|byte| byte.is_ascii_digit())
}

fn has_leading_zero(bytes: &[u8]) -> bool
    ensures { result ≡ has_leading_zero bytes.now }
{
    match bytes {
        [first, _, ..] => *first == b'0',
        _ => false,
    }
}

fn is_numeral(word: &str) -> bool
    ensures { result ≡ is_numeral word.now }
{
    let bytes = word.as_bytes();
    !bytes.is_empty() && are_digits(bytes) && !has_leading_zero(bytes)
}

// The number that digits write, or none if it does not fit in 32 bits.
fn value_of(word: &str) -> Option<u32>
    requires { is_numeral word.now ≡ true }
    ensures { result ≡ then_some (nat_lt (digits_value 10 word.now) (2 ^ 32))
        (digits_value 10 word.now) }
{
    word.parse::<u32>().ok()
}

/// The number that a word writes in digits without leading zeros, or none if it is not within these
/// limits.
pub fn number(word: &str, least: u32, most: u32) -> Option<u32>
    ensures number { result ≡ numeral_value least most word.now }
    ensures within { IfSome result (λ number. number ≤ most) }
{
    if !is_numeral(word) {
        return None;
    }
    let value = value_of(word)?;
    if least <= value && value <= most {
        Some(value)
    } else {
        None
    }
}

/// The number of one byte that a word writes, or none if it is not within these limits.
pub fn small_number(word: &str, least: u8, most: u8) -> Option<u8>
    ensures { result ≡ numeral_value least most word.now }
{
    let value = number(word, u32::from(least), u32::from(most))?;
    Some(value as u8)
}
