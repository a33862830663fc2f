//! Decimal numbers.
ghost use Rattle.std.specs.Prelude.{◌≡◌, ◌≤◌, length, IsTrue};
ghost use Rattle.std.specs.Char.{is_ascii_digit};
ghost use Rattle.std.specs.List.{list_all};
ghost use Rattle.pdn_base.specs.Numbers.{number_of, value_of};

/// The number that 1 to 10 decimal digits spell, up to 4294967295; leading zeros are taken.
pub fn number(digits: &[u8]) -> Option<u32>
    ensures { result ≡ number_of digits.now }
{
    if digits.is_empty() || digits.len() > 10 || !all_digits(digits) {
        return None;
    }
    let value = value(digits);
    if value > u64::from(u32::MAX) {
        return None;
    }
    Some(value as u32)
}

fn all_digits(bytes: &[u8]) -> bool
    ensures { result ≡ list_all is_ascii_digit bytes.now }
{
    bytes.iter().all(|byte| byte.is_ascii_digit())
}

fn value(digits: &[u8]) -> u64
    requires few { length digits.now ≤ 10 }
    requires digits { IsTrue (list_all is_ascii_digit digits.now) }
    ensures { result ≡ value_of digits.now }
{
    let mut value = 0;
    for digit in digits {
        value = value * 10 + u64::from(*digit - b'0');
    }
    value
}
