//! The numbers and names that words are.
ghost use Rattle.std.specs.Prelude.{◌≡◌};
ghost use Rattle.std.specs.List.{list_all};
ghost use Rattle.std.specs.Char.{is_ascii_digit};
ghost use Rattle.lines.specs.Words.{is_number, name_in, number_in};

use task_sheet::Name;

fn are_digits(text: &[u8]) -> bool
    ensures { result ≡ list_all is_ascii_digit text.now }
{
    text.iter().all(|b| b.is_ascii_digit())
}

fn is_number(text: &[u8]) -> bool
    ensures { result ≡ is_number text.now }
{
    !text.is_empty() && text.len() <= 10 && (text.len() == 1 || text[0] != b'0') && are_digits(text)
}

/// The number that 1 to 10 digits spell, with no zero in front of others; `None` for any other word.
pub fn number_of(text: &[u8]) -> Option<u64>
    ensures { result ≡ number_in text.now }
{
    if !is_number(text) {
        return None;
    }
    let mut number = 0;
    for b in text {
        number = number * 10 + u64::from(*b - b'0');
    }
    Some(number)
}

/// The name that a word is; `None` for any other word.
pub fn name_of(text: &[u8]) -> Option<Name>
    ensures { result ≡ name_in text.now }
{
    match Name::read(text) {
        Ok(name) => Some(name),
        Err(_) => None,
    }
}
