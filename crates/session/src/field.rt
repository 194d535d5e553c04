// A field of a line, and the number that it is.
ghost use Rattle.std.specs.Prelude.{◌≡◌, ◌≤◌, length, None, MatchResult};
ghost use Rattle.session.specs.Numbers.{number_in, NumberOf};

// A part of the file's own bytes, with the place at which it begins.
#[derive(Clone, Copy, PartialEq, Eq, Debug)]
pub struct Field<'a> {
    pub bytes: &'a [u8],
    pub at: usize,
}

// Why a field is not what belongs there.
#[derive(Clone, Copy, PartialEq, Eq, Debug)]
pub enum FieldFault {
    NotANumber,
}

// The number that some bytes are: 1 to 9 digits.
pub fn number(bytes: &[u8]) -> Result<u32, FieldFault>
    ensures { MatchResult result (NumberOf bytes.now) (λ _. number_in bytes.now ≡ None) }
{
    if bytes.is_empty() || bytes.len() > 9 {
        return Err(FieldFault::NotANumber);
    }
    value_of(bytes)
}

// The same of bytes that are not too few and not too many.
fn value_of(bytes: &[u8]) -> Result<u32, FieldFault>
    requires some { 1 ≤ length bytes.now }
    requires few { length bytes.now ≤ 9 }
    ensures { MatchResult result (NumberOf bytes.now) (λ _. number_in bytes.now ≡ None) }
{
    let mut value = 0;
    for byte in bytes {
        let Some(digit) = char::from(*byte).to_digit(10) else {
            return Err(FieldFault::NotANumber);
        };
        value = value * 10 + digit;
    }
    Ok(value)
}
