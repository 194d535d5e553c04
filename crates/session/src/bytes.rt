// What a byte of a session file is.
ghost use Rattle.std.specs.Prelude.{◌≡◌, if◌then◌else◌};
ghost use Rattle.session.specs.Bytes.{kind_of, in_field, is_space};

#[derive(Clone, Copy, PartialEq, Eq, Debug)]
pub enum Kind {
    Digit,
    Space,
    Feed,
    Letter,
    Foreign,
}

pub fn classify(byte: u8) -> Kind
    ensures { result ≡ kind_of byte }
{
    match byte {
        b'0'..=b'9' => Kind::Digit,
        b' ' => Kind::Space,
        b'\n' => Kind::Feed,
        b'a'..=b'z' => Kind::Letter,
        _ => Kind::Foreign,
    }
}

// Whether a byte goes on with what was begun: spaces before a field, and then the field itself.
pub(crate) fn goes_on(begun: bool, byte: u8) -> bool
    ensures { result ≡ (if begun then in_field byte else is_space byte) }
{
    match classify(byte) {
        Kind::Space if !begun => true,
        Kind::Space | Kind::Feed => false,
        Kind::Digit | Kind::Letter | Kind::Foreign => begun,
    }
}
