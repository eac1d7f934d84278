//! Runs of bytes of one class.
ghost use Rattle.std.specs.Prelude.{◌≡◌, ◌≤◌, length};
ghost use Rattle.std.specs.List.{prefix_len};
ghost use Rattle.qc_text.specs.Tokens as spec;
ghost use Rattle.qc_text.specs.Inner.Scanning.{is_in};

/// The bytes that may stand in a name, in a number of base 10 or 16, between quotes, or in a comment of one line.
#[derive(Clone, Copy)]
pub(crate) enum Class {
    NamePart,
    Decimal,
    Hexadecimal,
    StringByte,
    LineByte,
}

/// Whether a name begins with the byte.
pub(crate) fn is_name_start(byte: u8) -> bool
    ensures { result ≡ spec.is_name_start byte }
{
    byte.is_ascii_alphabetic() || byte == b'_'
}

fn is_string_byte(byte: u8) -> bool
    ensures { result ≡ spec.is_string_byte byte }
{
    (b' '..=b'~').contains(&byte) && byte != b'"' && byte != b'\\'
}

fn is_of_class(byte: u8, class: Class) -> bool
    ensures { result ≡ is_in class byte }
{
    match class {
        Class::NamePart => byte.is_ascii_alphanumeric() || byte == b'_',
        Class::Decimal => byte.is_ascii_digit(),
        Class::Hexadecimal => byte.is_ascii_hexdigit(),
        Class::StringByte => is_string_byte(byte),
        Class::LineByte => byte != b'\n',
    }
}

/// How many bytes of the class stand at the front.
pub(crate) fn run_length(bytes: &[u8], class: Class) -> usize
    ensures value { result ≡ prefix_len (is_in class) bytes.now }
    ensures within { result ≤ length bytes.now }
{
    let mut count = 0;
    for byte in bytes {
        if !is_of_class(*byte, class) {
            break;
        }
        count += 1;
    }
    count
}
