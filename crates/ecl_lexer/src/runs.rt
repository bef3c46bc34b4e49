//! Counts the bytes of one class at the front of a text.
ghost use Rattle.std.specs.Prelude.{◌≡◌, ◌≤◌, length};
ghost use Rattle.std.specs.Char.{is_ascii_alphabetic, is_ascii_digit};
ghost use Rattle.std.specs.List.{prefix_len};
ghost use Rattle.ecl_lexer.specs.Bytes.{is_code_byte as is_code, is_space as is_space_byte, is_term_byte as is_term};

/// Whether a byte is a space, a tab, CR or LF.
pub fn is_space(byte: u8) -> bool
    ensures { result ≡ is_space_byte byte }
{
    byte == b' ' || byte == b'\t' || byte == b'\r' || byte == b'\n'
}

/// Counts the digits at the front of `text`.
pub fn digit_count(text: &[u8]) -> usize
    ensures count { result ≡ prefix_len is_ascii_digit text.now }
    ensures within { result ≤ length text.now }
{
    text.iter().take_while(|byte| byte.is_ascii_digit()).count()
}

/// Counts the ASCII letters at the front of `text`.
pub fn letter_count(text: &[u8]) -> usize
    ensures count { result ≡ prefix_len is_ascii_alphabetic text.now }
    ensures within { result ≤ length text.now }
{
    text.iter()
        .take_while(|byte| byte.is_ascii_alphabetic())
        .count()
}

/// Counts the ASCII letters, digits and `-` at the front of `text`.
pub fn code_count(text: &[u8]) -> usize
    ensures count { result ≡ prefix_len is_code text.now }
    ensures within { result ≤ length text.now }
{
    text.iter().take_while(|byte| is_code_byte(**byte)).count()
}

/// Counts the spaces, tabs, CR and LF at the front of `text`.
pub fn space_count(text: &[u8]) -> usize
    ensures count { result ≡ prefix_len is_space_byte text.now }
    ensures within { result ≤ length text.now }
{
    text.iter().take_while(|byte| is_space(**byte)).count()
}

/// Counts the bytes of `text` before its first `|`, or all bytes if it has none.
pub fn term_count(text: &[u8]) -> usize
    ensures count { result ≡ prefix_len is_term text.now }
    ensures within { result ≤ length text.now }
{
    text.iter().take_while(|byte| is_term_byte(**byte)).count()
}

// Whether `byte` is a letter, a digit or `-`: a byte of the code of an alternate identifier.
fn is_code_byte(byte: u8) -> bool
    ensures { result ≡ is_code byte }
{
    byte.is_ascii_alphabetic() || byte.is_ascii_digit() || byte == b'-'
}

// Whether `byte` may stand inside a term: any byte but `|`.
fn is_term_byte(byte: u8) -> bool
    ensures { result ≡ is_term byte }
{
    byte != b'|'
}
