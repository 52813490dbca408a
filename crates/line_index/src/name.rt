//! Names of fields.

ghost use Rattle.std.specs.Prelude.{◌≡◌};
ghost use Rattle.std.specs.Str.{bytes_eq, str_to_ascii_lowercase};

/// Whether the text in lower case is the name. So a name with a letter in upper case is no text's.
pub fn lowers_to(text: &[u8], name: &[u8]) -> bool
    ensures { result ≡ bytes_eq (str_to_ascii_lowercase text.now) name.now }
{
    text.len() == name.len()
        && text
            .iter()
            .zip(name)
            .all(|(written, lower)| written.to_ascii_lowercase() == *lower)
}
