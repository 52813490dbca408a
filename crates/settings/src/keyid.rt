//! Keyids.

ghost use Rattle.std.specs.Prelude.{◌≡◌};
ghost use Rattle.settings.specs.Keys.{is_keyid};

use nonces::MAX_KEYID_BYTES;
use sfv_text::are_string_bytes;

/// Whether the text can be a keyid of a configuration: 1 to `MAX_KEYID_BYTES` printable bytes of
/// ASCII.
pub fn is_keyid(keyid: &[u8]) -> bool
    ensures { result ≡ is_keyid keyid.now }
{
    1 <= keyid.len() && keyid.len() <= MAX_KEYID_BYTES && are_string_bytes(keyid)
}
