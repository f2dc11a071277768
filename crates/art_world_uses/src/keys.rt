//! Keys of few bytes.
use art_key::Key;

/// The key of these bytes.
pub(crate) fn key_of<const N: usize>(bytes: [u8; N]) -> Key {
    let mut key = Key::new();
    for byte in bytes {
        if key.len() < 64 {
            key.push(byte);
        }
    }
    key
}
