//! Bytes in hex: reading them from a word, and writing them at the end of a text.

ghost use Rattle.std.specs.Prelude.{◌≡◌, ◌<◌, ◌++◌, is_ok, IfOk, if◌then◌else◌, string_bytes, vec_items};
ghost use Rattle.std.specs.Option.{option_map};
ghost use Rattle.text.specs.Hex.{hex_digit, byte_of, pairs, hex_bytes, hex_character, hex_text, PrintedBytesReadBack};

use std::alloc::{AllocError, Global};

/// The bytes that a word of hex digits stands for, two digits for each byte, the high half first;
/// letters may be small or capital. The word `-` stands for no bytes.
///
/// Refuses, by `None`, the empty word, an odd number of digits, and a byte that is no hex digit;
/// fails for want of memory.
pub fn read_hex(heap: Global, word: &[u8]) -> Result<Option<Vec<u8>>, AllocError>
    ensures { IfOk result (λ o. option_map vec_items o ≡ hex_bytes word.now) }
{
    match word {
        [b'-'] => Ok(Some(Vec::new(heap))),
        [] | [_] => Ok(None),
        _ => read_pairs(heap, word),
    }
}

/// The bytes that pairs of hex digits stand for, or `None` where the word is no such pairs.
fn read_pairs(heap: Global, word: &[u8]) -> Result<Option<Vec<u8>>, AllocError>
    ensures { IfOk result (λ o. option_map vec_items o ≡ pairs word.now) }
{
    let mut bytes = Vec::new(heap);
    for pair in word.chunks(2) {
        let [high, low] = pair else {
            return Ok(None);
        };
        let Some(byte) = read_byte(*high, *low) else {
            return Ok(None);
        };
        bytes.push(byte)?;
    }
    Ok(Some(bytes))
}

/// The byte that two hex digits stand for, or `None` where one of them is no digit.
fn read_byte(high: u8, low: u8) -> Option<u8>
    ensures { result ≡ byte_of (hex_digit high) (hex_digit low) }
{
    let high = char::from(high).to_digit(16)?;
    let low = char::from(low).to_digit(16)?;
    Some((high * 16 + low) as u8)
}

/// Writes bytes at the end of `out` in hex, two digits for each byte with small letters; no bytes are `-`.
///
/// Fails for want of memory, and then leaves `out` as it was.
pub fn write_hex(bytes: &[u8], out: &mut Vec<u8>) -> Result<(), AllocError>
    ensures { out.new.items ≡ (if is_ok result then out.old.items ++ hex_text bytes.now else out.old.items) }
{
    let text = hex_of(*out.allocator(), bytes)?;
    out.extend_from_slice(text.as_bytes())
}

/// The text that `write_hex` writes of bytes; fails for want of memory.
fn hex_of(heap: Global, bytes: &[u8]) -> Result<String, AllocError>
    ensures { IfOk result (λ text. string_bytes text ≡ hex_text bytes.now) }
{
    if bytes.is_empty() {
        return String::from_str(heap, "-");
    }
    let mut text = String::new(heap);
    for byte in bytes {
        text.push(character(*byte / 16))?;
        text.push(character(*byte % 16))?;
    }
    Ok(text)
}

/// The hex digit that counts `half`, a number below 16.
fn character(half: u8) -> char
    requires { half < 16 }
    ensures { result ≡ hex_character half }
{
    char::from_digit(u32::from(half), 16).unwrap()
}

/// States that printed bytes read back as themselves. It does nothing.
pub fn printed_bytes_read_back()
    ensures { PrintedBytesReadBack }
{}
