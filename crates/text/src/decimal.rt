//! Numbers in decimal: reading them from a word, and writing them at the end of a text.

ghost use Rattle.std.specs.Prelude.{◌≡◌, ◌++◌, is_ok, if◌then◌else◌};
ghost use Rattle.text.specs.Decimal.{decimal, extended, digits, PrintedNumberReadsBack, DisplayedNumberReadsBack};

use std::alloc::AllocError;

/// The number that a word of decimal digits stands for. Leading zeros are allowed.
///
/// Refuses, by `None`, the empty word, a word with any byte that is no digit (a sign too),
/// and a value of 2^64 or more.
pub fn read_decimal(word: &[u8]) -> Option<u64>
    ensures { result ≡ decimal word.now }
{
    if word.is_empty() {
        return None;
    }
    word.iter()
        .try_fold(0, |number, byte| with_digit(number, *byte))
}

/// The number that stands there once one more digit is written behind `number`.
///
/// Refuses, by `None`, a byte that is no digit, and a number of 2^64 or more.
fn with_digit(number: u64, byte: u8) -> Option<u64>
    ensures { result ≡ extended number byte }
{
    let digit = char::from(byte).to_digit(10)?;
    number.checked_mul(10)?.checked_add(u64::from(digit))
}

/// Writes a number at the end of `out`, without leading zeros; zero is `0`.
///
/// Fails for want of memory, and then leaves `out` as it was.
pub fn write_decimal(n: u64, out: &mut Vec<u8>) -> Result<(), AllocError>
    ensures { out.new.items ≡ (if is_ok result then out.old.items ++ digits n else out.old.items) }
{
    let text = n.to_string(*out.allocator())?;
    out.extend_from_slice(text.as_bytes())
}

/// States that a printed number reads back as itself, whether `write_decimal` wrote it or a `Display`, as `{n}` does. It does nothing.
pub fn printed_number_reads_back()
    ensures written { PrintedNumberReadsBack }
    ensures displayed { DisplayedNumberReadsBack }
{}
