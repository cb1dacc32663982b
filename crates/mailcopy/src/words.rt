// The words of a line.
ghost use Rattle.std.specs.Prelude.{length};
ghost use Rattle.std.specs.Iterator.{at_most};
ghost use Rattle.mailcopy.specs.Prints.{Adds};

use std::alloc::AllocError;

/// The words of a line that are still to come. A line may hold bytes that are no text.
// Cut by hand: an iterator of the library could be handed on only as a type parameter with conditions of its own.
#[derive(Clone, Copy, Debug)]
pub struct Words<'a> {
    rest: &'a [u8],
}

fn is_blank(byte: u8) -> bool {
    matches!(byte, b' ' | b'\t' | b'\r')
}

impl<'a> Words<'a> {
    pub fn of(line: &'a [u8]) -> Self {
        Words { rest: line }
    }
}

impl<'a> Iterator for Words<'a> {
    type Item = &'a [u8];

    ghost remaining = { λ words. at_most (length words.rest.now) };

    fn next(&mut self) -> Option<&'a [u8]> {
        let rest = self.rest;
        let start = rest
            .iter()
            .position(|byte| !is_blank(*byte))
            .unwrap_or(rest.len());
        let rest = &rest[start..];
        let end = rest
            .iter()
            .position(|byte| is_blank(*byte))
            .unwrap_or(rest.len());
        let (word, rest) = rest.split_at(end);
        self.rest = rest;
        (!word.is_empty()).then_some(word)
    }
}

/// Adds to `out` the words of a line as they stand, with one space between two; fails for want of memory.
pub fn write_words(line: &[u8], out: &mut Vec<u8>) -> Result<(), AllocError>
    ensures { Adds out.old.items out.new.items }
{
    let mut words = Words::of(line);
    if let Some(first) = words.next() {
        out.extend_from_slice(first)?;
    }
    for word in words {
        out.push(b' ')?;
        out.extend_from_slice(word)?;
    }
    Ok(())
}
