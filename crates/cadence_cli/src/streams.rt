//! Reads a reader to its end, and writes a whole text.
ghost use Rattle.std.specs.Prelude.{◌≡◌, IfOk, IfSome, OnOk};
ghost use Rattle.std.specs.Io.KnownBytes.{Appends, IsAtEnd};

use cadence_errors::InputError;
use std::alloc::Allocator;
use std::io;
use std::io::{Read, Write};

/// A reader failed, or didn't end within `u64::MAX` reads.
#[derive(Clone, Copy, Debug, PartialEq, Eq)]
pub struct BrokenInput;

/// Returns all bytes that the reader returns up to its end.
///
/// # Errors
/// `Unusable` if the reader fails or doesn't end within `u64::MAX` reads, and `OutOfMemory`. The bytes that were read
/// before the error are lost.
pub fn read_all<A: Allocator, I: Read>(
    alloc: A,
    input: &mut I,
) -> Result<Vec<u8, A>, InputError<BrokenInput>>
    ensures bytes { IfOk result (λ got. IfSome (I.remaining input.old) (λ left. got.items ≡ left)) }
    ensures end { OnOk result (IsAtEnd (I.remaining input.new)) }
{
    let mut bytes = Vec::new(alloc);
    let mut buffer = [0u8; 4096];
    for _ in 0..u64::MAX {
        match input.read(&mut buffer) {
            Ok(0) => return Ok(bytes),
            Ok(count) => bytes.extend_from_slice(&buffer[..count])?,
            Err(_) => return Err(InputError::Unusable(BrokenInput)),
        }
    }
    Err(InputError::Unusable(BrokenInput))
}

/// Writes the whole text and flushes the writer.
///
/// # Errors
/// The error of the writer. A part of the text may be written then.
pub fn print_all<O: Write>(output: &mut O, text: &str) -> io::Result<()>
    ensures { OnOk result (Appends (O.contents output.old) (O.contents output.new) text.now) }
{
    output.write_all(text.as_bytes())?;
    output.flush()
}
