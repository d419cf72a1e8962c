// What is asked of the system: one read, a write of all there is, and how many arguments there are.
ghost use Rattle.std.specs.Prelude.{length};
ghost use Rattle.std.specs.Io.{ReadsAtMost};
ghost use Rattle.std.specs.Io.KnownBytes.{ReadConsumes};
ghost use Rattle.filter.specs.Calls.{Sent};

use std::env::FillError;
use std::io;
use std::io::{Read, Write};
use std::rt::Env;

// Reads once, and answers how many bytes came, or the number of the error.
pub(crate) fn read_once<I: Read>(input: &mut I, space: &mut [u8]) -> Result<usize, i32>
    ensures bound { ReadsAtMost result space.new }
    ensures bytes { ReadConsumes (I.remaining input.old) (I.remaining input.new) result space.new }
{
    input.read(space).map_err(number_of)
}

// Writes all of the bytes, or stops at the first write that fails or takes nothing, and answers the number of its error. An interrupted
// write counts as failed; `write_all` tries it again, and does not say what `Sent` does of the bytes before it.
pub(crate) fn write_whole<O: Write>(output: &mut O, bytes: &[u8]) -> Result<(), i32>
    ensures { Sent result (O.contents output.old) (O.contents output.new) bytes.now }
{
    let mut rest = bytes;
    while !rest.is_empty() {
        match output.write(rest) {
            Ok(0) => return Err(0),
            Ok(count) => rest = &rest[count..],
            Err(error) => return Err(number_of(error)),
        }
    }
    Ok(())
}

// The system's number of an error, or 0 where it has none.
fn number_of(error: io::Error) -> i32 {
    error.raw_os_error().unwrap_or(0)
}

// How many arguments the program was started with, its own name counted with them. No bytes of them are asked for.
pub(crate) fn argument_count(rt: &impl Env) -> usize {
    (0..usize::MAX)
        .find(|place| matches!(rt.arg(*place, &mut []), Err(FillError::NotPresent)))
        .unwrap_or(usize::MAX)
}
