// Standard input, standard output and the argument of the programs. Where one of them fails, a line on standard error says so: a sheet that could not
// be read is no empty sheet, and a list that could not be written is none. Each function takes the streams and the arguments that it uses.
#![tactic(auto)]

ghost use Rattle.std.specs.Prelude.{◌≡◌, ◌≤◌, true, IfOk, OnErr, IfSome, length};
ghost use Rattle.std.specs.Io.KnownBytes.{Appends};
ghost use Rattle.stdio.specs.{Filled, Lost};

use std::env::{Env, FillError};
use std::io::{self, Read, Write};

// Reads into a slice to the end of the input, or until the slice is full: how many bytes were read. Where reading fails, no more
// bytes are lost than the slice has places. No `for`: only the input knows how often.
#[tactic(auto, using(crate::proofs::Reading::filled_on))]
pub fn read_full<R: Read>(input: &mut R, into: &mut [u8]) -> io::Result<usize>
    ensures read { IfOk result (λ k. Filled (R.remaining input.old) (R.remaining input.new) into.new k) }
    ensures lost { OnErr result (Lost (R.remaining input.old) (R.remaining input.new) (length into.new)) }
{
    let mut done = 0;
    while done < into.len() {
        match input.read(&mut into[done..])? {
            0 => break,
            more => done += more,
        }
    }
    Ok(done)
}

// Says on standard error what happened to a program.
fn say<E: Write>(errors: &mut E, program: &[u8], what: &[u8]) {
    let _ = errors.write_all(program);
    let _ = errors.write_all(what);
}

// Hands on what was got; where that is nothing, says on standard error what happened to a program.
fn or_say<T, E: Write>(got: Option<T>, errors: &mut E, program: &[u8], what: &[u8]) -> Option<T>
    ensures same { result ≡ got }
    ensures quiet { IfSome result (λ _. errors.new ≡ errors.old) }
{
    if got.is_none() {
        say(errors, program, what);
    }
    got
}

// Reads standard input into the front of a slice, for the program of this name: as many bytes as found room there. Where reading fails it says so.
pub fn read_input<R: Read, E: Write>(
    input: &mut R,
    errors: &mut E,
    program: &[u8],
    into: &mut [u8],
) -> Option<usize>
    ensures read { IfSome result (λ k. Filled (R.remaining input.old) (R.remaining input.new) into.new k) }
    ensures quiet { IfSome result (λ _. errors.new ≡ errors.old) }
{
    or_say(
        read_full(input, into).ok(),
        errors,
        program,
        b": standard input could not be read\n",
    )
}

// Writes the text of the program of this name to standard output. Where it tells true, the whole text stands there behind what did; where writing fails it
// says so.
pub fn write_output<W: Write, E: Write>(
    output: &mut W,
    errors: &mut E,
    program: &[u8],
    text: &[u8],
) -> bool
    ensures written { result ≡ true → Appends (W.contents output.old) (W.contents output.new) text.now }
    ensures quiet { result ≡ true → errors.new ≡ errors.old }
{
    let written = output.write_all(text).is_ok();
    if !written {
        say(errors, program, b": standard output could not be written\n");
    }
    written
}

// The argument that the program was started with, behind its own name: there is one or none, there are no more, and it is a number. The largest number has
// 20 digits; of an argument that finds no room in 32 bytes none is taken.
fn read_argument<A: Env>(arguments: &A) -> Option<Option<u64>> {
    let Err(FillError::NotPresent) = arguments.arg(2, &mut []) else {
        return None;
    };
    let mut digits = [0u8; 32];
    match arguments.arg(1, &mut digits) {
        Ok(got) => fields::number_in(&digits[..got]).map(Some),
        Err(FillError::NotPresent) => Some(None),
        Err(FillError::TooLong) => None,
    }
}

// The one argument of the program of this name: a decimal number of 64 bits at most, spelt as in a sheet. Where it is none it says so.
pub fn number_argument<A: Env, E: Write>(
    arguments: &A,
    errors: &mut E,
    program: &[u8],
) -> Option<u64>
    ensures { IfSome result (λ _. errors.new ≡ errors.old) }
{
    or_say(
        read_argument(arguments).flatten(),
        errors,
        program,
        b": one argument is expected, a decimal number\n",
    )
}

// The same of a program whose argument may be left out: `Some(None)` where it is.
pub fn optional_number_argument<A: Env, E: Write>(
    arguments: &A,
    errors: &mut E,
    program: &[u8],
) -> Option<Option<u64>>
    ensures { IfSome result (λ _. errors.new ≡ errors.old) }
{
    or_say(
        read_argument(arguments),
        errors,
        program,
        b": at most one argument is expected, a decimal number\n",
    )
}
