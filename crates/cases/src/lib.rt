// Reads stored cases, for the programs that replay them: a case begins with `V`, and a number stands in six columns as in a sheet. Each function takes
// the reader; the programs hand over standard input.
#![tactic(auto)]

ghost use Rattle.std.specs.Prelude.{◌≡◌, ◌≤◌, ◌==◌, ◌⊎◌, ℕ, min, length, take, drop};
ghost use Rattle.std.specs.Io.KnownBytes.{Consumes};
ghost use Rattle.stdio.specs.{Lost};
ghost use Rattle.cases.specs.{Begins, Taken, TakenLine, TakenNumber, TakenNumbers};

use fields::Mark;
use std::io::Read;

const LINE_FEED: u8 = 10;

// The next byte; a line feed at the end of the file, or where reading fails.
pub fn byte<R: Read>(input: &mut R) -> u8
    ensures { Taken (R.remaining input.old) (R.remaining input.new) result }
{
    let mut byte = [LINE_FEED; 1];
    match stdio::read_full(input, &mut byte) {
        Ok(1) => byte[0],
        _ => LINE_FEED,
    }
}

// Whether a case begins here; at the end of the file none does. (No kind: a byte of the stored cases.)
pub fn begins<R: Read>(input: &mut R) -> bool
    ensures { (b : ℕ) × Taken (R.remaining input.old) (R.remaining input.new) b × (result ≡ (b == 86)) }
{
    byte(input) == b'V'
}

// Hands the reader to `replay` behind the `V` of each case, until none begins, or so many were replayed. Where none begins at entry, it takes a byte at most.
pub fn replay_all<R: Read, F: Fn(&mut R)>(input: &mut R, most: usize, replay: F)
    requires { F.IsAlwaysCallable replay }
    ensures { Begins (R.remaining input.old) ⊎ Lost (R.remaining input.old) (R.remaining input.new) 1 }
{
    for _ in 0..most {
        if !begins(input) {
            return;
        }
        replay(input);
    }
}

// The next number; `-` is a missing one, and 0 stands for one that could not be read.
#[tactic(auto, using(crate::proofs::Taking::taken_number))]
pub fn number<R: Read>(input: &mut R) -> u32
    ensures { TakenNumber (R.remaining input.old) (R.remaining input.new) result }
{
    let mut field = [b' '; 6];
    let Ok(6) = stdio::read_full(input, &mut field) else {
        return 0;
    };
    let mut value = [0u32; 1];
    fields::put_fields(&field, &[Mark::Needed], &mut value, 0);
    value[0]
}

// The next numbers, as many as the slice has.
pub fn numbers<R: Read>(input: &mut R, out: &mut [u32])
    ensures { TakenNumbers (R.remaining input.old) (R.remaining input.new) out.new }
{
    for place in out.iter_mut() {
        *place = number(input);
    }
}

// Reads so many bytes into the front of a slice, no more than it has places: how many these are, whether or not so many could be read. What stands behind
// them stays.
pub fn bytes<R: Read>(input: &mut R, out: &mut [u8], len: u32) -> usize
    ensures within { (result ≡ min len (length out.old)) × (drop result out.new ≡ drop result out.old) }
    ensures read { Consumes (R.remaining input.old) (R.remaining input.new) (take result out.new) ⊎ Lost (R.remaining input.old) (R.remaining input.new) result }
{
    let end = out.len().min(len as usize);
    let _ = stdio::read_full(input, &mut out[..end]);
    end
}

// Reads the rest of a line, as much of it as there is room for, into the front of a slice: how many bytes it is. What stands behind them stays.
pub fn line<R: Read>(input: &mut R, out: &mut [u8]) -> usize
    ensures within { (result ≤ length out.old) × (drop result out.new ≡ drop result out.old) }
    ensures read { TakenLine (R.remaining input.old) (R.remaining input.new) (take result out.new) }
{
    for (i, place) in out.iter_mut().enumerate() {
        let b = byte(input);
        if b == LINE_FEED {
            return i;
        }
        *place = b;
    }
    out.len()
}
