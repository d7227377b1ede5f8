// modes: reads a sheet on standard input and prints how many selections of modes it has on standard output, with 1 where the list of them was cut and
// else 0, or the line of a refusal. Where it cannot read or write it says so on standard error, and prints no number.
#![tactic(auto)]

ghost use Rattle.as5506.specs.Program.{modes as written};
ghost use Rattle.on_sheet.specs.Tasks.{Writes};

use as5506::{SHEET_LENT, TEXT_LENT};
use on_sheet::Task;

// THE PROGRAM (each program has its own, since its contract cites the definition of that program): the text for the bytes that were read, the front of an
// array: a program has no other memory.
#[tactic(auto, using(on_sheet::proofs::Programs::modes_writes))]
fn modes(read: &[u8; SHEET_LENT], got: usize, text: &mut [u8; TEXT_LENT]) -> usize
    ensures { Writes written read.now got result text.new }
{
    on_sheet::on_sheet(Task::Modes, lent::part(read, 0, got), text)
}

// (Each program has its own `main` too: one for all would take the program as a closure, with a promise on what it gives, and no line less.)
fn main(rt: HostRuntime) {
    let mut read = [0u8; SHEET_LENT];
    let Some(got) = stdio::read_input(&mut rt.stdin(), &mut rt.stderr(), b"modes", &mut read) else {
        return;
    };
    let mut text = [0u8; TEXT_LENT];
    let used = modes(&read, got, &mut text);
    stdio::write_output(&mut rt.stdout(), &mut rt.stderr(), b"modes", &text[..used]);
}
