// mode NUMBER: reads a sheet on standard input and prints the selection of modes at that number on standard output, or the line of a refusal. Where its
// argument is no number, or it cannot read or write, it says so on standard error, and prints no selection.
#![tactic(auto)]

ghost use Rattle.as5506.specs.Program.{mode as written};
ghost use Rattle.on_sheet.specs.Tasks.{Writes};

use as5506::{SHEET_LENT, TEXT_LENT};
use on_sheet::Task;

// THE PROGRAM (each program has its own, since its contract cites the definition of that program): the text for the number and the bytes that were read, the
// front of an array: a program has no other memory.
#[tactic(auto, using(on_sheet::proofs::Programs::mode_writes))]
fn mode(number: u64, read: &[u8; SHEET_LENT], got: usize, text: &mut [u8; TEXT_LENT]) -> usize
    ensures { Writes (written number) read.now got result text.new }
{
    on_sheet::on_sheet(Task::Mode(number), lent::part(read, 0, got), text)
}

// (Each program has its own `main` too: one for all would take the program as a closure, with a promise on what it gives, and no line less.)
fn main(rt: HostRuntime) {
    let Some(number) = stdio::number_argument(&rt, &mut rt.stderr(), b"mode") else {
        return;
    };
    let mut read = [0u8; SHEET_LENT];
    let Some(got) = stdio::read_input(&mut rt.stdin(), &mut rt.stderr(), b"mode", &mut read) else {
        return;
    };
    let mut text = [0u8; TEXT_LENT];
    let used = mode(number, &read, got, &mut text);
    stdio::write_output(&mut rt.stdout(), &mut rt.stderr(), b"mode", &text[..used]);
}
