// conlist [LIMIT]: reads a sheet on standard input and prints the list of its connections on standard output, or the line of a refusal; its ways inwards have
// so many steps at most, 02 (ix), or 20 where no limit is named. Where its argument is no number, or it cannot read or write, it says so on standard error,
// and prints no list.
#![tactic(auto)]

ghost use Rattle.as5506.specs.Program.{conlist as written};
ghost use Rattle.on_sheet.specs.Tasks.{Writes};

use as5506::{SHEET_LENT, TEXT_LENT, USUAL_LIMIT};
use name::Reading;
use on_sheet::Task;

// THE PROGRAM (each program has its own, since its contract cites the definition of that program): the text for the limit and the bytes that were read, the
// front of an array: a program has no other memory.
fn conlist(
    limit: Option<u64>,
    read: &[u8; SHEET_LENT],
    got: usize,
    text: &mut [u8; TEXT_LENT],
) -> usize
    ensures { Writes (written limit) read.now got result text.new }
{
    on_sheet::on_sheet(
        Task::Conlist(Reading::Ported, limit.unwrap_or(USUAL_LIMIT)),
        lent::part(read, 0, got),
        text,
    )
}

// (Each program has its own `main` too: one for all would take the program as a closure, with a promise on what it gives, and no line less.)
fn main(rt: HostRuntime) {
    let Some(limit) = stdio::optional_number_argument(&rt, &mut rt.stderr(), b"conlist") else {
        return;
    };
    let mut read = [0u8; SHEET_LENT];
    let Some(got) = stdio::read_input(&mut rt.stdin(), &mut rt.stderr(), b"conlist", &mut read)
    else {
        return;
    };
    let mut text = [0u8; TEXT_LENT];
    let used = conlist(limit, &read, got, &mut text);
    stdio::write_output(
        &mut rt.stdout(),
        &mut rt.stderr(),
        b"conlist",
        &text[..used],
    );
}
