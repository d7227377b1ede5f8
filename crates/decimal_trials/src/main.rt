// Replays the cases of stdin on the functions of `decimal` and prints a line for each, which must be that of stdout. A case is a line `V` with four
// fields as in a sheet: the number in parts of sixteen bits, the highest first. The line has it over no columns, in six columns and in twenty, and its
// parts, each in six columns.
#![tactic(auto)]

use output::Output;
use std::io::Read;

// The most cases of a file.
const CASES: usize = 1000000;

// The number of these parts.
fn number_of(parts: [u32; 4]) -> usize {
    let [a, b, c, d] = parts.map(|part| part as usize);
    a << 48 | b << 32 | c << 16 | d
}

fn print_number(rt: &impl Print, parts: [u32; 4]) {
    let n = number_of(parts);
    let mut text = [0u8; 128];
    let mut out = Output::new(&mut text);
    decimal::put_decimal(n, b"", &mut out);
    out.put(b"|");
    decimal::put_column(n, &mut out);
    out.put(b"|");
    decimal::put_decimal(n, b"                    ", &mut out);
    out.put(b"|");
    decimal::put_columns(&parts, &mut out);
    out.put(b"\n");
    if let Some(end) = out.done() {
        let _ = rt.write_all(lent::part(&text, 0, end));
    }
}

// Reads a case and replays it.
fn replay_case(rt: &impl Print, input: &mut impl Read) {
    let mut parts = [0u32; 4];
    cases::numbers(input, &mut parts);
    cases::byte(input);
    print_number(rt, parts);
}

fn main(rt: HostRuntime) {
    cases::replay_all(&mut rt.stdin(), CASES, |input| replay_case(&rt, input));
}
