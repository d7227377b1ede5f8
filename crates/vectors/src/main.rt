// Replays stored answers: for each case of stdin the list of its sheet must be its text, byte for byte, with zeros behind. A case is a line `V`
// with two fields as in a sheet (the length of the sheet, the length of the text), a space and a label; then the sheet's bytes; then the text's
// bytes. The label of each case that differs is printed, and at the end how many agree and how many differ.
#![tactic(auto)]

use as5506::USUAL_LIMIT;
use std::io::Read;

// The most cases of a file.
const CASES: usize = 100000;

fn print(rt: &impl Print, text: &[u8]) {
    let _ = rt.write_all(text);
}

// Whether the list of a sheet is the expected text, with zeros behind it.
fn agrees(sheet: &[u8], expected: &[u8]) -> bool {
    let mut text = [7u8; 8192];
    let used = sheet_list::list_sheet(sheet, USUAL_LIMIT, &mut text);
    let behind = lent::part(&text, used, text.len());
    lent::part(&text, 0, used) == expected && behind.iter().all(|b| *b == 0)
}

// Reads and replays the next case: whether it agrees; none where there is none.
fn next_case(rt: &impl Print, input: &mut impl Read) -> Option<bool> {
    if !cases::begins(input) {
        return None;
    }
    let sheet_length = cases::number(input);
    let text_length = cases::number(input);
    let mut label = [0u8; 200];
    let label_end = cases::line(input, &mut label);
    let mut sheet = [0u8; 20480];
    let mut expected = [0u8; 8192];
    let sheet_end = cases::bytes(input, &mut sheet, sheet_length);
    let text_end = cases::bytes(input, &mut expected, text_length);
    let same = agrees(
        lent::part(&sheet, 0, sheet_end),
        lent::part(&expected, 0, text_end),
    );
    if !same {
        print(rt, b"differs:");
        print(rt, lent::part(&label, 0, label_end));
        print(rt, b"\n");
    }
    Some(same)
}

fn main(rt: HostRuntime) {
    let mut input = rt.stdin();
    let mut agreeing = 0u64;
    let mut differing = 0u64;
    for _case in 0..CASES {
        match next_case(&rt, &mut input) {
            Some(true) => agreeing += 1,
            Some(false) => differing += 1,
            None => break,
        }
    }
    let _ = println!(rt; "{agreeing} agree, {differing} differ");
}
