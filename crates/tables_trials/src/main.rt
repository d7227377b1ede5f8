// Replays the cases of stdin on `tables::check_tables` and prints a line for each, which must be that of stdout. A case is a line `V` with 25 fields
// as in a sheet: the length of the byte table, and of each of the twelve tables how many numbers it has and how many of them are given. The bytes are the next
// line, and the numbers that are given the twelve lines behind it, each with its letter in front. Those that are not given are 0.
#![tactic(auto)]

use as5506::{LETTER_COUNT, Refusal};
use lent::Tables;
use std::io::Read;

// The most cases of a file.
const CASES: usize = 100000;
// How long a byte table may be, and all tables of numbers together.
const BYTES: usize = 1000;

const STORE: usize = 131072;

fn print_answer(rt: &impl Print, answer: Result<(), Refusal>) {
    let _ = match answer {
        Ok(()) => print!(rt; "accepted\n"),
        Err(r) => print!(rt; "refused {} {} {}\n", r.number, r.letter as char, r.place),
    };
}

// Of a table, how many numbers it has and how many of them are given.
#[derive(Clone, Copy, Default)]
struct Size {
    all: u32,
    given: u32,
}

fn read_sizes(input: &mut impl Read) -> [Size; LETTER_COUNT] {
    let mut sizes = [Size::default(); LETTER_COUNT];
    for size in sizes.iter_mut() {
        size.all = cases::number(input);
        size.given = cases::number(input);
    }
    cases::byte(input);
    sizes
}

// Reads the given numbers of a table, with the letter in front and the end of the line, into the store from a place on; one that finds no place there is lost.
fn read_table(input: &mut impl Read, store: &mut [u32], from: usize, given: u32) {
    cases::byte(input);
    for k in 0..given as usize {
        lent::put(store, from.saturating_add(k), cases::number(input));
    }
    cases::byte(input);
}

// Where a table ends that begins at a place.
fn end_of(from: usize, size: Size) -> usize {
    from.saturating_add(size.all as usize)
}

// Reads all tables, one behind the other.
fn read_tables(input: &mut impl Read, store: &mut [u32], sizes: &[Size; LETTER_COUNT]) {
    let mut from = 0;
    for size in sizes {
        read_table(input, store, from, size.given);
        from = end_of(from, *size);
    }
}

// The numbers of the store from one place to another; none where it does not hold them all.
fn table_from(store: &[u32], from: usize, to: usize) -> &[u32] {
    if store.len() < to || to < from {
        return &store[..0];
    }
    &store[from..to]
}

// The answer for the byte table and the tables in the store.
fn answer_for(bytes: &[u8], store: &[u32], sizes: &[Size; LETTER_COUNT]) -> Result<(), Refusal> {
    let mut tables: [&[u32]; LETTER_COUNT] = [&[]; LETTER_COUNT];
    let mut from = 0;
    for (k, size) in sizes.iter().enumerate() {
        let to = end_of(from, *size);
        tables[k] = table_from(store, from, to);
        from = to;
    }
    let [n, c, f, x, p, i, t, q, u, e, r, m] = tables;
    tables::check_tables(&Tables {
        bytes,
        n,
        c,
        f,
        x,
        p,
        i,
        t,
        q,
        u,
        e,
        r,
        m,
    })
}

// Reads a case and replays it.
fn replay_case(rt: &impl Print, input: &mut impl Read) {
    let length = cases::number(input);
    let sizes = read_sizes(input);
    let mut bytes = [0u8; BYTES];
    let end = cases::bytes(input, &mut bytes, length);
    cases::byte(input);
    let mut store = [0u32; STORE];
    read_tables(input, &mut store, &sizes);
    print_answer(rt, answer_for(&bytes[..end], &store, &sizes));
}

fn main(rt: HostRuntime) {
    cases::replay_all(&mut rt.stdin(), CASES, |input| replay_case(&rt, input));
}
