// Replays the cases of stdin and prints a line for each, which must be that of stdout: the answer in full, and a checksum of every slice as it is
// afterwards. A case is a line `V` with fourteen fields as in a sheet (the length of the sheet, of the byte table and of the twelve tables that are
// lent), then the sheet's bytes. The lent slices are parts of larger ones, so that the checksums also show what stands behind them.
#![tactic(auto)]

use as5506::Refusal;
use sheet::Counts;
use std::io::Read;

// The most cases of a file.
const CASES: usize = 100000;

// How long the slices are of which parts are lent.
const BYTES: usize = 16400;

const NAMES: usize = 8200;

const OTHERS: usize = 2700;

// A space and the number. (Not in `cases`: the library's printing, which divides, stands in programs that replay cases alone.)
fn print_number(rt: &impl Print, n: u64) {
    let _ = print!(rt; " {n}");
}

fn print_answer(rt: &impl Print, answer: Result<Counts, Refusal>) {
    match answer {
        Ok(k) => {
            let _ = print!(rt; "read");
            for n in [
                k.bytes, k.n, k.c, k.f, k.x, k.p, k.i, k.t, k.q, k.u, k.e, k.r, k.m,
            ] {
                print_number(rt, n as u64);
            }
        }
        Err(r) => {
            let _ = print!(rt; "refused {} {} {}", r.number, r.place, r.letter);
        }
    }
}

// A polynomial in the numbers of a slice, modulo a prime: every number and its place count.
fn checksum<T: Copy + Into<u32>>(t: &[T]) -> u64 {
    let mut sum: u64 = 0;
    for v in t {
        let v: u32 = (*v).into();
        sum = (sum * 1009 + u64::from(v)) % 4294967291;
    }
    sum
}

// As many of the numbers of a slice as a case says, if it is that long.
fn lent_part(table: &mut [u32], end: u32) -> &mut [u32] {
    let end = (end as usize).min(table.len());
    &mut table[..end]
}

// Lends as much of each slice, which is full of sevens, as a case says, and prints the answer and every slice.
fn replay(rt: &impl Print, sheet: &[u8], ends: [u32; 13]) {
    let mut bytes = [7u8; BYTES];
    let mut n = [7u32; NAMES];
    let mut c = [7u32; OTHERS];
    let mut f = [7u32; OTHERS];
    let mut x = [7u32; OTHERS];
    let mut p = [7u32; OTHERS];
    let mut i = [7u32; OTHERS];
    let mut t = [7u32; OTHERS];
    let mut q = [7u32; OTHERS];
    let mut u = [7u32; OTHERS];
    let mut e = [7u32; OTHERS];
    let mut r = [7u32; OTHERS];
    let mut m = [7u32; OTHERS];
    let b_end = (ends[0] as usize).min(BYTES);
    let answer = sheet::read_sheet(
        sheet,
        &mut bytes[..b_end],
        lent_part(&mut n, ends[1]),
        lent_part(&mut c, ends[2]),
        lent_part(&mut f, ends[3]),
        lent_part(&mut x, ends[4]),
        lent_part(&mut p, ends[5]),
        lent_part(&mut i, ends[6]),
        lent_part(&mut t, ends[7]),
        lent_part(&mut q, ends[8]),
        lent_part(&mut u, ends[9]),
        lent_part(&mut e, ends[10]),
        lent_part(&mut r, ends[11]),
        lent_part(&mut m, ends[12]),
    );
    print_answer(rt, answer);
    print_number(rt, checksum(&bytes));
    for table in [&n[..], &c, &f, &x, &p, &i, &t, &q, &u, &e, &r, &m] {
        print_number(rt, checksum(table));
    }
    let _ = println!(rt);
}

// Reads a case and replays it.
fn replay_case(rt: &impl Print, input: &mut impl Read) {
    let length = cases::number(input);
    let mut ends = [0u32; 13];
    cases::numbers(input, &mut ends);
    cases::byte(input);
    let mut sheet = [0u8; BYTES];
    let end = cases::bytes(input, &mut sheet, length);
    replay(rt, lent::part(&sheet, 0, end), ends);
}

fn main(rt: HostRuntime) {
    cases::replay_all(&mut rt.stdin(), CASES, |input| replay_case(&rt, input));
}
