// Replays the cases of stdin on the public functions of `name` and `lent` and prints a line for each, which must be that of stdout: every answer, and
// every output as it is afterwards. A case is a line `V` with eleven fields as in a sheet (the lengths of two texts, two numbers, and a table of names,
// three rows and a half), then the bytes of both texts. A missing number is the largest row, and as a place the largest place.
#![tactic(auto)]

use lent::Tables;
use name::ConnectionPattern;
use std::io::Read;

// The most cases of a file.
const CASES: usize = 100000;
// How long a text may be.
const BYTES: usize = 100;
// How long an output is.
const LENT: usize = 9;

// A space and the number. (Not in `cases`: the library's printing, which divides, stands in programs that replay cases alone.)
fn print_number(rt: &impl Print, n: u64) {
    let _ = print!(rt; " {n}");
}

// A space and the word.
fn print_word(rt: &impl Print, word: &str) {
    let _ = print!(rt; " {word}");
}

fn print_flag(rt: &impl Print, yes: bool) {
    print_word(rt, if yes { "yes" } else { "no" });
}

fn print_all<T: Copy + Into<u64>>(rt: &impl Print, values: &[T]) {
    print_word(rt, "/");
    for value in values {
        print_number(rt, (*value).into());
    }
}

fn print_pattern(rt: &impl Print, p: ConnectionPattern) {
    match p {
        ConnectionPattern::OneToOne => print_word(rt, "one"),
        ConnectionPattern::AllToAll => print_word(rt, "all"),
    }
}

// A number of a case as a place.
fn place_of(k: u32) -> usize {
    if k == as5506::MISSING {
        usize::MAX
    } else {
        k as usize
    }
}

fn try_names(rt: &impl Print, a: &[u8], b: &[u8]) {
    print_number(rt, name::fold(lent::get_or(a, 0, 0)) as u64);
    print_flag(rt, name::same_bytes(a, b));
    print_flag(rt, name::same_folded(a, b));
    print_flag(rt, name::good_name(a));
    print_flag(rt, name::has_bracket(a));
    print_all(rt, name::base_name_of(a));
    print_pattern(rt, name::parse_connection_pattern(a));
}

// Of the two tables that a case has, and no struct: it is made here, for the calls.
fn try_rows(rt: &impl Print, bytes: &[u8], n: &[u32], j: u32, k: u32) {
    let none: &[u32] = &[];
    let m = Tables {
        bytes,
        n,
        c: none,
        f: none,
        x: none,
        p: none,
        i: none,
        t: none,
        q: none,
        u: none,
        e: none,
        r: none,
        m: none,
    };
    print_all(rt, name::name_of(&m, j));
    print_flag(rt, name::same_names(&m, j, k));
    print_flag(rt, name::same_folded_names(&m, j, k));
    print_pattern(rt, name::pattern_of(&m, j));
}

fn try_reads(rt: &impl Print, bytes: &[u8], numbers: &[u32], from: usize, len: usize) {
    print_number(rt, lent::get_or(numbers, from, 0) as u64);
    print_number(rt, lent::get_or(bytes, from, 0) as u64);
    print_all(rt, lent::part(bytes, from, len));
}

// A value written into sevens, and a block behind so many of them, with how many are used then; of zeros as much of the block as has room.
fn try_writes<T: Copy + Into<u64>>(
    rt: &impl Print,
    sevens: &mut [T],
    zeros: &mut [T],
    at: usize,
    v: T,
    block: &[T],
) {
    lent::put(sevens, at, v);
    print_all(rt, sevens);
    let used = lent::append(sevens, Some(at), block);
    print_number(rt, used.unwrap_or(LENT + 1) as u64);
    print_all(rt, sevens);
    print_all(rt, zeros);
    lent::put_all(zeros, at, block);
    print_all(rt, zeros);
}

fn replay(rt: &impl Print, a: &[u8], b: &[u8], j: u32, k: u32, n: &[u32]) {
    let at = place_of(j);
    let _ = print!(rt; "names");
    try_names(rt, a, b);
    print_word(rt, "rows");
    try_rows(rt, a, n, j, k);
    print_word(rt, "reads");
    try_reads(rt, a, n, at, place_of(k));
    print_word(rt, "numbers");
    try_writes(rt, &mut [7; LENT], &mut [0; LENT], at, k, n);
    print_word(rt, "bytes");
    try_writes(
        rt,
        &mut [7; LENT],
        &mut [0; LENT],
        at,
        lent::get_or(a, 0, 0),
        b,
    );
    let _ = println!(rt);
}

// Reads a case and replays it.
fn replay_case(rt: &impl Print, input: &mut impl Read) {
    let a_length = cases::number(input);
    let b_length = cases::number(input);
    let j = cases::number(input);
    let k = cases::number(input);
    let mut n = [0u32; 7];
    cases::numbers(input, &mut n);
    cases::byte(input);
    let mut a = [0u8; BYTES];
    let mut b = [0u8; BYTES];
    let a_end = cases::bytes(input, &mut a, a_length);
    let b_end = cases::bytes(input, &mut b, b_length);
    replay(rt, &a[..a_end], &b[..b_end], j, k, &n);
}

fn main(rt: HostRuntime) {
    cases::replay_all(&mut rt.stdin(), CASES, |input| replay_case(&rt, input));
}
