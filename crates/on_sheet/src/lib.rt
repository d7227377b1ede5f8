// A task on a sheet. What a program lends for the tables of a sheet is lent here, as document 01 says how many of each, for all tasks alike.
#![tactic(auto)]

ghost use Rattle.std.specs.Prelude.{◌≡◌, ◌*◌, ◌≤◌, length, take};
ghost use Rattle.lent.specs.Model.{model};
ghost use Rattle.shown.specs.Shown.{Shown};
ghost use Rattle.on_sheet.specs.Tasks.{task_text, on_sheet};

use as5506::{
    C_NUMBERS, E_NUMBERS, F_NUMBERS, I_NUMBERS, M_NUMBERS, N_NUMBERS, N_ROWS_LENT, P_NUMBERS,
    Q_NUMBERS, R_NUMBERS, ROWS_LENT, SHEET_BYTES, T_NUMBERS, U_NUMBERS, X_NUMBERS,
};
use lent::Tables;
use name::Reading;

// What is done with the tables of a sheet. An enum and no closure: these are all, and the contract has the definition's word for each.
#[derive(Clone, Copy)]
pub enum Task {
    // The list of its connections, by a reading of names and under a limit (conlist, conlist_ignoring_case).
    Conlist(Reading, u64),
    // How many selections of modes there are (modes).
    Modes,
    // The selection of modes at a number (mode).
    Mode(u64),
}

// Does a task with tables: how many bytes of text there are. Behind them the output is zero.
fn do_task(task: Task, m: &Tables, text: &mut [u8]) -> usize
    ensures { Shown (task_text task (length text.old) (model m.now)) text.old result text.new }
{
    match task {
        Task::Conlist(reading, limit) => list_text::list_tables(m, reading, limit, text),
        Task::Modes => modes_text::count_tables(m, text),
        Task::Mode(number) => modes_text::select_tables(m, number, text),
    }
}

// The first rows of a table, so many of so many numbers each: what was read into an array of fixed size.
fn rows(table: &[u32], count: usize, width: usize) -> &[u32]
    requires { count * width ≤ length table.now }
    ensures { result.now ≡ take (count * width) table.now }
{
    &table[..count * width]
}

// Reads a sheet and does a task with what it holds, or prints the line of the refusal: how many bytes of text there are. Behind them the output is
// zero.
pub fn on_sheet(task: Task, sheet: &[u8], text: &mut [u8]) -> usize
    ensures { Shown (on_sheet task (length text.old) sheet.now) text.old result text.new }
{
    let mut bytes = [0u8; SHEET_BYTES];
    let mut n = [0u32; N_ROWS_LENT * N_NUMBERS];
    let mut c = [0u32; ROWS_LENT * C_NUMBERS];
    let mut f = [0u32; ROWS_LENT * F_NUMBERS];
    let mut x = [0u32; ROWS_LENT * X_NUMBERS];
    let mut p = [0u32; ROWS_LENT * P_NUMBERS];
    let mut i = [0u32; ROWS_LENT * I_NUMBERS];
    let mut t = [0u32; ROWS_LENT * T_NUMBERS];
    let mut q = [0u32; ROWS_LENT * Q_NUMBERS];
    let mut u = [0u32; ROWS_LENT * U_NUMBERS];
    let mut e = [0u32; ROWS_LENT * E_NUMBERS];
    let mut r = [0u32; ROWS_LENT * R_NUMBERS];
    let mut m = [0u32; ROWS_LENT * M_NUMBERS];
    match sheet::read_sheet(
        sheet, &mut bytes, &mut n, &mut c, &mut f, &mut x, &mut p, &mut i, &mut t, &mut q, &mut u,
        &mut e, &mut r, &mut m,
    ) {
        Err(reason) => shown::tell(reason, text),
        Ok(k) => {
            let tables = Tables {
                bytes: &bytes[..k.bytes],
                n: rows(&n, k.n, N_NUMBERS),
                c: rows(&c, k.c, C_NUMBERS),
                f: rows(&f, k.f, F_NUMBERS),
                x: rows(&x, k.x, X_NUMBERS),
                p: rows(&p, k.p, P_NUMBERS),
                i: rows(&i, k.i, I_NUMBERS),
                t: rows(&t, k.t, T_NUMBERS),
                q: rows(&q, k.q, Q_NUMBERS),
                u: rows(&u, k.u, U_NUMBERS),
                e: rows(&e, k.e, E_NUMBERS),
                r: rows(&r, k.r, R_NUMBERS),
                m: rows(&m, k.m, M_NUMBERS),
            };
            do_task(task, &tables, text)
        }
    }
}
