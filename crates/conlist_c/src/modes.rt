// Operation modes.
ghost use Rattle.std.specs.Prelude.{◌≡◌, length};
ghost use Rattle.as5506.specs.Answers.{handed};
ghost use Rattle.as5506.specs.Modes.{modes_answer, selection_answer};
ghost use Rattle.lent.specs.Lent.{tables_at};
ghost use Rattle.operation_modes.specs.Answer.{modes_told, selected, SelectedInto};
ghost use Rattle.conlist_c.specs.Numbers.{answer_numbers, modes_numbers, selected_numbers};

use crate::numbers;
use lent::Tables;

// Counts the selections of modes as `count_selections` does. `told` then holds 0, the number of selections and 1 where the list was cut, else 0, or a
// refusal's number, place and letter.
#[unsafe(no_mangle)]
pub extern "C" fn conlist_count_selections(
    bytes: &[u8],
    n: &[u32],
    c: &[u32],
    f: &[u32],
    x: &[u32],
    p: &[u32],
    i: &[u32],
    t: &[u32],
    q: &[u32],
    u: &[u32],
    e: &[u32],
    r: &[u32],
    m: &[u32],
    told: &mut [u64; 3],
)
    ensures { told.new ≡ answer_numbers 3 modes_numbers (handed modes_told (modes_answer (tables_at bytes n c f x p i t q u e r m))) }
{
    let model = Tables {
        bytes,
        n,
        c,
        f,
        x,
        p,
        i,
        t,
        q,
        u,
        e,
        r,
        m,
    };
    *told = numbers::told(operation_modes::count_selections(&model));
}

// Gives the selection at a number as `select_modes` does. `told` then holds 0, the M rows and the bytes of the joined name that were written, or a
// refusal's number, place and letter.
#[unsafe(no_mangle)]
pub extern "C" fn conlist_select_modes(
    bytes: &[u8],
    n: &[u32],
    c: &[u32],
    f: &[u32],
    x: &[u32],
    p: &[u32],
    i: &[u32],
    t: &[u32],
    q: &[u32],
    u: &[u32],
    e: &[u32],
    r: &[u32],
    m: &[u32],
    rows: &mut [u32],
    name: &mut [u8],
    number: u64,
    told: &mut [u64; 3],
)
    ensures told_after { told.new ≡ answer_numbers 3 selected_numbers (handed selected (selection_answer (length rows.old) (length name.old) (tables_at bytes n c f x p i t q u e r m) number)) }
    ensures selected_into { SelectedInto (tables_at bytes n c f x p i t q u e r m) number rows.old name.old (handed selected (selection_answer (length rows.old) (length name.old) (tables_at bytes n c f x p i t q u e r m) number)) rows.new name.new }
{
    let model = Tables {
        bytes,
        n,
        c,
        f,
        x,
        p,
        i,
        t,
        q,
        u,
        e,
        r,
        m,
    };
    *told = numbers::told(operation_modes::select_modes(&model, rows, name, number));
}
