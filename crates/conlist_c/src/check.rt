// The tables' checks.
ghost use Rattle.std.specs.Prelude.{◌≡◌};
ghost use Rattle.lent.specs.Lent.{tables_at};
ghost use Rattle.as5506.specs.Refusals.{faults};
ghost use Rattle.tables.specs.Answer.{checked};
ghost use Rattle.conlist_c.specs.Numbers.{answer_numbers, none_numbers};

use crate::numbers;
use lent::Tables;

// Checks as `check_tables` does. `told` then holds zeros, or a refusal's number, place and letter.
#[unsafe(no_mangle)]
pub extern "C" fn conlist_check_tables(
    bytes: &[u8],
    n: &[u32],
    c: &[u32],
    f: &[u32],
    x: &[u32],
    p: &[u32],
    i: &[u32],
    t: &[u32],
    q: &[u32],
    u: &[u32],
    e: &[u32],
    r: &[u32],
    m: &[u32],
    told: &mut [u64; 3],
)
    ensures { told.new ≡ answer_numbers 3 none_numbers (checked (faults (tables_at bytes n c f x p i t q u e r m))) }
{
    let model = Tables {
        bytes,
        n,
        c,
        f,
        x,
        p,
        i,
        t,
        q,
        u,
        e,
        r,
        m,
    };
    *told = numbers::told(tables::check_tables(&model));
}
