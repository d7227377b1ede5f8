// The sheet's reader.
ghost use Rattle.std.specs.Prelude.{◌≡◌};
ghost use Rattle.lent.specs.Lent.{tables_to_fill, tables_left};
ghost use Rattle.as5506.specs.Sheet.{lent_of, read_sheet};
ghost use Rattle.sheet.specs.Read.{sheet_read, ReadInto};
ghost use Rattle.conlist_c.specs.Numbers.{answer_numbers, read_numbers};

use crate::numbers;

// Reads as `read_sheet` does. `told` then holds 0, the bytes of names and the rows of each letter that were read, or a refusal's number, place and
// letter and zeros.
#[unsafe(no_mangle)]
pub extern "C" fn conlist_read_sheet(
    sheet: &[u8],
    bytes: &mut [u8],
    n: &mut [u32],
    c: &mut [u32],
    f: &mut [u32],
    x: &mut [u32],
    p: &mut [u32],
    i: &mut [u32],
    t: &mut [u32],
    q: &mut [u32],
    u: &mut [u32],
    e: &mut [u32],
    r: &mut [u32],
    m: &mut [u32],
    told: &mut [u64; 14],
)
    ensures told_after { told.new ≡ answer_numbers 14 read_numbers (sheet_read (read_sheet (lent_of (tables_to_fill bytes n c f x p i t q u e r m)) sheet.now)) }
    ensures read_into { ReadInto (tables_to_fill bytes n c f x p i t q u e r m) sheet.now (sheet_read (read_sheet (lent_of (tables_to_fill bytes n c f x p i t q u e r m)) sheet.now)) (tables_left bytes n c f x p i t q u e r m) }
{
    *told = numbers::told(sheet::read_sheet(sheet, bytes, n, c, f, x, p, i, t, q, u, e, r, m));
}
