// Both listings.
ghost use Rattle.as5506.specs.Lists.{same_bytes};
ghost use Rattle.lent.specs.Lent.{tables_at};
ghost use Rattle.lent.specs.Model.{model};
ghost use Rattle.name.specs.Reading.{comparison};
ghost use Rattle.listing.specs.Answer.{outputs, answer_for};
ghost use Rattle.conlist_c.specs.Told.{BothTold};
ghost use Rattle.conlist_c.specs.WithRecords.{both_for, BothRecords};

use crate::diagnostic::{self, Diagnostic};
use crate::numbers;
use lent::Tables;
use name::Reading;

// Lists as `list_connections` does by a reading, with what is told of it: 0, the traced rows and diagnostics and the group rows and diagnostics that were
// written, or a refusal's number, place and letter and two zeros.
pub fn list(
    m: &Tables,
    reading: Reading,
    limit: u64,
    links: &mut [u32],
    rows: &mut [u32],
    diagnostics: &mut [u32],
    group_rows: &mut [u32],
    names: &mut [u8],
    group_diagnostics: &mut [u32],
) -> [u64; 5]
    ensures { BothTold (comparison reading)
        (answer_for (comparison reading) limit (model m.now) (outputs links.old rows.old diagnostics.old group_rows.old names.old group_diagnostics.old))
        limit (model m.now)
        (outputs links.old rows.old diagnostics.old group_rows.old names.old group_diagnostics.old) result
        (outputs links.new rows.new diagnostics.new group_rows.new names.new group_diagnostics.new) }
{
    numbers::told(listing::list_connections(
        m,
        reading,
        limit,
        links,
        rows,
        diagnostics,
        group_rows,
        names,
        group_diagnostics,
    ))
}

// The same with room for no more diagnostics than `count` and `group_count` records, which C lends beside the numbers.
pub fn list_for(
    m: &Tables,
    reading: Reading,
    limit: u64,
    links: &mut [u32],
    rows: &mut [u32],
    numbers: &mut [u32],
    group_rows: &mut [u32],
    names: &mut [u8],
    group_numbers: &mut [u32],
    count: usize,
    group_count: usize,
) -> [u64; 5]
    ensures { BothTold (comparison reading)
        (both_for (comparison reading) limit (model m.now) (outputs links.old rows.old numbers.old group_rows.old names.old group_numbers.old) count group_count)
        limit (model m.now)
        (outputs links.old rows.old numbers.old group_rows.old names.old group_numbers.old) result
        (outputs links.new rows.new numbers.new group_rows.new names.new group_numbers.new) }
{
    let end = diagnostic::numbers_for(numbers.len(), count);
    let group_end = diagnostic::numbers_for(group_numbers.len(), group_count);
    numbers.fill(0);
    group_numbers.fill(0);
    list(
        m,
        reading,
        limit,
        links,
        rows,
        &mut numbers[..end],
        group_rows,
        names,
        &mut group_numbers[..group_end],
    )
}

// Lists as `list_connections` does, from the ported entry. `told` then holds 0, the traced rows and diagnostics and the group rows and diagnostics that
// were written, or a refusal's number, place and letter and two zeros.
#[tactic(auto, unfolding(name::specs::Reading::comparison))]
#[unsafe(no_mangle)]
pub extern "C" fn conlist_list_connections(
    bytes: &[u8],
    n: &[u32],
    c: &[u32],
    f: &[u32],
    x: &[u32],
    p: &[u32],
    i: &[u32],
    t: &[u32],
    q: &[u32],
    u: &[u32],
    e: &[u32],
    r: &[u32],
    m: &[u32],
    limit: u64,
    links: &mut [u32],
    rows: &mut [u32],
    diagnostics: &mut [u32],
    group_rows: &mut [u32],
    names: &mut [u8],
    group_diagnostics: &mut [u32],
    told: &mut [u64; 5],
)
    ensures { BothTold same_bytes
        (answer_for same_bytes limit (tables_at bytes n c f x p i t q u e r m)
        (outputs links.old rows.old diagnostics.old group_rows.old names.old group_diagnostics.old))
        limit (tables_at bytes n c f x p i t q u e r m)
        (outputs links.old rows.old diagnostics.old group_rows.old names.old group_diagnostics.old) told.new
        (outputs links.new rows.new diagnostics.new group_rows.new names.new group_diagnostics.new) }
{
    let model = Tables {
        bytes,
        n,
        c,
        f,
        x,
        p,
        i,
        t,
        q,
        u,
        e,
        r,
        m,
    };
    *told = list(
        &model,
        Reading::Ported,
        limit,
        links,
        rows,
        diagnostics,
        group_rows,
        names,
        group_diagnostics,
    );
}

// The same with the diagnostics in the caller's records: of each listing there is room for as many as it has records, and for no
// more than a quarter of its numbers. Records, like numbers, hold them from the front and zeros behind, or zeros alone on a refusal. `told` as above.
#[tactic(auto, unfolding(name::specs::Reading::comparison))]
#[unsafe(no_mangle)]
pub extern "C" fn conlist_list_connections_with_records(
    bytes: &[u8],
    n: &[u32],
    c: &[u32],
    f: &[u32],
    x: &[u32],
    p: &[u32],
    i: &[u32],
    t: &[u32],
    q: &[u32],
    u: &[u32],
    e: &[u32],
    r: &[u32],
    m: &[u32],
    limit: u64,
    links: &mut [u32],
    rows: &mut [u32],
    numbers: &mut [u32],
    out: &mut [Diagnostic],
    group_rows: &mut [u32],
    names: &mut [u8],
    group_numbers: &mut [u32],
    group_out: &mut [Diagnostic],
    told: &mut [u64; 5],
)
    ensures { BothRecords same_bytes
        limit (tables_at bytes n c f x p i t q u e r m)
        (outputs links.old rows.old numbers.old group_rows.old names.old group_numbers.old)
        out.old group_out.old told.new
        (outputs links.new rows.new numbers.new group_rows.new names.new group_numbers.new)
        out.new group_out.new }
{
    let model = Tables {
        bytes,
        n,
        c,
        f,
        x,
        p,
        i,
        t,
        q,
        u,
        e,
        r,
        m,
    };
    *told = list_for(
        &model,
        Reading::Ported,
        limit,
        links,
        rows,
        numbers,
        group_rows,
        names,
        group_numbers,
        out.len(),
        group_out.len(),
    );
    diagnostic::fill_records(out, numbers);
    diagnostic::fill_records(group_out, group_numbers);
}
