// Both listings, with names compared without regard to letter case: the second entry, 02 (vi).
ghost use Rattle.as5506.specs.Names.{same_folded};
ghost use Rattle.lent.specs.Lent.{tables_at};
ghost use Rattle.listing.specs.Answer.{outputs, answer_for};
ghost use Rattle.conlist_c.specs.Told.{BothTold};
ghost use Rattle.conlist_c.specs.WithRecords.{BothRecords};

use crate::both;
use crate::diagnostic::{self, Diagnostic};
use lent::Tables;
use name::Reading;

// Lists as `list_connections` does, from the second entry, 02 (vi): names that differ in the case of letters alone are one where tracing compares features
// and where a child is found by its whole name. `told` then holds 0, the traced rows and diagnostics and the group rows and diagnostics that were written, or a
// refusal's number, place and letter and two zeros.
#[tactic(auto, unfolding(name::specs::Reading::comparison))]
#[unsafe(no_mangle)]
pub extern "C" fn conlist_list_connections_ignoring_case(
    bytes: &[u8],
    n: &[u32],
    c: &[u32],
    f: &[u32],
    x: &[u32],
    p: &[u32],
    i: &[u32],
    t: &[u32],
    q: &[u32],
    u: &[u32],
    e: &[u32],
    r: &[u32],
    m: &[u32],
    limit: u64,
    links: &mut [u32],
    rows: &mut [u32],
    diagnostics: &mut [u32],
    group_rows: &mut [u32],
    names: &mut [u8],
    group_diagnostics: &mut [u32],
    told: &mut [u64; 5],
)
    ensures { BothTold same_folded
        (answer_for same_folded limit (tables_at bytes n c f x p i t q u e r m)
        (outputs links.old rows.old diagnostics.old group_rows.old names.old group_diagnostics.old))
        limit (tables_at bytes n c f x p i t q u e r m)
        (outputs links.old rows.old diagnostics.old group_rows.old names.old group_diagnostics.old) told.new
        (outputs links.new rows.new diagnostics.new group_rows.new names.new group_diagnostics.new) }
{
    let model = Tables {
        bytes,
        n,
        c,
        f,
        x,
        p,
        i,
        t,
        q,
        u,
        e,
        r,
        m,
    };
    *told = both::list(
        &model,
        Reading::CaseIgnored,
        limit,
        links,
        rows,
        diagnostics,
        group_rows,
        names,
        group_diagnostics,
    );
}

// The same with the diagnostics in the caller's records: of each listing there is room for as many as it has records, and for no
// more than a quarter of its numbers. Records, like numbers, hold them from the front and zeros behind, or zeros alone on a refusal. `told` as above.
#[tactic(auto, unfolding(name::specs::Reading::comparison))]
#[unsafe(no_mangle)]
pub extern "C" fn conlist_list_connections_ignoring_case_with_records(
    bytes: &[u8],
    n: &[u32],
    c: &[u32],
    f: &[u32],
    x: &[u32],
    p: &[u32],
    i: &[u32],
    t: &[u32],
    q: &[u32],
    u: &[u32],
    e: &[u32],
    r: &[u32],
    m: &[u32],
    limit: u64,
    links: &mut [u32],
    rows: &mut [u32],
    numbers: &mut [u32],
    out: &mut [Diagnostic],
    group_rows: &mut [u32],
    names: &mut [u8],
    group_numbers: &mut [u32],
    group_out: &mut [Diagnostic],
    told: &mut [u64; 5],
)
    ensures { BothRecords same_folded
        limit (tables_at bytes n c f x p i t q u e r m)
        (outputs links.old rows.old numbers.old group_rows.old names.old group_numbers.old)
        out.old group_out.old told.new
        (outputs links.new rows.new numbers.new group_rows.new names.new group_numbers.new)
        out.new group_out.new }
{
    let model = Tables {
        bytes,
        n,
        c,
        f,
        x,
        p,
        i,
        t,
        q,
        u,
        e,
        r,
        m,
    };
    *told = both::list_for(
        &model,
        Reading::CaseIgnored,
        limit,
        links,
        rows,
        numbers,
        group_rows,
        names,
        group_numbers,
        out.len(),
        group_out.len(),
    );
    diagnostic::fill_records(out, numbers);
    diagnostic::fill_records(group_out, group_numbers);
}
