// The traced listing.
ghost use Rattle.lent.specs.Lent.{tables_at};
ghost use Rattle.lent.specs.Model.{model};
ghost use Rattle.instance.specs.Answer.{answer_for};
ghost use Rattle.conlist_c.specs.Told.{TracedTold};
ghost use Rattle.conlist_c.specs.WithRecords.{traced_for, TracedRecords};

use crate::diagnostic::{self, Diagnostic};
use crate::numbers;
use lent::Tables;

// Lists as `compute_semantic_connections` does, with what is told of it: 0, the rows and the diagnostics that were written, or a refusal's number, place
// and letter.
fn trace(
    m: &Tables,
    limit: u64,
    links: &mut [u32],
    rows: &mut [u32],
    diagnostics: &mut [u32],
) -> [u64; 3]
    ensures { TracedTold (answer_for limit (model m.now) links.old rows.old diagnostics.old) limit (model m.now) links.old rows.old diagnostics.old result links.new rows.new diagnostics.new }
{
    numbers::told(instance::compute_semantic_connections(m, limit, links, rows, diagnostics))
}

// The same with room for no more diagnostics than `count` records, which C lends beside the numbers.
fn trace_for(
    m: &Tables,
    limit: u64,
    links: &mut [u32],
    rows: &mut [u32],
    numbers: &mut [u32],
    count: usize,
) -> [u64; 3]
    ensures { TracedTold (traced_for limit (model m.now) links.old rows.old numbers.old count) limit (model m.now) links.old rows.old numbers.old result links.new rows.new numbers.new }
{
    let end = diagnostic::numbers_for(numbers.len(), count);
    numbers.fill(0);
    trace(m, limit, links, rows, &mut numbers[..end])
}

// Lists as `compute_semantic_connections` does. `told` then holds 0, the rows and the diagnostics that were written, or a refusal's number, place and
// letter.
#[unsafe(no_mangle)]
pub extern "C" fn conlist_compute_semantic_connections(
    bytes: &[u8],
    n: &[u32],
    c: &[u32],
    f: &[u32],
    x: &[u32],
    p: &[u32],
    i: &[u32],
    t: &[u32],
    q: &[u32],
    u: &[u32],
    e: &[u32],
    r: &[u32],
    m: &[u32],
    limit: u64,
    links: &mut [u32],
    rows: &mut [u32],
    diagnostics: &mut [u32],
    told: &mut [u64; 3],
)
    ensures { TracedTold
        (answer_for limit (tables_at bytes n c f x p i t q u e r m) links.old rows.old diagnostics.old)
        limit (tables_at bytes n c f x p i t q u e r m)
        links.old rows.old diagnostics.old told.new links.new rows.new diagnostics.new }
{
    let model = Tables {
        bytes,
        n,
        c,
        f,
        x,
        p,
        i,
        t,
        q,
        u,
        e,
        r,
        m,
    };
    *told = trace(&model, limit, links, rows, diagnostics);
}

// Lists as `compute_semantic_connections` does, with the diagnostics in the caller's records: there is room for as many as there are records, and for
// no more than a quarter of the numbers. Records, like numbers, hold them from the front and zeros behind, or zeros alone on a refusal. `told` as above.
#[unsafe(no_mangle)]
pub extern "C" fn conlist_compute_semantic_connections_with_records(
    bytes: &[u8],
    n: &[u32],
    c: &[u32],
    f: &[u32],
    x: &[u32],
    p: &[u32],
    i: &[u32],
    t: &[u32],
    q: &[u32],
    u: &[u32],
    e: &[u32],
    r: &[u32],
    m: &[u32],
    limit: u64,
    links: &mut [u32],
    rows: &mut [u32],
    numbers: &mut [u32],
    out: &mut [Diagnostic],
    told: &mut [u64; 3],
)
    ensures { TracedRecords
        limit (tables_at bytes n c f x p i t q u e r m)
        links.old rows.old numbers.old out.old told.new links.new rows.new numbers.new out.new }
{
    let model = Tables {
        bytes,
        n,
        c,
        f,
        x,
        p,
        i,
        t,
        q,
        u,
        e,
        r,
        m,
    };
    *told = trace_for(&model, limit, links, rows, numbers, out.len());
    diagnostic::fill_records(out, numbers);
}
