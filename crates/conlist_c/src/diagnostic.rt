// Diagnostics as records: a listing leaves them as numbers, four each, in room that is lent for them, and the caller's own records are filled from these.
ghost use Rattle.std.specs.Prelude.{◌≡◌, ◌/◌, ◌<◌, ◌≤◌, min, length};
ghost use Rattle.as5506.specs.Layout.{diag_numbers};
ghost use Rattle.conlist_c.specs.Records.{record_at, records_from};

use as5506::DIAGNOSTIC_NUMBERS;

// "A diagnostic is code, connection, two numbers".
#[repr(C)]
#[derive(Clone, Copy)]
pub struct Diagnostic {
    pub code: u32,
    pub connection: u32,
    pub first: u32,
    pub second: u32,
}

// Record i of the numbers. Memory holds fewer than 2^60 records, of sixteen bytes each, so the places of its numbers do not overflow.
#[tactic(auto, unfolding(crate::specs::Records::record_at))]
fn record_at(numbers: &[u32], i: usize) -> Diagnostic
    requires { i < 1152921504606846976 }
    ensures { result ≡ record_at numbers.now i }
{
    Diagnostic {
        code: lent::get_or(numbers, i * DIAGNOSTIC_NUMBERS, 0),
        connection: lent::get_or(numbers, i * DIAGNOSTIC_NUMBERS + 1, 0),
        first: lent::get_or(numbers, i * DIAGNOSTIC_NUMBERS + 2, 0),
        second: lent::get_or(numbers, i * DIAGNOSTIC_NUMBERS + 3, 0),
    }
}

// Fills every record from the numbers that a listing has left, with zeros past their end, where `chunks_exact` has no numbers for a record.
#[tactic(auto, using(crate::proofs::Records::records_are))]
pub fn fill_records(out: &mut [Diagnostic], numbers: &[u32])
    ensures { out.new ≡ records_from numbers.now 0 (length out.old) }
{
    for (i, record) in out.iter_mut().enumerate() {
        *record = record_at(numbers, i);
    }
}

// How many of the lent numbers a listing may use: four for each record where there are more than that, else all.
pub fn numbers_for(numbers: usize, records: usize) -> usize
    ensures { (result ≤ numbers) × (result / diag_numbers ≡ min records (numbers / diag_numbers)) }
{
    records.saturating_mul(DIAGNOSTIC_NUMBERS).min(numbers)
}
