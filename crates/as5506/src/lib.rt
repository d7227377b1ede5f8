// The numbers of document 01 that the code needs, a refusal, and what a listing counts. The definition is in specs/.
#![tactic(auto)]

mod reason;
mod step_limit;

ghost use Rattle.std.specs.Prelude.{◌≡◌};
ghost use Rattle.as5506.specs.Answers.{nowhere, refusal, told};

pub use reason::Reason;
pub use step_limit::StepLimit;

// A missing field of a table. A number and no Option: C and the reader lend the tables so, and the definition has the same word.
pub const MISSING: u32 = 4294967295;

pub const SHEET_BYTES: usize = 16384;

pub const TABLE_ROWS: usize = 4096;

// The steps of a chain, at most, where no limit is named.
pub const USUAL_LIMIT: u64 = 20;
// The largest limit that may be named.
pub const LARGEST_LIMIT: usize = 64;
// Places for a connection and the steps of one chain.
pub const CHAIN_PLACES: usize = 1 + LARGEST_LIMIT;

pub const VISITS: u32 = 65536;
// The selections of modes, at most.
pub const SELECTIONS: usize = 10000;
// The letters in their order; a letter is known by its place in it.
pub const LETTER_COUNT: usize = 12;

pub const LETTERS: [u8; LETTER_COUNT] = *b"NCFXPITQUERM";
// The numbers of a row, by letter.
pub const N_NUMBERS: usize = 2;

pub const C_NUMBERS: usize = 9;

pub const F_NUMBERS: usize = 3;

pub const X_NUMBERS: usize = 7;

pub const P_NUMBERS: usize = 1;

pub const I_NUMBERS: usize = 2;

pub const T_NUMBERS: usize = 3;

pub const Q_NUMBERS: usize = 4;

pub const U_NUMBERS: usize = 9;

pub const E_NUMBERS: usize = 8;

pub const R_NUMBERS: usize = 5;

pub const M_NUMBERS: usize = 3;

pub const WIDTHS: [usize; LETTER_COUNT] = [
    N_NUMBERS, C_NUMBERS, F_NUMBERS, X_NUMBERS, P_NUMBERS, I_NUMBERS, T_NUMBERS, Q_NUMBERS,
    U_NUMBERS, E_NUMBERS, R_NUMBERS, M_NUMBERS,
];
// The path of a listing's row: a connection, the steps of its source's chain and those of its destination's.
pub const PATH_PLACES: usize = CHAIN_PLACES + LARGEST_LIMIT;
// A listing's row: connection, kind, two components, three name fields, path length, the path's places.
pub const ROW_NUMBERS: usize = 8 + PATH_PLACES;

pub const DIAGNOSTIC_NUMBERS: usize = 4;
// A row of links: first child, next sibling.
pub const LINK_NUMBERS: usize = 2;
// A feature of an expansion: name, kind, direction, length of its prefix, 10 places.
pub const FEATURE_NUMBERS: usize = 14;

pub const PREFIX_PLACES: usize = 10;
// What every program lends. For the tables of a sheet, of each letter (SHEET_BYTES for names):
pub const N_ROWS_LENT: usize = 256;

pub const ROWS_LENT: usize = 96;
// For each listing, and for composed names:
pub const LISTED_LENT: usize = 64;

pub const DIAGNOSTICS_LENT: usize = 64;

pub const NAMES_LENT: usize = 4096;
// For text, and for the sheet: one byte more than it may have, so that a longer one is refused and not read on.
pub const TEXT_LENT: usize = 8192;

pub const SHEET_LENT: usize = SHEET_BYTES + 1;

// A refusal as document 01 prints it: its number, its place (a line, a row, else 0) and the letter of the place's table, or `-`. The number is printed
// and handed to C, so it is one here too; refusals without a place are made of a `Reason`.
#[derive(Clone, Copy)]
pub struct Refusal {
    pub number: u32,
    pub place: u32,
    pub letter: u8,
}

// How many rows and diagnostics a listing wrote.
#[derive(Clone, Copy)]
pub struct Listed {
    pub rows: usize,
    pub diagnostics: usize,
}

// A refusal that has no place.
pub fn unplaced(number: u32) -> Refusal
    ensures { result ≡ told (refusal number nowhere) }
{
    Refusal {
        number: number,
        place: 0,
        letter: 45,
    }
}
