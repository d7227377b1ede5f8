// Why a call gives nothing where no line or row is to blame, and the refusal for each reason.
ghost use Rattle.std.specs.Prelude.{◌≡◌};
ghost use Rattle.as5506.specs.Answers.{nowhere, refusal, told};
ghost use Rattle.as5506.specs.Reasons.{number_of};

use crate::{Refusal, unplaced};

// The reasons, by the numbers of their refusals.
#[derive(Clone, Copy)]
pub enum Reason {
    // More rows than their output holds.
    Rows = 11,
    // More diagnostics than their output holds.
    Diagnostics = 12,
    // An endpoint has over 65,536 visits.
    Visits = 13,
    // Composed names, or a joined one, longer than their output.
    Names = 14,
    // A printed list longer than its output.
    Text = 15,
    // A step limit above 64.
    Limit = 19,
    // A selection number not below the number of selections.
    Selection = 20,
    // A link table of fewer rows than there are components.
    Links = 22,
}

impl From<Reason> for Refusal {
    fn from(reason: Reason) -> Self
        ensures { result ≡ told (refusal (number_of reason) nowhere) }
    {
        unplaced(reason as u32)
    }
}
