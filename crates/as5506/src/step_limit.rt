// A limit on the steps of a chain, 02 (ix).
ghost use Rattle.std.specs.Prelude.{◌≡◌, ◌≤◌, true, Err, IfOk, is_err, ltb};
ghost use Rattle.as5506.specs.Answers.{nowhere, refusal, told};
ghost use Rattle.as5506.specs.Tracing.{largest_limit};

use crate::{LARGEST_LIMIT, Reason, Refusal};

// A limit that may be set: so many steps, at most.
#[derive(Clone, Copy)]
pub struct StepLimit {
    pub steps: usize,
    ghost allowed: { steps ≤ largest_limit },
}

impl StepLimit {
    // The limit of so many steps, or the refusal of more than 64.
    pub fn new(steps: u64) -> Result<StepLimit, Refusal>
        ensures over { is_err result ≡ ltb largest_limit steps }
        ensures limit { IfOk result (λ l. l.steps ≡ steps) }
        ensures refusal { is_err result ≡ true → result ≡ Err (told (refusal 19 nowhere)) }
    {
        if steps > LARGEST_LIMIT as u64 {
            return Err(Refusal::from(Reason::Limit));
        }
        Ok(StepLimit {
            steps: steps as usize,
        })
    }
}
