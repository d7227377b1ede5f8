// The two calls for tables that are accepted: only the C rows, the M rows and the names are asked for.
ghost use Rattle.std.specs.Prelude.{◌≡◌, [], length};
ghost use Rattle.as5506.specs.Modes.{modes_counted, selection_on};
ghost use Rattle.lent.specs.Model.{model};
ghost use Rattle.operation_modes.specs.Answer.{modes_told, Selects};

use crate::choose::choose_modes;
use crate::combine::Combined;
use crate::join::join_names;
use crate::link::Linked;
use crate::{Accepted, Modes, Selected};
use as5506::{C_NUMBERS, Reason, Refusal};

impl Accepted<'_, '_> {
    // How many selections there are, and whether the list was cut.
    #[tactic(auto, using(crate::proofs::Answers::number_counted, crate::proofs::Answers::cut_counted))]
    pub fn count_modes(&self) -> Modes
        ensures { result ≡ modes_told (modes_counted (model self.now.m.now)) }
    {
        let mut linked = Linked::new();
        linked.link(self);
        let combined = Combined::of(&linked, self.m.c.len() / C_NUMBERS);
        Modes {
            number: combined.number(),
            cut: combined.is_over(),
        }
    }

    // The selection at number k, and its joined name. On a refusal the outputs hold anything.
    pub fn select(&self, rows: &mut [u32], name: &mut [u8], k: u64) -> Result<Selected, Refusal>
        ensures { Selects (selection_on (length rows.old) (length name.old) (model self.now.m.now) k []) rows.old name.old result rows.new name.new }
    {
        let mut linked = Linked::new();
        linked.link(self);
        let combined = Combined::of(&linked, self.m.c.len() / C_NUMBERS);
        if combined.number() as u64 <= k {
            return Err(Refusal::from(Reason::Selection));
        }
        let chosen = combined.chosen;
        if rows.len() < chosen {
            return Err(Refusal::from(Reason::Rows));
        }
        choose_modes(&linked, combined, k as usize, rows);
        let bytes = join_names(self.m, &rows[..chosen], name).ok_or(Refusal::from(Reason::Names))?;
        Ok(Selected {
            rows: chosen,
            bytes,
        })
    }
}
