// 16 and 9: no two rows of a letter with one key.
ghost use Rattle.std.specs.Prelude.{◌≡◌, ◌==◌};
ghost use Rattle.lent.specs.Model.{model};
ghost use Rattle.as5506.specs.Lists.{any_of, up_to, same_bytes};
ghost use Rattle.as5506.specs.Names.{key};
ghost use Rattle.as5506.specs.Refusals.{clashes, faults16, faults9};
ghost use Rattle.as5506.specs.Tables.{at, letter_p, letter_t, letter_q, letter_u, letter_r};
ghost use Rattle.tables.specs.Answer.{checked};
ghost use Rattle.tables.specs.Rule.{number_of};
ghost use Rattle.tables.specs.Letter.{letter_of};
ghost use Rattle.tables.specs.Rows.{Tests, Compares};
ghost use Rattle.tables.specs.Keys.{key_p, key_t, key_q, key_u, key_r};

use crate::letter::Letter;
use crate::{FewRows, RowNumber, Rule};
use as5506::Refusal;

// Whether a row before a row is the same as it. With all rows, a scan of all pairs: seconds at 4,096 rows of each letter.
fn is_taken<F: Fn(RowNumber, RowNumber) -> bool>(row: RowNumber, same: &F) -> bool
    requires { F.IsAlwaysCallable same.now }
    ensures { (test : _) → Tests (F.post same.now row) test → result ≡ any_of test (up_to row.i) }
{
    for j in 0..row.i {
        if same(row, RowNumber { i: j }) {
            return true;
        }
    }
    false
}

impl FewRows<'_, '_> {
    // Refuses the first row of a letter that has the key of an earlier row.
    fn check_key<F: Fn(RowNumber, RowNumber) -> bool>(
        &self,
        rule: Rule,
        letter: Letter,
        same: F,
    ) -> Result<(), Refusal>
        requires { F.IsAlwaysCallable same }
        ensures { (key_of : _) → Compares (F.post same) key_of → result ≡ checked (clashes (number_of rule) (model self.now.m.now) (letter_of letter) key_of) }
    {
        self.check_rows(rule, letter, |row| is_taken(row, &same))
    }

    // Whether two rows have the same in number k.
    fn same_number(&self, letter: Letter, k: u8, a: RowNumber, b: RowNumber) -> bool
        ensures { result ≡ (at (model self.now.m.now) (letter_of letter) a.i k == at (model self.now.m.now) (letter_of letter) b.i k) }
    {
        self.field(letter, a, k) == self.field(letter, b, k)
    }

    // Whether two rows have names that are equal folded in number k.
    #[tactic(auto, unfolding(as5506::specs::Names::same_folded, as5506::specs::Names::key))]
    fn same_name(&self, letter: Letter, k: u8, a: RowNumber, b: RowNumber) -> bool
        ensures { result ≡ same_bytes (key (model self.now.m.now) (at (model self.now.m.now) (letter_of letter) a.i k)) (key (model self.now.m.now) (at (model self.now.m.now) (letter_of letter) b.i k)) }
    {
        name::same_folded_names(self.m, self.field(letter, a, k), self.field(letter, b, k))
    }

    // 16: refuses the first component with the parent and the place of an earlier one. The place comes first: it is seldom the same.
    #[tactic(auto, unfolding(as5506::specs::Refusals::faults16))]
    pub fn check_places(&self) -> Result<(), Refusal>
        ensures { result ≡ checked (faults16 (model self.now.m.now)) }
    {
        self.check_key(Rule::Place, Letter::C, |a, b| {
            self.same_number(Letter::C, 8, a, b) && self.same_number(Letter::C, 1, a, b)
        })
    }

    // Refuses the first package with the name of an earlier one.
    fn check_package_keys(&self) -> Result<(), Refusal>
        ensures { result ≡ checked (clashes 9 (model self.now.m.now) letter_p (key_p (model self.now.m.now))) }
    {
        self.check_key(
            Rule::Key,
            Letter::P,
            |a, b| self.same_name(Letter::P, 0, a, b),
        )
    }

    // Refuses the first component type with the package and name of an earlier one.
    fn check_type_keys(&self) -> Result<(), Refusal>
        ensures { result ≡ checked (clashes 9 (model self.now.m.now) letter_t (key_t (model self.now.m.now))) }
    {
        self.check_key(Rule::Key, Letter::T, |a, b| {
            self.same_number(Letter::T, 0, a, b) && self.same_name(Letter::T, 1, a, b)
        })
    }

    // Refuses the first implementation with the package, type and name of an earlier one.
    fn check_implementation_keys(&self) -> Result<(), Refusal>
        ensures { result ≡ checked (clashes 9 (model self.now.m.now) letter_q (key_q (model self.now.m.now))) }
    {
        self.check_key(Rule::Key, Letter::Q, |a, b| {
            self.same_number(Letter::Q, 0, a, b)
                && self.same_name(Letter::Q, 1, a, b)
                && self.same_name(Letter::Q, 2, a, b)
        })
    }

    // Refuses the first group type with the package and name of an earlier one.
    fn check_group_type_keys(&self) -> Result<(), Refusal>
        ensures { result ≡ checked (clashes 9 (model self.now.m.now) letter_u (key_u (model self.now.m.now))) }
    {
        self.check_key(Rule::Key, Letter::U, |a, b| {
            self.same_number(Letter::U, 0, a, b) && self.same_name(Letter::U, 1, a, b)
        })
    }

    // Refuses the first rename with the package, kind and alias of an earlier one.
    fn check_rename_keys(&self) -> Result<(), Refusal>
        ensures { result ≡ checked (clashes 9 (model self.now.m.now) letter_r (key_r (model self.now.m.now))) }
    {
        self.check_key(Rule::Key, Letter::R, |a, b| {
            self.same_number(Letter::R, 0, a, b)
                && self.same_number(Letter::R, 1, a, b)
                && self.same_name(Letter::R, 2, a, b)
        })
    }

    // 9: refuses the first package, type, implementation, group type or rename with the key of an earlier one.
    #[tactic(auto, using(crate::proofs::Order::in_turn), unfolding(as5506::specs::Refusals::faults9))]
    pub fn check_keys(&self) -> Result<(), Refusal>
        ensures { result ≡ checked (faults9 (model self.now.m.now)) }
    {
        self.check_package_keys()?;
        self.check_type_keys()?;
        self.check_implementation_keys()?;
        self.check_group_type_keys()?;
        self.check_rename_keys()
    }
}
