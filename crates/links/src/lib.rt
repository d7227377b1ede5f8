// What the references between group types mean, each as one number, its link: the row of U. Each is resolved once, before any expansion: a walk makes
// up to 65,536 visits, and a reference means the same in all of them. A link is a u32 with two codes beside the rows, and no enum: the tables of links
// are fixed memory, four bytes a link.
#![tactic(auto)]

ghost use Rattle.std.specs.Prelude.{◌≡◌, ◌≤◌};
ghost use Rattle.std.proofs.lemmas.List.Edits.{sets};
ghost use Rattle.as5506.specs.Tables.{Tables as TheTables, letter_u, letter_e, count, present};
ghost use Rattle.lent.specs.Model.{model, with_packages, with_groups};
ghost use Rattle.columns.specs.Reference.{ref_of};
ghost use Rattle.links.specs.Links.{link_of, link_in, extends_link, inverse_link, nested_link, links_to, LinkedInto};

use as5506::{E_NUMBERS, MISSING, U_NUMBERS};
use columns::{FEATURE_GROUP, Reference, declared, group_type};
use lent::{Tables, get_or};
use resolver::Classifier;

// The link of a reference that names no group type. A number and no Option: links lie in lent tables of numbers.
pub const UNFOUND: u32 = 4294967294;

// The links of a model: of E rows what each nests, of U rows what each extends and what it is the inverse of.
#[derive(Clone, Copy)]
pub struct Links<'a> {
    pub nested: &'a [u32],
    pub extends: &'a [u32],
    pub inverse: &'a [u32],
}

// What finds the links of tables. These have few U rows, so that the number of each fits a link.
#[derive(Clone, Copy)]
struct Linker<'a, 'b> {
    m: &'a Tables<'b>,
    ghost few: { count (model m.now) letter_u ≤ 4096 },
}

impl Linker<'_, '_> {
    // The link of a reference that is asked from the package named `from`; `UNFOUND` where it names no group type.
    #[tactic(auto, using(crate::proofs::Rows::link_steps))]
    fn link(&self, from: u32, reference: Reference) -> u32
        ensures { result ≡ link_of (model self.now.m.now) from (ref_of reference) }
    {
        let Some(classifier) = resolver::resolve_classifier(self.m, from, reference) else {
            return UNFOUND;
        };
        match classifier {
            Classifier::GroupType { row, .. } => row as u32,
            Classifier::ComponentType { .. } | Classifier::ComponentImpl { .. } => UNFOUND,
        }
    }

    // The link of a reference that group type `row` has, or a feature of it; `MISSING` where its type is missing: then there is none.
    #[tactic(auto, using(crate::proofs::Rows::link_missing, crate::proofs::Rows::link_there))]
    fn link_at(&self, row: usize, reference: Reference) -> u32
        ensures { result ≡ link_in (present reference.type_name) (model self.now.m.now) row (ref_of reference) }
    {
        if reference.type_name == MISSING {
            return MISSING;
        }
        let from = get_or(self.m.p, group_type::package_of(self.m, row) as usize, 0);
        self.link(from, reference)
    }

    // Writes the links of U rows: what each extends and what it is the inverse of.
    #[tactic(auto, using(crate::proofs::Rows::type_steps))]
    fn link_types(&self, extends: &mut [u32], inverse: &mut [u32])
        ensures in_extends { extends.new ≡ sets extends.old 0 (links_to (extends_link (model self.now.m.now)) (count (model self.now.m.now) letter_u)) }
        ensures in_inverse { inverse.new ≡ sets inverse.old 0 (links_to (inverse_link (model self.now.m.now)) (count (model self.now.m.now) letter_u)) }
    {
        for row in 0..self.m.u.len() / U_NUMBERS {
            let extended = group_type::extends_of(self.m, row);
            lent::put(extends, row, self.link_at(row, extended));
            let inverted = group_type::inverse_of(self.m, row);
            lent::put(inverse, row, self.link_at(row, inverted));
        }
    }

    // The link of the classifier of E row `row`, if the row is a nested group of a group type; otherwise `MISSING`.
    #[tactic(auto, using(crate::proofs::Rows::feature_steps))]
    fn link_feature(&self, row: usize) -> u32
        ensures { result ≡ nested_link (model self.now.m.now) row }
    {
        if declared::holder_kind_of(self.m, row) != declared::HOLDER_GROUP_TYPE
            || declared::kind_of(self.m, row) != FEATURE_GROUP
        {
            return MISSING;
        }
        let holder = declared::holder_of(self.m, row) as usize;
        self.link_at(holder, declared::classifier_of(self.m, row))
    }

    // Writes the links of E rows.
    #[tactic(auto, using(crate::proofs::Rows::filling_steps))]
    fn link_features(&self, nested: &mut [u32])
        ensures { nested.new ≡ sets nested.old 0 (links_to (nested_link (model self.now.m.now)) (count (model self.now.m.now) letter_e)) }
    {
        for row in 0..self.m.e.len() / E_NUMBERS {
            lent::put(nested, row, self.link_feature(row));
        }
    }
}

// The link of a reference that is asked from the package named `from`; `UNFOUND` where it names no group type. The same of every model that has these
// packages, whatever its other tables hold.
pub fn link(m: &Tables, from: u32, reference: Reference) -> u32
    requires { count (model m.now) letter_u ≤ 4096 }
    ensures value { result ≡ link_of (model m.now) from (ref_of reference) }
    ensures others { (o : TheTables) → result ≡ link_of (with_packages (model m.now) o) from (ref_of reference) }
{
    Linker { m }.link(from, reference)
}

// Writes the links of all group types and their features: the same of every model that has these packages and E rows, whatever its other tables hold.
pub fn link_groups(m: &Tables, nested: &mut [u32], extends: &mut [u32], inverse: &mut [u32])
    requires { count (model m.now) letter_u ≤ 4096 }
    ensures linked { LinkedInto (model m.now) nested.old extends.old inverse.old nested.new extends.new inverse.new }
    ensures others { (o : TheTables) → LinkedInto (with_groups (model m.now) o) nested.old extends.old inverse.old nested.new extends.new inverse.new }
{
    let linker = Linker { m };
    linker.link_types(extends, inverse);
    linker.link_features(nested);
}
