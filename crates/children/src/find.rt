// The search for a child, along the siblings.
ghost use Rattle.std.specs.Prelude.{◌≡◌, ◌<◌};
ghost use Rattle.as5506.specs.Tables.{c_count};
ghost use Rattle.as5506.specs.Tracing.{is_element};
ghost use Rattle.child_links.specs.Linked.{Inside};
ghost use Rattle.child_links.specs.Trees.{same_in};
ghost use Rattle.children.specs.Rules.{fits};
ghost use Rattle.children.specs.Found.{found_from, after_child, tables_in, name_in};

use super::{Rule, Search};
use columns::component;

impl Search<'_> {
    // Whether component i is an array element whose name before the bracket is the wanted one, case ignored.
    #[tactic(auto, unfolding(as5506::specs::Tracing::is_element))]
    fn is_element(&self, i: usize) -> bool
        ensures { result ≡ is_element (tables_in self.now) (name_in self.now) i }
    {
        let m = self.tree.m;
        if !component::has_index(m, i) {
            return false;
        }
        let own = name::name_of(m, component::name_of(m, i));
        name::same_folded(name::base_name_of(own), name::name_of(m, self.wanted))
    }

    // Whether component i has the wanted name by the rule, in whichever component it stands.
    #[tactic(auto, unfolding(crate::specs::Rules::fits, as5506::specs::Tracing::is_named))]
    fn name_fits(&self, i: usize) -> bool
        ensures { result ≡ fits (same_in self.now.tree.now) (tables_in self.now) self.now.rule (name_in self.now) i }
    {
        match self.rule {
            Rule::Whole => {
                let m = self.tree.m;
                name::same_by(m, self.tree.reading, component::name_of(m, i), self.wanted)
            }
            Rule::Base => self.is_element(i),
        }
    }

    // Whether it finds component i, whose name is looked at where it has the key.
    #[tactic(auto, using(crate::proofs::Finding::other_key))]
    fn finds(&self, i: usize) -> bool
        requires { i < c_count (tables_in self.now) }
        ensures { result ≡ fits (same_in self.now.tree.now) (tables_in self.now) self.now.rule (name_in self.now) i }
    {
        self.tree.key(i) == self.key && self.name_fits(i)
    }

    // The first that it finds of a component and the siblings behind it.
    #[tactic(auto, using(crate::proofs::Finding::find_end, crate::proofs::Finding::find_hit, crate::proofs::Finding::find_miss, crate::proofs::Finding::find_less))]
    pub fn find(&self, first: Option<usize>) -> Option<usize>
        requires { Inside (tables_in self.now) first }
        ensures value { found_from self.now first ≡ after_child self.now result }
        ensures inside { Inside (tables_in self.now) result }
    {
        let mut at = first;
        while let Some(i) = at {
            if self.finds(i) {
                return Some(i);
            }
            at = self.tree.next_sibling(i);
        }
        None
    }
}
