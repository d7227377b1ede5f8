// Filling the link table.
ghost use Rattle.std.specs.Prelude.{◌≡◌, ◌+◌, ◌*◌, ◌≤◌, ◌<◌, T, length};
ghost use Rattle.as5506.specs.Lists.{padded};
ghost use Rattle.as5506.specs.Tables.{c_count, c_place};
ghost use Rattle.as5506.specs.Refusals.{accepted};
ghost use Rattle.as5506.specs.Links.{link_table};
ghost use Rattle.lent.specs.Model.{model};
ghost use Rattle.child_links.specs.Linked.{LinkedInto};
ghost use Rattle.child_links.specs.Filling.{Spells, children_from, first_slot, slot_among};

use as5506::{C_NUMBERS, LINK_NUMBERS, MISSING, Reason, Refusal};
use columns::component;
use lent::Tables;

// The slot of the link that row i is to take among the children of its owner from row i + 1 on: the one behind those of a smaller place.
fn slot_for(m: &Tables, links: &[u32], i: usize, owner: usize) -> usize
    requires { T (accepted (model m.now)) × Spells (model m.now) links.now (i + 1) × (owner < c_count (model m.now)) }
    ensures { result ≡ slot_among (c_place (model m.now)) i (first_slot owner) (children_from (model m.now) (i + 1) owner) }
{
    let place = component::place_of(m, i);
    let mut slot = owner * LINK_NUMBERS;
    let mut next = lent::get_or(links, slot, MISSING);
    while next != MISSING && component::place_of(m, next as usize) < place {
        slot = next as usize * LINK_NUMBERS + 1;
        next = lent::get_or(links, slot, MISSING);
    }
    slot
}

// Links row i in among its siblings: what followed there follows it now. The root has none.
fn link_row(m: &Tables, links: &mut [u32], i: usize)
    requires { T (accepted (model m.now)) × Spells (model m.now) links.old (i + 1) }
    ensures { Spells (model m.now) links.new i }
{
    let owner = component::parent_of(m, i);
    if owner == MISSING {
        return;
    }
    let slot = slot_for(m, links, i, owner as usize);
    let next = lent::get_or(links, slot, MISSING);
    lent::put(links, i * LINK_NUMBERS + 1, next);
    lent::put(links, slot, i as u32);
}

// Fills the link table of accepted tables. The rows are linked from the last to the first, so that each stands before those of the same place; where the
// places rise with the rows, each stands before all that were linked.
fn link_children(m: &Tables, links: &mut [u32])
    requires { T (accepted (model m.now)) × (c_count (model m.now) * 2 ≤ length links.old) }
    ensures { links.new ≡ padded (length links.old) (link_table (model m.now)) }
{
    let count = m.c.len() / C_NUMBERS;
    links.fill(0);
    links[..count * LINK_NUMBERS].fill(MISSING);
    for i in (0..count).rev() {
        link_row(m, links, i);
    }
}

// What every listing begins with: checks the tables, and links their components. On a refusal the link table holds anything.
pub fn check_and_link(m: &Tables, links: &mut [u32]) -> Result<(), Refusal>
    ensures { LinkedInto (model m.now) links.old result links.new }
{
    tables::check_tables(m)?;
    if links.len() / LINK_NUMBERS < m.c.len() / C_NUMBERS {
        return Err(Refusal::from(Reason::Links));
    }
    link_children(m, links);
    Ok(())
}
