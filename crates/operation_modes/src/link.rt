// The modes of each component as a chain of M rows.
ghost use Rattle.std.specs.Prelude.{◌≡◌, ◌<◌, length, get_or};
ghost use Rattle.lent.specs.Model.{model};
ghost use Rattle.operation_modes.specs.Linked.{modes_linked, unlinked, put_before, Links};

use crate::Accepted;
use as5506::{M_NUMBERS, TABLE_ROWS};

// Of a component its first mode and how many it has, and of a mode the next one of the same component: 24 KB, since no number is above 4,096.
#[derive(Drop)]
pub struct Linked {
    first: [u16; TABLE_ROWS],
    next: [u16; TABLE_ROWS],
    sizes: [u16; TABLE_ROWS],
}

impl Linked {
    // No mode is linked.
    pub fn new() -> Linked
        ensures { result ≡ unlinked }
    {
        Linked {
            first: [0; TABLE_ROWS],
            next: [0; TABLE_ROWS],
            sizes: [0; TABLE_ROWS],
        }
    }

    // Links the modes in one pass over the M rows, from the last to the first, so that each mode is put before those of its component that follow it.
    // They are linked in place, since a struct of this size would be copied where it is returned.
    #[tactic(auto, using(crate::proofs::Linking::linking_end, crate::proofs::Linking::linking_room))]
    pub fn link(&mut self, tables: &Accepted)
        requires { self.old ≡ unlinked }
        ensures { Links (model tables.now.m.now) self.new }
    {
        for i in (0..tables.m.m.len() / M_NUMBERS).rev() {
            self.put_before(columns::mode::owner_of(tables.m, i) as usize, i as u16);
        }
    }

    // Puts a mode before those of its component.
    fn put_before(&mut self, owner: usize, mode: u16)
        requires { get_or self.old.sizes owner 0 < 65535 }
        ensures { self.new ≡ put_before self.old owner mode }
    {
        lent::put(
            &mut self.next,
            mode as usize,
            lent::get_or(&self.first, owner, 0),
        );
        lent::put(&mut self.first, owner, mode);
        let size = lent::get_or(&self.sizes, owner, 0);
        lent::put(&mut self.sizes, owner, size + 1);
    }

    // How many modes component i has.
    #[tactic(auto, using(crate::proofs::Linking::linked_length))]
    pub fn size(&self, i: usize) -> usize
        ensures { result ≡ length (modes_linked self.now i) }
    {
        lent::get_or(&self.sizes, i, 0) as usize
    }

    // Mode k of component i.
    #[tactic(auto, using(crate::proofs::Linking::linked_length, crate::proofs::Linking::chain_first, crate::proofs::Linking::chain_next), unfolding(crate::specs::Linked::modes_linked))]
    pub fn mode(&self, i: usize, k: usize) -> u32
        requires { k < length (modes_linked self.now i) }
        ensures { result ≡ get_or (modes_linked self.now i) k 0 }
    {
        let mut mode = lent::get_or(&self.first, i, 0);
        for _ in 0..k {
            mode = lent::get_or(&self.next, mode as usize, 0);
        }
        mode as u32
    }
}
