// The tree of the components: their tables, with the links of their children and how their names are read.
ghost use Rattle.std.specs.Prelude.{◌≡◌, ◌≤◌, ◌<◌, length};
ghost use Rattle.as5506.specs.Tables.{c_count, x_count};
ghost use Rattle.as5506.specs.Links.{first_child, next_sibling};
ghost use Rattle.lent.specs.Model.{model};
ghost use Rattle.child_links.specs.Linked.{Linked, link_at, Inside};
ghost use Rattle.child_links.specs.Keys.{Keyed, component_key};

use as5506::{LINK_NUMBERS, MISSING};
use lent::Tables;
use name::Reading;

// Accepted tables, the link table that is theirs, the keys of their components' names, and which of their names are one.
#[derive(Clone, Copy)]
pub struct Tree<'a> {
    pub m: &'a Tables<'a>,
    pub links: &'a [u32],
    pub keys: &'a [u32],
    pub reading: Reading,
    ghost linked: { Linked (model m.now) links.now },
    ghost keyed: { Keyed (model m.now) keys.now },
    ghost components: { c_count (model m.now) ≤ 4096 },
    ghost connections: { x_count (model m.now) ≤ 4096 },
}

impl Tree<'_> {
    // The component at a place of the link table, if one stands there.
    fn link_at(&self, place: usize) -> Option<usize>
        requires { place < length self.now.links.now }
        ensures { result ≡ link_at self.now.links.now place }
    {
        let link = self.links[place];
        if link == MISSING {
            return None;
        }
        Some(link as usize)
    }

    // The key of the name of component i, up to a bracket.
    pub fn key(&self, i: usize) -> u32
        requires { i < c_count (model self.now.m.now) }
        ensures { result ≡ component_key (model self.now.m.now) i }
    {
        self.keys[i]
    }

    // The first child of a component.
    pub fn first_child(&self, component: u32) -> Option<usize>
        requires { component < c_count (model self.now.m.now) }
        ensures value { result ≡ first_child (model self.now.m.now) component }
        ensures inside { Inside (model self.now.m.now) result }
    {
        self.link_at(component as usize * LINK_NUMBERS)
    }

    // The next sibling of component i.
    pub fn next_sibling(&self, i: usize) -> Option<usize>
        requires { i < c_count (model self.now.m.now) }
        ensures value { result ≡ next_sibling (model self.now.m.now) i }
        ensures inside { Inside (model self.now.m.now) result }
    {
        self.link_at(i * LINK_NUMBERS + 1)
    }
}
