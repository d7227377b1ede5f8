// Keys of names, which are compared before the names are: most names of siblings differ, and then their keys do.
ghost use Rattle.std.specs.Prelude.{◌≡◌, ◌≤◌, length};
ghost use Rattle.as5506.specs.Tables.{c_count};
ghost use Rattle.lent.specs.Model.{model};
ghost use Rattle.child_links.specs.Keys.{key_of, Keyed};

use as5506::C_NUMBERS;
use columns::component;
use lent::Tables;

// The key of a name: of names that are equal folded it is the same.
#[tactic(auto, using(crate::proofs::Keyed::making_turn, crate::proofs::Keyed::making_end))]
pub fn key_of(name: &[u8]) -> u32
    ensures { result ≡ key_of name.now }
{
    let mut key: u32 = 0;
    for b in name {
        key = (key * 31 + name::fold(*b) as u32) % 65536;
    }
    key
}

// Writes the key of each component: of its name, up to a bracket.
#[tactic(auto, using(crate::proofs::Keyed::keyed_turn))]
pub fn key_names(m: &Tables, keys: &mut [u32])
    requires { c_count (model m.now) ≤ length keys.old }
    ensures { Keyed (model m.now) keys.new }
{
    for i in 0..m.c.len() / C_NUMBERS {
        let own = name::name_of(m, component::name_of(m, i));
        lent::put(keys, i, key_of(name::base_name_of(own)));
    }
}
