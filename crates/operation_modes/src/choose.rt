// The selection at a number: the number's digits, one for each component that is chosen from, the last one's changing fastest.
ghost use Rattle.std.specs.Prelude.{◌≡◌, ◌≤◌, ◌<◌};
ghost use Rattle.std.proofs.lemmas.List.Edits.{sets};
ghost use Rattle.as5506.specs.Lists.{up_to};
ghost use Rattle.as5506.specs.Modes.{combinations};
ghost use Rattle.as5506.specs.Digits.{pick};
ghost use Rattle.operation_modes.specs.Linked.{modes_linked, modal_of};

use crate::combine::Combined;
use crate::link::Linked;

// Writes the selection at number k of those that are combined. Of the combinations that are left to choose from, as many as `weight`, it is the one at
// number `left`.
pub fn choose_modes(linked: &Linked, combined: Combined, k: usize, rows: &mut [u32])
    requires { (combined.end ≤ 4096) × (combined.product ≡ combinations (modal_of (modes_linked linked.now) (up_to combined.end))) × (k < combined.product) }
    ensures { rows.new ≡ sets rows.old 0 (pick (modal_of (modes_linked linked.now) (up_to combined.end)) k) }
{
    let mut weight = combined.product;
    let mut left = k;
    // No index of the loop: components without modes are passed over.
    let mut at = 0;
    for i in 0..combined.end {
        let size = linked.size(i);
        if size == 0 {
            continue;
        }
        weight /= size;
        lent::put(rows, at, linked.mode(i, left / weight));
        left %= weight;
        at += 1;
    }
}
