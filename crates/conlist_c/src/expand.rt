// The expansion of a feature group.
ghost use Rattle.std.specs.Prelude.{◌≡◌};
ghost use Rattle.as5506.specs.Answers.{handed};
ghost use Rattle.lent.specs.Lent.{tables_at};
ghost use Rattle.feature_group.specs.Answer.{expanded, answer_for, ExpandedInto};
ghost use Rattle.conlist_c.specs.Numbers.{answer_numbers, expanded_numbers};

use crate::numbers;
use lent::Tables;

// Expands as `expand_feature_group` does. `told` then holds 0, the features that were written and the visits that were made, or a refusal's number,
// place and letter.
#[unsafe(no_mangle)]
pub extern "C" fn conlist_expand_feature_group(
    bytes: &[u8],
    n: &[u32],
    c: &[u32],
    f: &[u32],
    x: &[u32],
    p: &[u32],
    i: &[u32],
    t: &[u32],
    q: &[u32],
    u: &[u32],
    e: &[u32],
    r: &[u32],
    m: &[u32],
    out: &mut [u32],
    from: u32,
    type_name: u32,
    inverse: bool,
    told: &mut [u64; 3],
)
    ensures told_after { told.new ≡ answer_numbers 3 expanded_numbers (handed expanded (answer_for (tables_at bytes n c f x p i t q u e r m) out.old from type_name inverse)) }
    ensures expanded_into { ExpandedInto (tables_at bytes n c f x p i t q u e r m) out.old from type_name inverse (handed expanded (answer_for (tables_at bytes n c f x p i t q u e r m) out.old from type_name inverse)) out.new }
{
    let model = Tables {
        bytes,
        n,
        c,
        f,
        x,
        p,
        i,
        t,
        q,
        u,
        e,
        r,
        m,
    };
    *told = numbers::told(feature_group::expand_feature_group(
        &model, out, from, type_name, inverse,
    ));
}
