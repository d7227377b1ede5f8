// `resolve_classifier` (resolver.rs) over lent tables of any contents: past a table 0 is read, and a name past the names is empty, as in the definition.
// Its contract holds whatever stands in the tables that it does not read.
#![tactic(auto)]

ghost use Rattle.std.specs.Prelude.{◌||◌, cond, ◌≡◌, ◌+◌, ◌*◌, ◌/◌, ◌<◌, ◌≤◌, Some, None, eqb, length, get_or};
ghost use Rattle.as5506.specs.Lists.{first_of};
ghost use Rattle.as5506.specs.Tables.{Tables as TheTables};
ghost use Rattle.as5506.specs.Names.{key};
ghost use Rattle.as5506.specs.Resolve.{package_named, type_named, impl_named, group_named, renames_named, in_package, in_found, replaced_by, with_package, from_imports, renames_for, without_package, resolve};
ghost use Rattle.lent.specs.Model.{model, with_packages};
ghost use Rattle.columns.specs.Reference.{ref_of};
ghost use Rattle.resolver.specs.Keys.{has_part, has_key, rows_with_key};
ghost use Rattle.resolver.specs.Found.{found, renamed_number};

use as5506::{I_NUMBERS, MISSING, P_NUMBERS, Q_NUMBERS, R_NUMBERS, T_NUMBERS, U_NUMBERS};
use columns::{Reference, field_at, group_type};
use lent::{Tables, get_or};
use name::same_folded_names;

// What a reference names: a row of T, of Q or of U, with the row of P that it was found in.
#[derive(Clone, Copy)]
pub enum Classifier {
    ComponentType { package: usize, row: usize },
    ComponentImpl { package: usize, row: usize },
    GroupType { package: usize, row: usize },
}

// What a key asks for in one field of a row: a number, a name that is equal folded, or nothing.
#[derive(Clone, Copy)]
enum Part {
    Number(usize),
    Name(u32),
    Any,
}

// The key of a row: what its first three fields must be. Where a row or its key is shorter, the last parts are `Any`.
#[derive(Clone, Copy)]
struct Key(Part, Part, Part);

// What a row of R renames.
#[derive(Clone, Copy)]
enum Renamed {
    Package = 0,
    Classifier = 1,
    GroupType = 2,
}

impl Renamed {
    // The number that a row has for it.
    fn number(self) -> usize
        ensures { result ≡ renamed_number self }
    {
        self as usize
    }
}

// ---- rows and keys

// Whether a field is what a key asks for. "Keys are folded". By cases: each kind of part asks something else. (It stands where it is called: once for
// each field of each row that is searched.)
#[inline(always)]
#[tactic(auto, unfolding(crate::specs::Keys::has_part))]
fn has_part(m: &Tables, field: u32, part: Part) -> bool
    ensures { result ≡ has_part (model m.now) field part }
{
    match part {
        Part::Number(k) => field as usize == k,
        Part::Name(k) => same_folded_names(m, field, k),
        Part::Any => true,
    }
}

// Whether the row that starts at a place of a table has a key.
#[tactic(auto, unfolding(crate::specs::Keys::has_key))]
fn has_key(m: &Tables, table: &[u32], place: usize, key: &Key) -> bool
    requires { place ≤ length table.now }
    ensures { result ≡ has_key (model m.now) table.now place key.now }
{
    has_part(m, get_or(table, place, 0), key.0)
        && has_part(m, get_or(table, place + 1, 0), key.1)
        && has_part(m, get_or(table, place + 2, 0), key.2)
}

// The first row that has a key, in a table of rows of `width` fields: "Hashing becomes a scan for equal folded names".
#[tactic(auto, using(crate::proofs::Scan::searching))]
fn find_row(m: &Tables, table: &[u32], width: usize, key: &Key) -> Option<usize>
    requires { 0 < width }
    ensures { result ≡ first_of (rows_with_key (model m.now) table.now width key.now) }
{
    for row in 0..table.len() / width {
        if has_key(m, table, row * width, key) {
            return Some(row);
        }
    }
    None
}

// The package of a name.
#[tactic(auto, using(crate::proofs::Keys::package_found))]
fn find_package(m: &Tables, name: u32) -> Option<usize>
    ensures { result ≡ package_named (model m.now) (key (model m.now) name) }
{
    let key = Key(Part::Name(name), Part::Any, Part::Any);
    find_row(m, m.p, P_NUMBERS, &key)
}

// The component type of a package and a name.
#[tactic(auto, using(crate::proofs::Keys::type_found))]
fn find_type(m: &Tables, package: usize, name: u32) -> Option<usize>
    ensures { result ≡ type_named (model m.now) «package» (key (model m.now) name) }
{
    let key = Key(Part::Number(package), Part::Name(name), Part::Any);
    find_row(m, m.t, T_NUMBERS, &key)
}

// The implementation of a package and a pair of names.
#[tactic(auto, using(crate::proofs::Keys::impl_found))]
fn find_impl(m: &Tables, package: usize, type_name: u32, implementation: u32) -> Option<usize>
    ensures { result ≡ impl_named (model m.now) «package» (key (model m.now) type_name) (key (model m.now) implementation) }
{
    let key = Key(
        Part::Number(package),
        Part::Name(type_name),
        Part::Name(implementation),
    );
    find_row(m, m.q, Q_NUMBERS, &key)
}

// The group type of a package and a name.
#[tactic(auto, using(crate::proofs::Keys::group_found))]
fn find_group(m: &Tables, package: usize, name: u32) -> Option<usize>
    ensures { result ≡ group_named (model m.now) «package» (key (model m.now) name) }
{
    let key = Key(Part::Number(package), Part::Name(name), Part::Any);
    find_row(m, m.u, U_NUMBERS, &key)
}

// The rename of a package, of one kind, by its alias.
#[tactic(auto, using(crate::proofs::Keys::rename_found))]
fn find_rename(m: &Tables, package: usize, what: Renamed, alias: u32) -> Option<usize>
    ensures { result ≡ first_of (renames_named (model m.now) «package» (renamed_number what) (key (model m.now) alias)) }
{
    let key = Key(
        Part::Number(package),
        Part::Number(what.number()),
        Part::Name(alias),
    );
    find_row(m, m.r, R_NUMBERS, &key)
}

// ---- in one package

// A hit, where it may be seen: `own` says that the reference is asked from the hit's own package. "A private hit from outside gives nothing".
fn if_visible(own: bool, private: u32, hit: Classifier) -> Option<Classifier>
    ensures { result ≡ cond (own || eqb private 0) (Some hit) None }
{
    (own || private == 0).then_some(hit)
}

// What a reference names in one package: "with an implementation name only Q; otherwise T, then U", and "U is not tried after a private T".
#[tactic(auto, using(crate::proofs::Steps::package_steps))]
fn in_package(m: &Tables, own: bool, package: usize, reference: Reference) -> Option<Classifier>
    ensures { result ≡ found (model m.now) (in_package (model m.now) own «package» (ref_of reference)) }
{
    let type_name = reference.type_name;
    if reference.implementation != MISSING {
        let row = find_impl(m, package, type_name, reference.implementation)?;
        let private = field_at(m.q, Q_NUMBERS, row, 3);
        return if_visible(own, private, Classifier::ComponentImpl { package, row });
    }
    if let Some(row) = find_type(m, package, type_name) {
        let private = field_at(m.t, T_NUMBERS, row, 2);
        return if_visible(own, private, Classifier::ComponentType { package, row });
    }
    let row = find_group(m, package, type_name)?;
    let private = group_type::private_of(m, row);
    if_visible(own, private, Classifier::GroupType { package, row })
}

// The same in the package of a name, whichever the reference names itself; nothing where no package has it.
#[tactic(auto, using(crate::proofs::Steps::package_none, crate::proofs::Steps::package_some))]
fn resolve_in_package(
    m: &Tables,
    own: bool,
    package: u32,
    reference: Reference,
) -> Option<Classifier>
    ensures { result ≡ found (model m.now) (in_found (model m.now) own (ref_of reference) (package_named (model m.now) (key (model m.now) «package»))) }
{
    let row = find_package(m, package)?;
    in_package(m, own, row, reference)
}

// ---- a reference with a package

// A package name as the asking package means it: "at most one replacement by the asking package's package renames".
#[tactic(auto, using(crate::proofs::Steps::replaced_steps))]
fn replaced(m: &Tables, asking: Option<usize>, package: u32) -> u32
    ensures { result ≡ replaced_by (model m.now) «package» asking }
{
    let Some(row) = asking else {
        return package;
    };
    let Some(rename) = find_rename(m, row, Renamed::Package, package) else {
        return package;
    };
    field_at(m.r, R_NUMBERS, rename, 3)
}

// "A reference with a package is looked up there, after at most one replacement"; ""Own" means equal keys after replacement".
// `asking` is the row of the package named `from`.
#[tactic(auto, using(crate::proofs::Steps::by_replaced))]
fn with_package(
    m: &Tables,
    asking: Option<usize>,
    from: u32,
    reference: Reference,
) -> Option<Classifier>
    ensures { asking ≡ package_named (model m.now) (key (model m.now) from)
        → result ≡ found (model m.now) (with_package (model m.now) from (ref_of reference)) }
{
    let name = replaced(m, asking, reference.package);
    let own = same_folded_names(m, name, from);
    resolve_in_package(m, own, name, reference)
}

// ---- a reference without a package

// What the packages give that the asking package imports, "imports in order". They are asked from outside, so a private hit is passed over.
#[tactic(auto, using(crate::proofs::Steps::import_steps))]
fn from_imports(m: &Tables, asking: usize, reference: Reference) -> Option<Classifier>
    ensures { result ≡ found (model m.now) (from_imports (model m.now) asking (ref_of reference)) }
{
    for row in 0..m.i.len() / I_NUMBERS {
        if field_at(m.i, I_NUMBERS, row, 0) as usize != asking {
            continue;
        }
        let name = field_at(m.i, I_NUMBERS, row, 1);
        let hit = resolve_in_package(m, false, name, reference);
        if hit.is_some() {
            return hit;
        }
    }
    None
}

// The rename that a type name stands for: "classifier rename, then (no implementation name) group rename".
#[tactic(auto, using(crate::proofs::Steps::no_rename))]
fn rename_for(m: &Tables, asking: usize, reference: Reference) -> Option<usize>
    ensures { result ≡ first_of (renames_for (model m.now) asking (ref_of reference)) }
{
    if let Some(rename) = find_rename(m, asking, Renamed::Classifier, reference.type_name) {
        return Some(rename);
    }
    if reference.implementation != MISSING {
        return None;
    }
    find_rename(m, asking, Renamed::GroupType, reference.type_name)
}

// "Without a package: own package, then classifier rename, then (no implementation name) group rename, then imports in order";
// "A matching rename ends the search, found or not". `asking` is the row of the package named `from`.
#[tactic(auto, using(crate::proofs::Steps::unpackaged_steps))]
fn without_package(m: &Tables, asking: usize, from: u32, reference: Reference) -> Option<Classifier>
    ensures { Some asking ≡ package_named (model m.now) (key (model m.now) from)
        → result ≡ found (model m.now) (without_package (model m.now) from (ref_of reference) (Some asking)) }
{
    let own = in_package(m, true, asking, reference);
    if own.is_some() {
        return own;
    }
    let Some(rename) = rename_for(m, asking, reference) else {
        return from_imports(m, asking, reference);
    };
    let target = Reference {
        package: field_at(m.r, R_NUMBERS, rename, 3),
        type_name: field_at(m.r, R_NUMBERS, rename, 4),
        implementation: reference.implementation,
    };
    with_package(m, Some(asking), from, target)
}

// What a reference names, asked from the package named `from`; the same of every model that has these packages, whatever its other tables hold.
#[tactic(auto, using(crate::proofs::Steps::resolve_steps))]
pub fn resolve_classifier(m: &Tables, from: u32, reference: Reference) -> Option<Classifier>
    ensures value { result ≡ found (model m.now) (resolve (model m.now) from (ref_of reference)) }
    ensures others { (o : TheTables) →
        let w : TheTables = with_packages (model m.now) o in
        result ≡ found w (resolve w from (ref_of reference)) }
{
    let asking = find_package(m, from);
    if reference.package != MISSING {
        return with_package(m, asking, from, reference);
    }
    without_package(m, asking?, from, reference)
}
