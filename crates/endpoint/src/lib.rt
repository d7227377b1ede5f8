// The ends of a group connection (instance.rs, `resolve_endpoint_component` and `expand_endpoint_feature_group`): the component of an end, and the
// group that its feature stands for.
#![tactic(auto)]

ghost use Rattle.std.specs.Prelude.{◌≡◌, ◌<◌, Some, option_map};
ghost use Rattle.as5506.specs.Tables.{Tables as TheTables, x_count};
ghost use Rattle.as5506.specs.Names.{key};
ghost use Rattle.as5506.specs.GroupList.{is_group_connection, is_group_feature, declared_group, declared_by, end_component, endpoint as the_endpoint};
ghost use Rattle.lent.specs.Model.{model, with_components};
ghost use Rattle.child_links.specs.Trees.{of_tree, same_in};
ghost use Rattle.columns.specs.Side.{side_of};
ghost use Rattle.endpoint.specs.Ends.{expanded, is_group, is_declared};

use as5506::{E_NUMBERS, F_NUMBERS, MISSING};
use child_links::Tree;
use columns::{FEATURE_GROUP, Reference, Side, component, connection, declared, feature};
use lent::Tables;
use resolver::Classifier;

// The group that an end stands for: its type's name and the name of the package to ask from.
#[derive(Clone, Copy)]
pub struct Group {
    pub package: u32,
    pub type_name: u32,
}

// `ConnectionKind::FeatureGroup`: a number, since of all kinds only this is asked for.
const CONNECTION_KIND: u32 = 2;

// Whether X row i connects groups: it has their kind, and a feature at both ends.
#[tactic(auto, unfolding(as5506::specs::GroupList::is_group_connection))]
pub fn is_group_connection(m: &Tables, i: usize) -> bool
    ensures { result ≡ is_group_connection (model m.now) i }
{
    connection::kind_of(m, i) == CONNECTION_KIND
        && connection::feature_of(m, Side::Source, i) != MISSING
        && connection::feature_of(m, Side::Destination, i) != MISSING
}

// The component at an end of X row i: the first child of the name, or the owner where no subcomponent is named.
#[tactic(auto, using(crate::proofs::Steps::end_owner, crate::proofs::Steps::end_child))]
pub fn end_component(tree: &Tree, side: Side, i: usize) -> Option<usize>
    requires { i < x_count (of_tree tree.now) }
    ensures { result ≡ end_component (same_in tree.now) (of_tree tree.now) (side_of side) i }
{
    let owner = connection::owner_of(tree.m, i);
    let sub = connection::subcomponent_of(tree.m, side, i);
    if sub == MISSING {
        return Some(owner as usize);
    }
    children::named(tree, owner, sub).first()
}

// Whether F row i is a feature of the component, is a group, and has the wanted name, case ignored.
#[tactic(auto, unfolding(crate::specs::Ends::is_group, as5506::specs::Names::same_folded, as5506::specs::Names::key))]
fn is_group_feature(m: &Tables, component: u32, feature: u32, i: usize) -> bool
    ensures { result ≡ is_group (model m.now) component (key (model m.now) feature) i }
{
    feature::owner_of(m, i) == component
        && feature::kind_of(m, i) == FEATURE_GROUP
        && name::same_folded_names(m, feature::name_of(m, i), feature)
}

// Whether a component has such a feature.
#[tactic(auto, using(as5506::proofs::Searches::search_start, as5506::proofs::Searches::search_miss, crate::proofs::Steps::feature_steps))]
fn has_group_feature(m: &Tables, component: u32, feature: u32) -> bool
    ensures { result ≡ is_group_feature (model m.now) component (key (model m.now) feature) }
{
    for i in 0..m.f.len() / F_NUMBERS {
        if is_group_feature(m, component, feature, i) {
            return true;
        }
    }
    false
}

// Whether E row i is a feature of the component type, is a group, and has the wanted name, case ignored.
#[tactic(auto, unfolding(crate::specs::Ends::is_declared, as5506::specs::Names::same_folded, as5506::specs::Names::key))]
fn is_declared_group(m: &Tables, holder: usize, feature: u32, i: usize) -> bool
    ensures { result ≡ is_declared (model m.now) holder (key (model m.now) feature) i }
{
    declared::holder_of(m, i) as usize == holder
        && declared::holder_kind_of(m, i) == declared::HOLDER_COMPONENT_TYPE
        && declared::kind_of(m, i) == FEATURE_GROUP
        && name::same_folded_names(m, declared::name_of(m, i), feature)
}

// The first such feature.
#[tactic(auto, using(resolver::proofs::Scan::searching, crate::proofs::Steps::declared_found))]
fn declared_group(m: &Tables, holder: usize, feature: u32) -> Option<usize>
    ensures { result ≡ declared_group (model m.now) holder (key (model m.now) feature) }
{
    for i in 0..m.e.len() / E_NUMBERS {
        if is_declared_group(m, holder, feature, i) {
            return Some(i);
        }
    }
    None
}

// The group that the classifier of E row i asks for: where it names no package, from the component's.
#[tactic(auto, using(crate::proofs::Steps::classifier_steps))]
fn classifier(m: &Tables, i: usize, component: u32) -> Option<Group>
    ensures { option_map (expanded (model m.now)) result ≡ declared_by (model m.now) component (Some i) }
{
    let Reference {
        package,
        type_name,
        ..
    } = declared::classifier_of(m, i);
    if type_name == MISSING {
        return None;
    }
    if package == MISSING {
        let package = component::package_of(m, component as usize);
        return Some(Group { package, type_name });
    }
    Some(Group { package, type_name })
}

// The group that a feature of a component stands for. The component must have a group of that name, and its type must declare one: the classifier there
// names the group type. The same of every model that has these components, packages and E rows, whatever its other tables hold.
#[tactic(auto, using(crate::proofs::Steps::endpoint_steps))]
pub fn endpoint(m: &Tables, component: u32, feature: u32) -> Option<Group>
    ensures value { option_map (expanded (model m.now)) result ≡ the_endpoint (model m.now) component feature }
    ensures others { (o : TheTables) →
        let w : TheTables = with_components (model m.now) o in
        option_map (expanded w) result ≡ the_endpoint w component feature }
{
    if !has_group_feature(m, component, feature) {
        return None;
    }
    let row = component as usize;
    let package = component::package_of(m, row);
    let type_name = component::type_of(m, row);
    let own_type = Reference {
        package,
        type_name,
        implementation: MISSING,
    };
    match resolver::resolve_classifier(m, package, own_type)? {
        Classifier::ComponentType { row, .. } => {
            classifier(m, declared_group(m, row, feature)?, component)
        }
        Classifier::ComponentImpl { .. } | Classifier::GroupType { .. } => None,
    }
}
