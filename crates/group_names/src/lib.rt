// The names of group rows (instance.rs, `make_expanded_name`): each match in the output of rows becomes its row, and its three names go, unseparated,
// into the output of composed names.
#![tactic(auto)]

ghost use Rattle.std.specs.Prelude.{◌≡◌, [], ◌∷◌, ◌++◌, ◌/◌, ◌≤◌, length};
ghost use Rattle.as5506.specs.Tables.{name_of};
ghost use Rattle.as5506.specs.GroupList.{connection_kind};
ghost use Rattle.as5506.specs.Layout.{row_numbers};
ghost use Rattle.lent.specs.Append.{append, append_all};
ghost use Rattle.lent.specs.Model.{model};
ghost use Rattle.output.specs.Put.{output_of};
ghost use Rattle.group_names.specs.Pairs.{ShortNames};
ghost use Rattle.group_names.specs.Pieces.{length_by, dot_pieces, joined_pieces, feature_names, pair_pieces, prefix_length, feature_back, pair_back, block_with, pairs_back};
ghost use Rattle.group_names.specs.Compose.{row_by, Composed};

use as5506::{PREFIX_PLACES, ROW_NUMBERS};
use columns::{Side, connection};
use lent::{Tables, get_or};
use output::Output;
use sink::{KIND, PARTNER, PREFIX, PREFIX_LENGTH, SOURCE};

// `feature_kind_to_connection_kind`, both kinds in the order of the Rust's: numbers, as the tables and the rows hold them.
#[tactic(auto, unfolding(as5506::specs::GroupList::connection_kind))]
fn connection_kind(kind: u32) -> u32
    ensures { result ≡ connection_kind kind }
{
    let kinds = [0u32, 0, 0, 4, 1, 1, 1, 1, 2, 3];
    get_or(&kinds, kind as usize, 0)
}

// How many names the prefix has of the feature whose block these numbers begin with: at most as many as it has places.
fn prefix_length(block: &[u32]) -> usize
    ensures { result ≡ prefix_length block.now }
{
    let len = get_or(block, PREFIX_LENGTH, 0) as usize;
    PREFIX_PLACES.min(len)
}

// Writes the row in place of its match, given the lengths of its names.
#[tactic(auto, using(crate::proofs::Blocks::row_put))]
fn put_row(row: &mut [u32], own: u32, source: u32, partner: u32)
    requires { length row.old ≡ row_numbers }
    ensures { row.new ≡ block_with (pair_back row.old) own source partner }
{
    let connection = get_or(row, 0, 0);
    let head = [
        connection,
        connection_kind(get_or(row, SOURCE + KIND, 0)),
        get_or(row, 1, 0),
        get_or(row, 2, 0),
        own,
        source,
        partner,
        1,
        connection,
    ];
    let mut block = [0u32; ROW_NUMBERS];
    lent::put_all(&mut block, 0, &head);
    row.copy_from_slice(&block);
}

// Appends name k.
fn put(m: &Tables, k: u32, out: &mut Output)
    ensures put { output_of out.new ≡ append (name_of (model m.now) k) (output_of out.old) }
    ensures same { out.new.bytes.ghost_name ≡ out.old.bytes.ghost_name }
{
    out.put(name::name_of(m, k));
}

// Appends a dot and name k.
fn put_dotted(m: &Tables, k: u32, out: &mut Output)
    ensures put { output_of out.new ≡ append_all (dot_pieces (model m.now) k) (output_of out.old) }
    ensures same { out.new.bytes.ghost_name ≡ out.old.bytes.ghost_name }
{
    out.put(b".");
    put(m, k, out);
}

// Appends names joined by dots: how long they are together, none where one found no room. (That names are short is asked by each function that tells a
// length, up to the public one: a struct of the tables for it would be taken apart at each call.)
#[tactic(auto, using(crate::proofs::Joining::past_is, crate::proofs::Joining::told_none))]
fn put_joined(m: &Tables, first: u32, middle: &[u32], last: u32, out: &mut Output) -> Option<u32>
    requires { ShortNames (model m.now) × (length middle.now ≤ 10) }
    ensures put { output_of out.new ≡ append_all (joined_pieces (model m.now) first (middle.now ++ (last ∷ []))) (output_of out.old) }
    ensures told { result ≡ length_by out.new.used (joined_pieces (model m.now) first (middle.now ++ (last ∷ []))) }
    ensures same { out.new.bytes.ghost_name ≡ out.old.bytes.ghost_name }
{
    let start = out.used()?;
    put(m, first, out);
    for &k in middle {
        put_dotted(m, k, out);
    }
    put_dotted(m, last, out);
    let end = out.used()?;
    Some((end - start) as u32)
}

// Appends "group.prefix.feature" of the feature whose block these numbers begin with: how long that is, none where it found no room.
#[tactic(auto, unfolding(crate::specs::Pieces::feature_back))]
fn put_feature(m: &Tables, group: u32, block: &[u32], out: &mut Output) -> Option<u32>
    requires { ShortNames (model m.now) }
    ensures put { output_of out.new ≡ append_all (joined_pieces (model m.now) group (feature_names (feature_back block.now))) (output_of out.old) }
    ensures told { result ≡ length_by out.new.used (joined_pieces (model m.now) group (feature_names (feature_back block.now))) }
    ensures same { out.new.bytes.ghost_name ≡ out.old.bytes.ghost_name }
{
    let prefix = lent::part(block, PREFIX, prefix_length(block));
    put_joined(m, group, prefix, get_or(block, 0, 0), out)
}

// Appends the names of a match, and turns it into its row if they find room: how much of the output is used then, none where it is full.
#[tactic(auto, unfolding(crate::specs::Compose::row_by), using(crate::proofs::Joining::full_told))]
fn put_match(m: &Tables, row: &mut [u32], out: &mut Output) -> Option<usize>
    requires { ShortNames (model m.now) × (length row.old ≡ row_numbers) }
    ensures put { output_of out.new ≡ append_all (pair_pieces (model m.now) (pair_back row.old)) (output_of out.old) }
    ensures used { result ≡ out.new.used }
    ensures row_after { row.new ≡ row_by result (model m.now) row.old }
    ensures same { out.new.bytes.ghost_name ≡ out.old.bytes.ghost_name }
{
    let i = get_or(row, 0, 0) as usize;
    let name = connection::name_of(m, i);
    let feature = get_or(row, SOURCE, 0);
    let own = put_joined(m, name, &[], feature, out)?;
    let group = connection::feature_of(m, Side::Source, i);
    let source = put_feature(m, group, &row[SOURCE..], out)?;
    let group = connection::feature_of(m, Side::Destination, i);
    let partner = put_feature(m, group, &row[PARTNER..], out)?;
    put_row(row, own, source, partner);
    out.used()
}

// Turns matches into their rows, as long as their names find room: how many bytes these take, none where not all do.
pub fn compose_names(m: &Tables, rows: &mut [u32], names: &mut [u8]) -> Option<usize>
    requires { ShortNames (model m.now) }
    ensures { Composed (model m.now) (pairs_back (length rows.old / row_numbers) rows.old) rows.old names.old result rows.new names.new }
{
    let mut out = Output::new(names);
    for i in 0..rows.len() / ROW_NUMBERS {
        let place = i * ROW_NUMBERS;
        if put_match(m, &mut rows[place..place + ROW_NUMBERS], &mut out).is_none() {
            break;
        }
    }
    out.done()
}
