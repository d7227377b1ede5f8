// The joined name of a selection.
ghost use Rattle.std.specs.Prelude.{◌≡◌};
ghost use Rattle.as5506.specs.Modes.{mode_name, joined_name};
ghost use Rattle.lent.specs.Model.{model};
ghost use Rattle.lent.specs.Printed.{Printed};
ghost use Rattle.output.specs.Put.{Put};

use lent::Tables;
use output::Output;

// The name of mode `row`.
fn mode_name<'a>(m: &Tables<'a>, row: u32) -> &'a [u8]
    ensures { result.now ≡ mode_name (model m.now) row }
{
    name::name_of(m, columns::mode::name_of(m, row as usize))
}

// Prints the names of modes, joined by underscores.
fn put_names(m: &Tables, rows: &[u32], out: &mut Output)
    ensures { Put (joined_name (model m.now) rows.now) out.old out.new }
{
    let [first, others @ ..] = rows else {
        return;
    };
    out.put(mode_name(m, *first));
    for row in others {
        out.put(b"_");
        out.put(mode_name(m, *row));
    }
}

// Joins the names of modes by underscores, from the front of an output: how many bytes, none where it is too short.
pub fn join_names(m: &Tables, rows: &[u32], name: &mut [u8]) -> Option<usize>
    ensures { Printed (joined_name (model m.now) rows.now) name.old result name.new }
{
    let mut out = Output::new(name);
    put_names(m, rows, &mut out);
    out.done()
}
