// A diagnostic: its numbers, the Rust's message and its path names.
ghost use Rattle.std.specs.Prelude.{◌≡◌, ◌++◌, ltb, get_or};
ghost use Rattle.as5506.specs.Lists.{each, bytes_of};
ghost use Rattle.as5506.specs.Layout.{diag_back};
ghost use Rattle.as5506.specs.Tables.{name_of, x_name};
ghost use Rattle.as5506.specs.Text.{digits, text_line, message, path_names};
ghost use Rattle.lent.specs.Model.{model};
ghost use Rattle.output.specs.Put.{Put};
ghost use Rattle.text.specs.Printing.{diagnostic_text};

use super::lines;
use as5506::DIAGNOSTIC_NUMBERS;
use columns::{component, connection};
use lent::Tables;
use output::Output;

// Prints that two array sizes differ.
fn put_sizes(a: u32, b: u32, out: &mut Output)
    ensures { Put (bytes_of "One_To_One pattern requires equal array sizes (source=" ++ digits a ++ bytes_of ", destination=" ++ digits b ++ bytes_of ")")
        out.old out.new }
{
    out.put(b"One_To_One pattern requires equal array sizes (source=");
    decimal::put_decimal(a as usize, b"", out);
    out.put(b", destination=");
    decimal::put_decimal(b as usize, b"", out);
    out.put(b")");
}

// Prints the message of a diagnostic, by its code: `conn` is its connection's name, a and b its two numbers.
#[tactic(auto, using(crate::proofs::Pieces::message_steps))]
fn put_message(m: &Tables, conn: &[u8], code: u32, a: u32, b: u32, out: &mut Output)
    ensures { Put (message (model m.now) conn.now code a b) out.old out.new }
{
    if code == 0 {
        return;
    }
    let name = name::name_of(m, a);
    if 4 < code {
        lines::put_between(
            b"feature group connection '",
            conn,
            b"': source feature '",
            out,
        );
        lines::put_between(
            b"",
            name,
            b"' has no matching destination feature (STPA-REQ-011)",
            out,
        );
        return;
    }
    lines::put_between(b"connection '", conn, b"': ", out);
    match code {
        1 => out.put(b"missing endpoint"),
        2 => lines::put_between(b"unresolved source subcomponent '", name, b"'", out),
        3 => lines::put_between(b"unresolved destination subcomponent '", name, b"'", out),
        _ => put_sizes(a, b, out),
    }
}

// The name of connection i.
fn connection_name<'a>(m: &Tables<'a>, i: u32) -> &'a [u8]
    ensures { result.now ≡ name_of (model m.now) (x_name (model m.now) i) }
{
    name::name_of(m, connection::name_of(m, i as usize))
}

// Prints the path names of a diagnostic, whose block has its code at 0, its connection at 1 and the feature's name at 2: of code 5 the connection's and the
// feature's, else the owner's and the connection's.
#[tactic(auto, using(crate::proofs::Pieces::names_steps))]
fn put_path_names(m: &Tables, block: &[u32; DIAGNOSTIC_NUMBERS], out: &mut Output)
    ensures { Put (each (text_line (bytes_of "@")) (path_names (model m.now) (diag_back block.now) (ltb (get_or block.now 0 0) 5)))
        out.old out.new }
{
    let name = connection_name(m, block[1]);
    if block[0] < 5 {
        let owner = connection::owner_of(m, block[1] as usize);
        let above = name::name_of(m, component::name_of(m, owner as usize));
        lines::put_between(b"@ ", above, b"\n", out);
        lines::put_between(b"@ ", name, b"\n", out);
        return;
    }
    let feature = name::name_of(m, block[2]);
    lines::put_between(b"@ ", name, b"\n", out);
    lines::put_between(b"@ ", feature, b"\n", out);
}

// Prints a diagnostic from its block of numbers: its code, its connection and the two numbers of its message.
#[tactic(auto, using(crate::proofs::Pieces::diag_put))]
pub fn put_diagnostic(m: &Tables, block: &[u32; DIAGNOSTIC_NUMBERS], out: &mut Output)
    ensures { Put (diagnostic_text (model m.now) block.now) out.old out.new }
{
    out.put(b"D");
    decimal::put_columns(block, out);
    out.put(b"\n! ");
    put_message(
        m,
        connection_name(m, block[1]),
        block[0],
        block[2],
        block[3],
        out,
    );
    out.put(b"\n");
    put_path_names(m, block, out);
}
