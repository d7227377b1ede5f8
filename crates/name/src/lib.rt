// Names: name.rs, and `base_name_of` and `parse_connection_pattern` of instance.rs. A name is bytes, and only A to Z fold. Every function takes any bytes and numbers.
// Definitions: specs/Names.antt, Lists.antt and Tables.antt of as5506, and specs/Pattern.antt and Reading.antt.
#![tactic(auto)]

ghost use Rattle.std.specs.Prelude.{◌≡◌, ◌&&◌, ◌-◌, ◌==◌, length, get_or};
ghost use Rattle.std.proofs.lemmas.List.Edits.{sets};
ghost use Rattle.as5506.specs.Lists.{keep, same_bytes, has};
ghost use Rattle.as5506.specs.Tables.{name_in, name_of, present};
ghost use Rattle.as5506.specs.Names.{name_byte, good_name, fold_byte, same_folded, bracket, base_name, pattern_byte, is_one_to_one};
ghost use Rattle.lent.specs.Model.{model};
ghost use Rattle.name.specs.Pattern.{says_one_to_one};
ghost use Rattle.name.specs.Reading.{comparison};

use lent::Tables;

// How the elements of two arrays are connected.
#[derive(Clone, Copy, PartialEq, Eq)]
pub enum ConnectionPattern {
    // Element i to element i.
    OneToOne,
    // Every element to every element.
    AllToAll,
}

// Whether names that differ in the case of letters alone are one name, to tracing and to the first child rule, 02 (vi).
#[derive(Clone, Copy)]
pub enum Reading {
    // They are two, as the original takes them: the ported entry.
    Ported,
    // They are one, as AS5506 takes them: the second entry.
    CaseIgnored,
}

// The byte, a capital letter as a small one.
pub fn fold(b: u8) -> u8
    ensures { result ≡ fold_byte b }
{
    b.to_ascii_lowercase()
}

// The last byte of a name, 0 of none.
fn last_byte(s: &[u8]) -> u8
    ensures { result ≡ get_or s.now (length s.now - 1) 0 }
{
    *s.last().unwrap_or(&0)
}

// Whether two names are equal, byte for byte. Lengths first, then the last byte: names that differ often begin alike.
#[tactic(auto, using(crate::proofs::Compare::by_slices, crate::proofs::Compare::lengths_differ, crate::proofs::Compare::lasts_differ))]
pub fn same_bytes(a: &[u8], b: &[u8]) -> bool
    ensures { result ≡ same_bytes a.now b.now }
{
    a.len() == b.len() && last_byte(a) == last_byte(b) && a == b
}

// Whether two bytes are equal folded. Most that are, are equal as they stand.
fn same_byte(a: u8, b: u8) -> bool
    ensures { result ≡ (fold_byte a == fold_byte b) }
{
    a == b || fold(a) == fold(b)
}

// Whether two names of one length are equal folded: from both ends at once to the middle, since names that differ often begin alike, and often end alike.
fn same_to_the_middle(s: &[u8], t: &[u8]) -> bool
    requires { length s.now ≡ length t.now }
    ensures { result ≡ same_folded s.now t.now }
{
    let len = s.len();
    for i in 0..len - len / 2 {
        let back = len - 1 - i;
        if !same_byte(s[back], t[back]) {
            return false;
        }
        if !same_byte(s[i], t[i]) {
            return false;
        }
    }
    true
}

// Whether two names are equal folded. Lengths first, then the last byte, which tells most names apart; so much stands where it is called.
#[inline(always)]
#[tactic(auto, using(crate::proofs::Compare::folded_lengths_differ, crate::proofs::Compare::folded_lasts_differ))]
pub fn same_folded(s: &[u8], t: &[u8]) -> bool
    ensures { result ≡ same_folded s.now t.now }
{
    s.len() == t.len() && same_byte(last_byte(s), last_byte(t)) && same_to_the_middle(s, t)
}

// Whether a byte may stand in a name: a tab, or 20 to 7E hexadecimal.
fn name_byte(b: u8) -> bool
    ensures { result ≡ name_byte b }
{
    matches!(b, b'\t' | b' '..=b'~')
}

// Whether the bytes are a name: 1 to 63 of them, each one that may stand in a name.
#[tactic(auto, unfolding(as5506::specs::Names::good_name))]
pub fn good_name(s: &[u8]) -> bool
    ensures { result ≡ good_name s.now }
{
    if s.is_empty() {
        return false;
    }
    s.len() <= 63 && s.iter().all(|b| name_byte(*b))
}

// Whether a `[` stands in the name.
pub fn has_bracket(s: &[u8]) -> bool
    ensures { result ≡ has bracket s.now }
{
    s.contains(&b'[')
}

// The name up to the first `[`, a part of the caller's own bytes.
pub fn base_name_of(s: &[u8]) -> &[u8]
    ensures { result.now ≡ base_name s.now }
{
    match s.iter().position(|b| *b == b'[') {
        Some(len) => &s[..len],
        None => s,
    }
}

// Whether a byte of a pattern's text counts: round brackets, commas, spaces and tabs do not.
fn pattern_byte(b: u8) -> bool
    ensures { result ≡ pattern_byte b }
{
    !matches!(b, b'(' | b')' | b',' | b' ' | b'\t')
}

// Writes the bytes of a pattern's text that count into `out`, as much as it holds, and returns how many these are. The count is what is asked for, and not a
// place alone: text is lent, and may have more of them than `out` has places.
fn strip(text: &[u8], out: &mut [u8]) -> usize
    ensures count { result ≡ length (keep pattern_byte text.now) }
    ensures bytes { out.new ≡ sets out.old 0 (keep pattern_byte text.now) }
{
    let mut count: usize = 0;
    for b in text {
        if pattern_byte(*b) {
            lent::put(out, count, *b);
            count += 1;
        }
    }
    count
}

// The pattern that a text names: one to one where its bytes that count are equal folded to "one_to_one", else all to all.
#[tactic(auto, using(crate::proofs::Pattern::pattern_short, crate::proofs::Pattern::pattern_ten))]
pub fn parse_connection_pattern(text: &[u8]) -> ConnectionPattern
    ensures { says_one_to_one result ≡ is_one_to_one text.now }
{
    let mut stripped = [0u8; 10];
    if strip(text, &mut stripped) == 10 && same_folded(&stripped, b"one_to_one") {
        return ConnectionPattern::OneToOne;
    }
    ConnectionPattern::AllToAll
}

// Name k of the bytes and the N rows of a byte table, a part of the caller's own bytes. Past the table, or past the bytes, there is nothing of it.
// In tables that are checked no name is past the bytes, so that is asked first. (Of these two tables and no struct, as the definition's
// `name_in`; `name_of` hands it those of all tables.)
#[tactic(auto, unfolding(as5506::specs::Tables::name_in))]
pub fn name_in<'a>(bytes: &'a [u8], n: &[u32], k: u32) -> &'a [u8]
    ensures { result.now ≡ name_in bytes.now n.now k }
{
    let row = (k as usize) * as5506::N_NUMBERS;
    if n.len() <= row + 1 {
        return &bytes[..0];
    }
    let from = n[row] as usize;
    let len = n[row + 1] as usize;
    if from + len <= bytes.len() {
        return &bytes[from..][..len];
    }
    lent::part(bytes, from, len)
}

// Name k of the tables.
pub fn name_of<'a>(m: &Tables<'a>, k: u32) -> &'a [u8]
    ensures { result.now ≡ name_of (model m.now) k }
{
    name_in(m.bytes, m.n, k)
}

// Whether names j and k are equal, byte for byte. A name is compared with itself at once.
#[tactic(auto, using(crate::proofs::Compare::same_equal))]
pub fn same_names(m: &Tables, j: u32, k: u32) -> bool
    ensures { result ≡ same_bytes (name_of (model m.now) j) (name_of (model m.now) k) }
{
    if j == k {
        return true;
    }
    same_bytes(name_of(m, j), name_of(m, k))
}

// Whether names j and k are equal folded. A name is compared with itself at once.
#[inline(always)]
#[tactic(auto, using(crate::proofs::Compare::folded_equal))]
pub fn same_folded_names(m: &Tables, j: u32, k: u32) -> bool
    ensures { result ≡ same_folded (name_of (model m.now) j) (name_of (model m.now) k) }
{
    if j == k {
        return true;
    }
    same_folded(name_of(m, j), name_of(m, k))
}

// Whether names j and k are one by the reading.
#[tactic(auto, unfolding(crate::specs::Reading::comparison))]
pub fn same_by(m: &Tables, reading: Reading, j: u32, k: u32) -> bool
    ensures { result ≡ comparison reading (name_of (model m.now) j) (name_of (model m.now) k) }
{
    match reading {
        Reading::Ported => same_names(m, j, k),
        Reading::CaseIgnored => same_folded_names(m, j, k),
    }
}

// The pattern that name k is the text of. Missing is all to all.
pub fn pattern_of(m: &Tables, k: u32) -> ConnectionPattern
    ensures { says_one_to_one result ≡ present k && is_one_to_one (name_of (model m.now) k) }
{
    if k == as5506::MISSING {
        return ConnectionPattern::AllToAll;
    }
    parse_connection_pattern(name_of(m, k))
}
