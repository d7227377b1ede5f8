// Reading from and writing into what is lent, numbers or bytes.
ghost use Rattle.std.specs.Prelude.{◌≡◌, length, get_or, take, drop, set};
ghost use Rattle.std.proofs.lemmas.List.Edits.{sets};
ghost use Rattle.lent.specs.Append.{filled, append};

// The value at place i, `none` past the end.
pub fn get_or<T: Copy>(s: &[T], i: usize, none: T) -> T
    ensures { result ≡ get_or s.now i none }
{
    if i < s.len() { s[i] } else { none }
}

// The len values from place `from` on, as many of them as there are: a part of the caller's own slice.
pub fn part<T>(s: &[T], from: usize, len: usize) -> &[T]
    ensures { result.now ≡ take len (drop from s.now) }
{
    if s.len() <= from {
        return &s[..0];
    }
    let rest = &s[from..];
    if len < rest.len() { &rest[..len] } else { rest }
}

// Writes the value v at place `at`.
pub fn put<T: Copy>(out: &mut [T], at: usize, v: T)
    ensures { out.new ≡ set out.old at v }
{
    if at < out.len() {
        out[at] = v;
    }
}

// Writes a block of values from place `at` on, as much of it as there is room for. At place 0 this is a copy of the block.
pub fn put_all<T: Copy>(out: &mut [T], at: usize, block: &[T])
    ensures { out.new ≡ sets out.old at block.now }
{
    if at < out.len() {
        for k in 0..block.len().min(out.len() - at) {
            out[at + k] = block[k];
        }
    }
}

// Writes a piece behind the first `used` values, if there is room for the whole of it: how many are used then, none where a piece found no room.
#[tactic(auto, unfolding(crate::specs::Append::append_behind), using(crate::proofs::Pieces::append_fits, crate::proofs::Pieces::append_full))]
pub fn append<T: Copy>(out: &mut [T], used: Option<usize>, piece: &[T]) -> Option<usize>
    ensures { filled out.new result ≡ append piece.now (filled out.old used) }
{
    let at = used?;
    if out.len() < at || out.len() - at < piece.len() {
        return None;
    }
    put_all(out, at, piece);
    Some(at + piece.len())
}
