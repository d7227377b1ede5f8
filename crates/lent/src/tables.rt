// The tables of a model, as a caller lends them: the bytes of the names, and the rows of each letter as one run of numbers.
#[derive(Clone, Copy)]
pub struct Tables<'a> {
    pub bytes: &'a [u8],
    pub n: &'a [u32],
    pub c: &'a [u32],
    pub f: &'a [u32],
    pub x: &'a [u32],
    pub p: &'a [u32],
    pub i: &'a [u32],
    pub t: &'a [u32],
    pub q: &'a [u32],
    pub u: &'a [u32],
    pub e: &'a [u32],
    pub r: &'a [u32],
    pub m: &'a [u32],
}
