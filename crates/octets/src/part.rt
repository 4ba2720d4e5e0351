// Parts of a slice: whether one is all zeros, whether two are equal, and filling one.
ghost use Rattle.std.specs.Prelude.{◌≡◌, length, drop};
ghost use Rattle.octets.specs.Parts.{part, zeros, same, laid, put, blank};

// The bytes of s from index a on. By `min`, here and below: `get(a..)` costs each call a few instructions more.
pub fn from(s: &[u8], a: usize) -> &[u8]
    ensures { result.now ≡ drop a s.now }
{
    &s[a.min(s.len())..]
}

// The n bytes of s from index a on, or as many as there are.
pub fn cut(s: &[u8], a: usize, n: usize) -> &[u8]
    ensures { result.now ≡ part s.now a n }
{
    let rest = from(s, a);
    &rest[..n.min(rest.len())]
}

// Without a way out, so that the machine takes many bytes at a time: most slices that are asked are zeros.
// A `for`, since `fold` costs each call an instruction or two more.
pub fn is_zero(s: &[u8]) -> bool
    ensures { result ≡ zeros s.now }
{
    let mut clean = true;
    for x in s {
        clean &= *x == 0;
    }
    clean
}

pub fn same(a: &[u8], b: &[u8]) -> bool
    ensures { result ≡ same a.now b.now }
{
    a == b
}

// Copies s over the front of d, as much of it as there is room for. By place: `copy_from_slice` asks the C library for `memmove`, and the archive is to need
// `memcpy` and `memset` alone.
pub fn copy(d: &mut [u8], s: &[u8])
    ensures { d.new ≡ laid s.now d.old }
{
    for i in 0..s.len().min(d.len()) {
        d[i] = s[i];
    }
}

// Copies xs over s from index a on, as much of it as there is room for.
pub fn put(s: &mut [u8], a: usize, xs: &[u8])
    ensures { s.new ≡ put s.old a xs.now }
{
    if a < s.len() {
        copy(&mut s[a..], xs);
    }
}

#[tactic(auto, unfolding(crate::specs::Parts::blank))]
pub fn clear(s: &mut [u8])
    ensures { s.new ≡ blank (length s.old) }
{
    s.fill(0);
}
