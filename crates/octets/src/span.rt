// A field: where it begins, and how many bytes it has.
ghost use Rattle.std.specs.Prelude.{◌≡◌};
ghost use Rattle.octets.specs.Spans.{field, with_field};

use super::part;

#[derive(Clone, Copy)]
pub struct Span {
    pub place: usize,
    pub width: usize,
}

impl Span {
    // The bytes of the field, or what there is of it.
    pub fn of(self, r: &[u8]) -> &[u8]
        ensures { result.now ≡ field self r.now }
    {
        part::cut(r, self.place, self.width)
    }

    // Writes xs from where the field begins, as much of it as there is room for.
    pub fn put(self, r: &mut [u8], xs: &[u8])
        ensures { r.new ≡ with_field self xs.now r.old }
    {
        part::put(r, self.place, xs);
    }
}
