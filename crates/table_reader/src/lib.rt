// The image reader: document 01, "The image reader carries the lent image and its place". It moves on from field to field.
// Few thin calls; the one that moves makes the reader anew. `gather` of table_schedule goes by it.
#![tactic(auto)]

ghost use Rattle.std.specs.Prelude.{◌≡◌, ◌+◌, ◌%◌, ◌^◌};
ghost use Rattle.table_rows.specs.Bytes.{be};

#[derive(Clone, Copy)]
pub struct Reader<'a> {
    pub image: &'a [u8],
    pub place: usize,
}

impl<'a> Reader<'a> {
    pub fn new(image: &'a [u8], place: usize) -> Self
        ensures { (result.image ≡ image.entry) × (result.place ≡ place) }
    {
        Self { image, place }
    }

    // The field of two bytes at the reader's place.
    pub fn word(self) -> u16
        ensures { result ≡ be 2 self.entry.image.now self.entry.place }
    {
        table_rows::two_bytes(self.image, self.place)
    }

    // The reader so many bytes on.
    pub fn moved(self, by: usize) -> Self
        ensures { (result.image ≡ self.entry.image) × (result.place ≡ (self.entry.place + by) % 2 ^ 64) }
    {
        Self {
            place: self.place.wrapping_add(by),
            ..self
        }
    }
}
