// The object's bytes: a big-endian read on slice and offset, and the reader that holds the caller's slice, thin over it.
ghost use Rattle.std.specs.Prelude.{◌≡◌, ◌<◌};
ghost use Rattle.object.specs.Layout.{Held, ReadIs};

#[derive(Clone, Copy)]
pub struct Reader<'a> {
    pub src: &'a [u8],
    pub at: usize,
}

// The number in `n` bytes from a place: a field's width is data of the field table, so the bytes are a slice and no array, and `Held` says that they are there.
fn big_endian(s: &[u8], at: usize, n: usize) -> u64
    requires { Held s.now at n }
    ensures { ReadIs s.now at n result }
{
    let mut number = 0;
    for byte in &s[at..at + n] {
        number = number * 256 + u64::from(*byte);
    }
    number
}

impl<'a> Reader<'a> {
    pub fn new(src: &'a [u8]) -> Reader<'a>
        ensures { (result.src ≡ src.entry) × (result.at ≡ 0) }
    {
        Reader { src, at: 0 }
    }

    pub fn moved(self, at: usize) -> Reader<'a>
        ensures { (result.src ≡ self.entry.src) × (result.at ≡ at) }
    {
        Reader { src: self.src, at }
    }

    // The number in the next `n` bytes.
    pub fn read(self, n: usize) -> u64
        requires { Held self.src.now self.at n }
        ensures { ReadIs self.entry.src.now self.entry.at n result }
    {
        big_endian(self.src, self.at, n)
    }
}

// A field, by its place and its width: the fields stand at fixed places, so a caller names the place and keeps no reader.
pub fn field_from(s: &[u8], at: usize, n: usize) -> u64
    requires { Held s.now at n }
    ensures { ReadIs s.now at n result }
{
    Reader::new(s).moved(at).read(n)
}
