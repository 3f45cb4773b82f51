// What the writer answers, and what it writes.

// Done, or refused: for the buffer, for the format or size, or for the picture. By the numbers of SPECIFICATION 15.1.
#[derive(Clone, Copy)]
pub enum Written {
    Done = 0,
    Short = 2,
    Object = 4,
    Picture = 11,
}

// A picture that is not refused, in texels, with the words of its row and the rows of its strips. Its ranges stand in the clause of `object_bytes`, the one function that it is made for.
#[derive(Clone, Copy)]
pub(crate) struct Picture {
    pub width: u64,
    pub height: u64,
    pub fmt: u8,
    pub siz: u8,
    pub pointer: u32,
    pub line: u64,
    pub rows: u64,
}
