// Pieces of programme text, borrowed from it.
ghost use Rattle.std.specs.Prelude.{◌≡◌};
ghost use Rattle.wording.specs.Pieces.{bytes_of};

// A word of a text, or its end.
#[derive(Clone, Copy, Debug, PartialEq, Eq)]
pub enum Piece<'t> {
    Name(&'t [u8]),
    // with its value
    Figure(&'t [u8], u16),
    // no word is left; a piece and no missing one, since it is asked and matched as the others are
    End,
}

// A piece with the place of its first byte, counted from 0.
#[derive(Clone, Copy, Debug, PartialEq, Eq)]
pub struct Placed<'t> {
    pub piece: Piece<'t>,
    pub place: usize,
}

impl<'t> Piece<'t> {
    // The very bytes that the piece came from.
    pub fn bytes(&self) -> &'t [u8]
        ensures { result.now ≡ bytes_of self.now }
    {
        match self {
            Piece::Name(bytes) => bytes,
            Piece::Figure(bytes, _) => bytes,
            Piece::End => &[],
        }
    }
}
