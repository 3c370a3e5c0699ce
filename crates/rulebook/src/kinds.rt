// The kinds of a key, and the numbers by which books tell them.
ghost use Rattle.rulebook.specs.Kinds.{IsKindNumber, ReadsKind};

// By what words a key is matched.
#[derive(Clone, Copy, Debug, PartialEq, Eq, Hash)]
pub enum KeyKind {
    // its spelling in full
    Full,
    // every figure
    Figure,
    // its spelling, or enough first letters of it
    Shortened,
}

// A number that stands for no kind.
#[derive(Clone, Copy, Debug, PartialEq, Eq, Hash)]
pub struct UnknownKind(pub u16);

impl From<KeyKind> for u16 {
    ghost from_gives = { IsKindNumber };

    fn from(kind: KeyKind) -> u16 {
        match kind {
            KeyKind::Full => 0,
            KeyKind::Figure => 1,
            KeyKind::Shortened => 2,
        }
    }
}

impl TryFrom<u16> for KeyKind {
    type Error = UnknownKind;

    ghost try_from_gives = { ReadsKind };

    fn try_from(number: u16) -> Result<KeyKind, UnknownKind> {
        match number {
            0 => Ok(KeyKind::Full),
            1 => Ok(KeyKind::Figure),
            2 => Ok(KeyKind::Shortened),
            _ => Err(UnknownKind(number)),
        }
    }
}
