// The kinds of records by name (docs/FORMAT.md, "The sheet").
ghost use Rattle.layout.specs.Kinds.{Names};

#[derive(Clone, Copy, PartialEq, Eq)]
pub enum Kind {
    Sort,
    Symbol,
    Term,
    Same,
    Differ,
    Total,
    Fill,
}

// A number that is none of a kind.
#[derive(Clone, Copy, PartialEq, Eq)]
pub struct NoKind(pub usize);

impl TryFrom<usize> for Kind {
    type Error = NoKind;

    ghost try_from_gives = { Names };

    fn try_from(number: usize) -> Result<Self, NoKind> {
        match number {
            1 => Ok(Kind::Sort),
            2 => Ok(Kind::Symbol),
            3 => Ok(Kind::Term),
            4 => Ok(Kind::Same),
            5 => Ok(Kind::Differ),
            6 => Ok(Kind::Total),
            7 => Ok(Kind::Fill),
            _ => Err(NoKind(number)),
        }
    }
}
