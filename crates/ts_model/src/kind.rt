ghost use Rattle.std.specs.Prelude.{◌≡◌};
ghost use Rattle.ts_model.specs.Definitions.{limit};

/// A kind of object, each with names of its own.
#[derive(Clone, Copy, Debug, PartialEq, Eq)]
pub enum Kind {
    RowType,
    Pattern,
    Calendar,
    Container,
    Series,
}

impl Kind {
    /// How many slots there are, and so the most objects of the kind.
    pub fn limit(self) -> u16
        ensures { result ≡ limit self }
    {
        match self {
            Kind::RowType | Kind::Container => 64,
            Kind::Pattern | Kind::Calendar => 256,
            Kind::Series => 4096,
        }
    }
}
