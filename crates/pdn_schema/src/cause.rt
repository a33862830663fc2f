//! Why a line can't stand.

ghost use Rattle.std.specs.Prelude.{◌≡◌};
ghost use Rattle.pdn_schema.specs.Causes.{cause_number};

/// What is wrong with a line of a schema file.
#[derive(Clone, Copy, Debug, PartialEq, Eq)]
pub enum Cause {
    /// None of the forms, or a name or number in it is none.
    NoForm,
    /// The form can't stand here.
    OutOfPlace,
    /// The version isn't 1.
    Version,
    /// Floor or calls out of bounds.
    Count,
    /// Rows out of bounds.
    Rows,
    /// Rows of one value out of bounds.
    Per,
    /// The name was there before.
    NameAgain,
    /// A ninth caller, table or column.
    TooMany,
    /// The table before has no column, or there is no table.
    Empty,
}

impl Cause {
    /// The number by which refusals name it.
    pub fn number(self) -> u8
        ensures { result ≡ cause_number self }
    {
        match self {
            Cause::NoForm => 1,
            Cause::OutOfPlace => 2,
            Cause::Version => 3,
            Cause::Count => 4,
            Cause::Rows => 5,
            Cause::Per => 6,
            Cause::NameAgain => 7,
            Cause::TooMany => 8,
            Cause::Empty => 9,
        }
    }
}
