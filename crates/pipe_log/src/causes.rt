// The causes of refusals, by the names of the rules (`specs/Causes.antt` of `rules`), and what a refused call returns.
ghost use Rattle.std.specs.Prelude.{None, ◌≡◌};
ghost use Rattle.pipe_log.specs.Causes.{number_of};

// What a refusal is for, in the order of the numbers.
#[derive(Clone, Copy, Debug, PartialEq, Eq)]
pub enum Cause {
    WrongKind,
    TooLong,
    Incomplete,
    OutOfRange,
    WrongQueue,
    NotRewritable,
    BadMark,
    FilesGoBack,
    GroupAbsent,
    BadRange,
    EntryCompacted,
    EntryNotFound,
    BelowFirst,
    AboveLast,
    AppendLeft,
    AlreadyRewritten,
    KeyGoesBack,
    LimitPassed,
    ListTooShort,
}

impl Cause {
    // The number of a cause, from 1 on.
    pub fn number(self) -> u64
        ensures { result ≡ number_of self }
    {
        match self {
            Cause::WrongKind => 1,
            Cause::TooLong => 2,
            Cause::Incomplete => 3,
            Cause::OutOfRange => 4,
            Cause::WrongQueue => 5,
            Cause::NotRewritable => 6,
            Cause::BadMark => 7,
            Cause::FilesGoBack => 8,
            Cause::GroupAbsent => 9,
            Cause::BadRange => 10,
            Cause::EntryCompacted => 11,
            Cause::EntryNotFound => 12,
            Cause::BelowFirst => 13,
            Cause::AboveLast => 14,
            Cause::AppendLeft => 15,
            Cause::AlreadyRewritten => 16,
            Cause::KeyGoesBack => 17,
            Cause::LimitPassed => 18,
            Cause::ListTooShort => 19,
        }
    }
}

// What a refused call returns: the cause, and the position of the item that met it, where the cause has one.
#[derive(Clone, Copy, Debug, PartialEq, Eq)]
pub struct Refusal {
    pub cause: Cause,
    pub place: Option<usize>,
}

impl From<Cause> for Refusal {
    ghost from_gives = { λ c r. r ≡ (record { cause = c; place = None }) };

    fn from(cause: Cause) -> Refusal {
        Refusal { cause, place: None }
    }
}
