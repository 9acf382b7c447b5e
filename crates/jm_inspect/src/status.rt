ghost use Rattle.std.specs.Prelude.{◌≡◌};
ghost use Rattle.jm_inspect.specs.StatusValue.{value_of};

/// How a run of the program ended.
#[derive(Clone, Copy, Debug, PartialEq, Eq)]
pub enum Status {
    /// The defined output was put.
    Done,
    /// The words make no command.
    Words,
    /// The command refuses what it was asked.
    Refused,
    /// The image has a damage.
    Damaged,
    /// The image, or the name that was asked, isn't there.
    NotThere,
    /// A call of the outside failed.
    Outside,
    /// No memory was found.
    Memory,
    /// A session broke its limits.
    Session,
}

impl Status {
    /// The exit status of the process.
    pub fn value(self) -> u8
        ensures { result ≡ value_of self }
    {
        match self {
            Status::Done => 0,
            Status::Words => 2,
            Status::Refused => 3,
            Status::Damaged => 4,
            Status::NotThere => 5,
            Status::Outside => 6,
            Status::Memory => 7,
            Status::Session => 8,
        }
    }
}
