// The command's statuses.
ghost use Rattle.std.specs.Prelude.{◌≤◌};

use crate::say::Printed;

// The later one is the worse: where several are said of a drive, the command has the latest of them.
#[derive(Clone, Copy, PartialEq, Eq, PartialOrd, Ord)]
pub(crate) enum Status {
    Well,
    Refused,
    Usage,
    Failed,
}

impl Status {
    // The status of something that has to be so.
    pub(crate) fn unless(holds: bool, otherwise: Status) -> Status {
        if holds { Status::Well } else { otherwise }
    }

    // The status of what was to be printed.
    pub(crate) fn printed(done: Printed) -> Status {
        Status::unless(done.is_ok(), Status::Failed)
    }
}

impl From<Status> for u32 {
    ghost from_gives = { λ _ n. n ≤ 3 };

    fn from(status: Status) -> u32
        ensures { result ≤ 3 }
    {
        match status {
            Status::Well => 0,
            Status::Refused => 1,
            Status::Usage => 2,
            Status::Failed => 3,
        }
    }
}
