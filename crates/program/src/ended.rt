//! How a run ends.

ghost use Rattle.std.specs.Prelude.{◌≡◌, None};

use hms_io::Status;
use refusals::Refusal;

/// How a run ends.
#[derive(Drop)]
pub struct Ended {
    /// The status to exit with.
    pub status: Status,
    /// Why the run is refused, where the line that says so was written.
    pub refusal: Option<Refusal>,
}

impl Ended {
    /// The end of this status at which no refusal was written.
    pub(crate) fn of_status(status: Status) -> Ended
        ensures { result ≡ record { status = status; refusal = None } }
    {
        Ended {
            status,
            refusal: None,
        }
    }
}
