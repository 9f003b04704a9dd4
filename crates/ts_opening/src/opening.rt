// What keeps a volume from being opened, as a status.
ghost use Rattle.std.specs.Prelude.{◌≡◌};
ghost use Rattle.ts_opening.specs.Opening.{status_of_opening};

use ts_container::SurveyFault;

/// The status of a volume that isn't opened.
pub fn unopened(fault: &SurveyFault) -> u8
    ensures { result ≡ status_of_opening fault.now }
{
    match fault {
        SurveyFault::Failed => 5,
        SurveyFault::NotAStore { .. } => 6,
        SurveyFault::Memory(_) => 7,
    }
}
