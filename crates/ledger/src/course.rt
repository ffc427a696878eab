//! The course of a month: what each call does to the stage, or why it may not be made at that stage.
ghost use Rattle.std.specs.Prelude.{◌≡◌};
ghost use Rattle.ledger.specs.Judged.{judged};
ghost use Rattle.ledger.specs.Course.{course, moved};
ghost use Rattle.ledger.specs.Form.{month_of};

use crate::state::LAST_MONTH;
use crate::{Phase, Refusal, Stage};

/// The calls of a ledger, as far as the course of a month tells them apart: dismissing and upholding both answer.
#[derive(Clone, Copy)]
pub enum Call {
    Open,
    Register,
    Switch,
    Award,
    Cede,
    CutOff,
    Report,
    Advance,
    Claim,
    Answer,
    Close,
    Line,
}

impl Stage {
    /// The month under way; 1 before the year, and 12 after it.
    pub(crate) fn month(self) -> u32
        ensures { result ≡ month_of self }
    {
        match self {
            Stage::Unopened => 1,
            Stage::Month(month, _) => month,
            Stage::Finished => LAST_MONTH,
        }
    }
}

/// Where the call leads from the stage, or why it does not belong there.
pub(crate) fn turn(stage: Stage, call: Call) -> Result<Stage, Refusal>
    ensures { result ≡ judged (course call stage) (moved call stage) }
{
    match (stage, call) {
        (Stage::Unopened, Call::Open) => Ok(Stage::Month(1, Phase::Trading)),
        (Stage::Unopened, _) => Err(Refusal::NotOpened),
        (_, Call::Open) => Err(Refusal::OpenedTwice),
        (_, Call::Line) => Ok(stage),
        (Stage::Finished, _) => Err(Refusal::YearOver),
        (Stage::Month(_, _), Call::Register) => Ok(stage),
        (Stage::Month(_, Phase::Trading), Call::Switch | Call::Cede) => Ok(stage),
        (Stage::Month(1, Phase::Trading), Call::Award) => Ok(stage),
        (Stage::Month(m, Phase::Trading), Call::CutOff) => Ok(Stage::Month(m, Phase::Metering)),
        (Stage::Month(_, Phase::Metering), Call::Report) => Ok(stage),
        (Stage::Month(m, Phase::Metering), Call::Advance) => Ok(Stage::Month(m, Phase::Claims)),
        (Stage::Month(_, Phase::Claims), Call::Claim | Call::Answer) => Ok(stage),
        (Stage::Month(LAST_MONTH, Phase::Claims), Call::Close) => Ok(Stage::Finished),
        (Stage::Month(m, Phase::Claims), Call::Close) => Ok(Stage::Month(
            m.saturating_add(1),
            Phase::Trading,
        )),
        (Stage::Month(_, _), _) => Err(Refusal::WrongPhase),
    }
}
