// Which row of the table of refusals a job's state meets. Each of the four says which states pass and what the others earn: as one
// function over the state that passes, the table would be spelled in its arguments.
ghost use Rattle.std.specs.Prelude.{◌≡◌, IfOk};
ghost use Rattle.std.specs.Result.{result_err};
ghost use Rattle.ledger.specs.declared.job.Status.TheVariants.{Waiting};
ghost use Rattle.tables.specs.Rows.{unless_working, unless_waiting, unless_wounded, if_ended};

use ledger::{Refusal, Status};
use operations::Operation;

pub(crate) fn must_work(status: Status) -> Result<(), Refusal>
    ensures refused { result_err result ≡ unless_working status }
{
    match status {
        Status::Working => Ok(()),
        Status::Waiting(_) => Err(Refusal::JobWaiting),
        Status::Wounded => Err(Refusal::JobWounded),
        Status::Ended => Err(Refusal::NoSuchJob),
    }
}

// The operation for which the job waits.
pub(crate) fn must_wait(status: Status) -> Result<Operation, Refusal>
    ensures refused { result_err result ≡ unless_waiting status }
    ensures made { IfOk result (λ o. status ≡ Waiting o) }
{
    match status {
        Status::Waiting(operation) => Ok(operation),
        Status::Working => Err(Refusal::JobNotWaiting),
        Status::Wounded => Err(Refusal::JobWounded),
        Status::Ended => Err(Refusal::NoSuchJob),
    }
}

pub(crate) fn must_be_wounded(status: Status) -> Result<(), Refusal>
    ensures refused { result_err result ≡ unless_wounded status }
{
    match status {
        Status::Wounded => Ok(()),
        Status::Working | Status::Waiting(_) => Err(Refusal::JobNotWounded),
        Status::Ended => Err(Refusal::NoSuchJob),
    }
}

pub(crate) fn must_not_have_ended(status: Status) -> Result<(), Refusal>
    ensures refused { result_err result ≡ if_ended status }
{
    match status {
        Status::Working | Status::Waiting(_) | Status::Wounded => Ok(()),
        Status::Ended => Err(Refusal::NoSuchJob),
    }
}
