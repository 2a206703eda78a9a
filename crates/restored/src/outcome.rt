// How a decoder call ended.
ghost use Rattle.std.specs.Prelude.{◌≡◌, ◌↔◌, IsTrue, Err};
ghost use Rattle.restored.specs.Outcome.{sweeps_of};

use inner_code::Refusal;

// More sweeps than a call may allow.
const NEVER: usize = 4097;

// The sweeps after which the block settled; more than a call may allow where the call was refused.
pub fn sweeps(outcome: Result<usize, Refusal>) -> usize
    ensures { result ≡ sweeps_of outcome }
{
    outcome.unwrap_or(NEVER)
}

// The call was refused because the block did not settle within its limit.
pub fn is_unsettled(outcome: Result<usize, Refusal>) -> bool
    ensures { IsTrue result ↔ (outcome ≡ Err Refusal.Unsettled) }
{
    outcome == Err(Refusal::Unsettled)
}
