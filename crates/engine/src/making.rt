//! What making fixes.

ghost use Rattle.std.specs.Prelude.{◌≡◌};
ghost use Rattle.model.specs.Make.{refusal_of, config_of};
ghost use Rattle.engine.specs.Made.{unless};

use bus::sample_rate;
use node::refusal::Refusal;
use store::config::{Config, Making};

/// What a making fixes: a whole sample rate from 8,000 to 192,000 Hz, else 1; a block of 1 to 128 samples, else 2; a
/// budget of at most 64, if there is one, else 3; and the fade table at 48,000 Hz alone, else 20.
pub(crate) fn config_of(making: Making) -> Result<Config, Refusal>
    ensures { result ≡ unless (refusal_of making) (config_of making) }
{
    let rate = sample_rate(making.rate).or(Err(Refusal::SampleRate))?;
    if !(1..=128).contains(&making.block) {
        return Err(Refusal::BlockSize);
    }
    if making.budget.is_some_and(|most| 64 < most) {
        return Err(Refusal::BudgetTooLarge);
    }
    if making.table && rate != 48000 {
        return Err(Refusal::TableRate);
    }
    Ok(Config {
        rate,
        block: making.block,
        budget: making.budget,
        policy: making.policy,
        scope: making.scope,
        table: making.table,
    })
}
