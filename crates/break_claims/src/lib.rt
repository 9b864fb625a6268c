// What is claimed of asking for yes or no alone, in the contract of a function that calls it.
#![tactic(auto)]

ghost use Rattle.std.specs.Prelude.{◌≡◌};
ghost use Rattle.base.specs.Just.{Just};
ghost use Rattle.break_claims.specs.Breaks.{BreaksAs};

use log_check::JudgeRefusal;
use model::Chart;

// Only yes or no: every chart value and byte string.
pub fn breaks_log(chart: Chart, log: &[u8]) -> Result<bool, JudgeRefusal>
    ensures demand { Just (BreaksAs chart log.now) result }
    ensures unchanged { log.exit.now ≡ log.entry.now }
{
    breaks::breaks(chart, log)
}
