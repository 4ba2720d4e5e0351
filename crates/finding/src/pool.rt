// Check 7: whether a value may enter the pool. Each record is looked at.
ghost use Rattle.std.specs.Prelude.{◌≡◌};
ghost use Rattle.octets.specs.Lists.{some};
ghost use Rattle.ledger.specs.Fields.{records};
ghost use Rattle.ledger.specs.Sound.{holds};
ghost use Rattle.ledger.specs.Checks.{check_value};

use ledger::pool::{Value, holds};
use ledger::record::records;
use octets::part::is_zero;

fn has(l: &[u8], v: &[u8]) -> bool
    ensures { result ≡ some (holds v.now) (records l.now) }
{
    records(l).iter().any(|r| holds(v, r))
}

#[tactic(auto, unfolding(ledger::specs::Checks::check_value, ledger::specs::Checks::taken))]
pub fn check(l: &[u8], v: &[u8; 32]) -> Value
    ensures { result ≡ check_value l.now v.now }
{
    if is_zero(v) || has(l, v) {
        Value::Taken
    } else {
        Value::New
    }
}
