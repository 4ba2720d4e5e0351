// What decide and pending write into the output.
ghost use Rattle.std.specs.Prelude.{◌≡◌};
ghost use Rattle.desk.specs.Decide.{handed_out};

use ledger::record::redirect_field;
use octets::part::put;

// Copies the record's redirect, with the zeros behind it, to the front of the output.
pub fn hand_out(out: &mut [u8], r: &[u8])
    ensures { out.new ≡ handed_out r.now out.old }
{
    put(out, 0, redirect_field(r));
}
