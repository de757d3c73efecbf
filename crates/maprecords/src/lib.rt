// What the length of a map's image alone is answered with.
#![tactic(auto)]

ghost use Rattle.std.specs.Prelude.{◌≡◌};
ghost use Rattle.maprecords.specs.Related.{length_number};
ghost use Rattle.refusals.specs.Numbers.{number_told};

use refusals::Refusal;

pub fn check_length(len: usize) -> Result<(), Refusal>
    ensures { number_told result ≡ length_number len }
{
    if mapimage::MAP_LONGEST < len {
        return Err(Refusal::OverLimit);
    }
    if len % 16 != 0 {
        return Err(Refusal::Malformed);
    }
    Ok(())
}
