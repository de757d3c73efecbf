// The controller's own clock, advanced by one dot: by value.
#![tactic(auto)]

ghost use Rattle.std.specs.Prelude.{◌≡◌, ◌≤◌};
ghost use Rattle.clock.specs.Dots.{dots_of};
ghost use Rattle.refusals.specs.Numbers.{number_told};
ghost use Rattle.advance.specs.Advancing.{rising_dots, lent_number, advanced_in, advanced_of};

use clock::{Clock, Dot};
use limits::DOTS;
use refusals::Refusal;

// The word, whether the dot took effect, and the clock, which is the one given where it did not.
#[derive(Clone, Copy)]
pub struct Advanced {
    pub word: u64,
    pub grew: bool,
    pub clock: Clock,
}

// Whether actors ascend strictly and no counter is zero.
fn rises(clock: Clock) -> bool
    ensures { result ≡ rising_dots 0 (dots_of clock) }
{
    let mut low: u32 = 0;
    for d in clock.as_slice() {
        let actor = d.actor as u32;
        if !((low <= actor) & (0 < d.counter)) {
            return false;
        }
        low = actor + 1;
    }
    true
}

// What is wrong with a clock that was lent.
fn check_lent(clock: Clock) -> Result<(), Refusal>
    ensures { (number_told result ≡ lent_number clock) × (number_told result ≤ 2) }
{
    if DOTS < clock.len {
        return Err(Refusal::OverLimit);
    }
    if rises(clock) {
        Ok(())
    } else {
        Err(Refusal::Malformed)
    }
}

// The same by its number.
pub fn lent_number(clock: Clock) -> u8
    ensures { (result ≡ lent_number clock) × (result ≤ 2) }
{
    match check_lent(clock) {
        Ok(()) => 0,
        Err(refusal) => refusal.number(),
    }
}

// The clock with the dot, or none where the dot takes no effect.
fn grown(clock: Clock, actor: u16, counter: u64) -> Result<Option<Clock>, Refusal>
    ensures { advanced_in clock result ≡ advanced_of clock actor counter }
{
    check_lent(clock)?;
    if counter <= clock.get(actor) {
        return Ok(None);
    }
    let grown = clock.add(Dot { actor, counter });
    if grown.over {
        return Err(Refusal::TooManyDots);
    }
    Ok(Some(grown.clock))
}

pub fn advance(clock: Clock, actor: u16, counter: u64) -> Advanced
    ensures { result ≡ advanced_of clock actor counter }
{
    match grown(clock, actor, counter) {
        Ok(Some(next)) => Advanced {
            word: 0,
            grew: true,
            clock: next,
        },
        Ok(None) => Advanced {
            word: 0,
            grew: false,
            clock,
        },
        Err(refusal) => Advanced {
            word: answers::word(refusal.number()),
            grew: false,
            clock,
        },
    }
}
