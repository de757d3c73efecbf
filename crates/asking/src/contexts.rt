// Contexts, as values: the Rust's ctx.rs, with `read_ctx` and the context that `get` gives.
ghost use Rattle.std.specs.Prelude.{◌≡◌};
ghost use Rattle.clock.specs.Dots.{dots_of};
ghost use Rattle.entries.specs.Entries.{entry_at};
ghost use Rattle.map.specs.Model.{entries_in};
ghost use Rattle.asking.specs.Asking.{update_under};
ghost use Rattle.asking.specs.Contexts.{add_context, no_add};

use crate::{AddCtx, Made, ReadCtx};
use clock::{Clock, Dot};
use entries::Update;
use map::{Map, Op};
use register::{Content, Value};
use removals::Removal;

// The map clock, to add and to remove under.
pub fn read_ctx(map: Map) -> ReadCtx
    ensures { result ≡ record { add_clock = map.clock; rm_clock = map.clock } }
{
    let clock = map.clock;
    ReadCtx {
        add_clock: clock,
        rm_clock: clock,
    }
}

// The map clock to add under, and the clock of a key's entry, empty if absent, to remove under.
pub fn get_ctx(map: Map, key: u32) -> ReadCtx
    ensures { result ≡ record { add_clock = map.clock; rm_clock = (entry_at key (entries_in map)).clock } }
{
    let clock = map.clock;
    let e = map.entries.at(key);
    let held = e.clock;
    ReadCtx {
        add_clock: clock,
        rm_clock: held,
    }
}

impl ReadCtx {
    pub fn derive_rm_ctx(self) -> Clock
        ensures { result ≡ self.rm_clock }
    {
        self.rm_clock
    }

    pub fn derive_add_ctx(self, actor: u16) -> AddCtx
        ensures { result ≡ add_context (dots_of self.add_clock) actor }
    {
        let c = self.add_clock.get(actor);
        if 0xffff_ffff_ffff_ffff <= c {
            return AddCtx::refused(9);
        }
        let dot = Dot {
            actor,
            counter: c + 1,
        };
        let grown = self.add_clock.add(dot);
        if grown.over {
            return AddCtx::refused(4);
        }
        let clock = grown.clock;
        AddCtx {
            number: 0,
            clock,
            dot,
        }
    }
}

impl AddCtx {
    // An update of a key under this context: the Rust's `update`.
    pub fn update(self, key: u32, value: Content) -> Made
        ensures { result ≡ update_under self key value }
    {
        let number = self.number;
        if number != 0 {
            return Made::refused(number);
        }
        let clock = self.clock;
        let dot = self.dot;
        let put = Value { clock, value };
        let update = Update { dot, key, put };
        let removal = Removal::new();
        Made {
            number: 0,
            op: Op {
                up: true,
                removal,
                update,
            },
        }
    }

    fn refused(number: u8) -> AddCtx
        ensures { result ≡ no_add number }
    {
        let clock = Clock::new();
        let dot = Dot {
            actor: 0,
            counter: 0,
        };
        AddCtx { number, clock, dot }
    }
}
