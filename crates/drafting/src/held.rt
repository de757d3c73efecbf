// A removal where it lies: whether it waits, and where its dots and its keys stand then.
ghost use Rattle.std.specs.Prelude.{◌≡◌, List};
ghost use Rattle.clock.specs.declared.Dot.{Dot};
ghost use Rattle.removals.specs.declared.Removal.{Removal};
ghost use Rattle.removals.specs.Waits.{waits};
ghost use Rattle.map.specs.Model.{seen_by};
ghost use Rattle.maprecords.specs.Related.{read_map};
ghost use Rattle.layout.specs.Whole.{Lies};
ghost use Rattle.queued.specs.Queue.{Keyed, Queued};
ghost use Rattle.drafting.specs.Drafted.{held, RemovalLies};

use clock::Order;
use queued::{QUEUE_STARTS, Queue};
use walks::{Layout, Span};

// Whether a removal waits: the map's clock is less than its own or concurrent with it, by their records where they lie.
pub fn removal_waits(map: &[u8], l: Layout, op: &[u8], dots: usize) -> bool
    requires { Lies map.now (read_map map.now).map l × ((r : Removal) × RemovalLies op.now dots r) }
    ensures { (r : Removal) → RemovalLies op.now dots r → result ≡ waits (seen_by (read_map map.now).map) r }
{
    let seen = l.second * 16;
    let end = (1 + dots) * 16;
    let o = comparing::compare_runs(&map[0..seen], &op[16..end]);
    match o {
        Order::Less => true,
        Order::Concurrent => true,
        Order::Equal => false,
        Order::Greater => false,
    }
}

// Where the dots of a removal stand in its image, where it waits.
pub fn held_queue(op: &[u8], dots: usize, waiting: bool) -> Queue
    requires { (r : Removal) × RemovalLies op.now dots r }
    ensures { (r : Removal) (seen : List Dot) → RemovalLies op.now dots r → waiting ≡ waits seen r
        → Queued op.now result (held seen r) }
{
    if waiting {
        let mut starts: [usize; QUEUE_STARTS] = [1; QUEUE_STARTS];
        starts[1] = 1 + dots;
        return Queue { starts, len: 1 };
    }
    Queue::none()
}

// Where the keys of a removal stand in its image, where it waits.
pub fn held_keys(op: &[u8], dots: usize, waiting: bool) -> Span
    requires { (r : Removal) × RemovalLies op.now dots r }
    ensures { (r : Removal) (seen : List Dot) → RemovalLies op.now dots r → waiting ≡ waits seen r
        → Keyed op.now result.from result.to 0 (held seen r) }
{
    if waiting {
        return Span {
            from: 1 + dots,
            to: op.len() / 16,
        };
    }
    Span { from: 0, to: 0 }
}
