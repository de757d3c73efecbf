// Prints a map image from standard input. Its stored run is the map M of document 01, section "Twelve settled examples".
#![tactic(auto)]

use std::io;

fn main(rt: HostRuntime) -> io::Result<()> {
    dump::print_from(&rt, &mut rt.stdin())
}
