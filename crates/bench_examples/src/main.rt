// Prints published vectors of the digests, and document 01's examples, as the library answers them.
#![tactic(auto)]

mod bench;
mod digests_of;
mod print;

use std::io;

fn main(rt: HostRuntime) -> io::Result<()> {
    digests_of::vectors(&rt)?;
    bench::lengths(&rt)?;
    bench::keys(&rt)?;
    bench::rebuild(&rt)?;
    bench::no_slot(&rt)
}
