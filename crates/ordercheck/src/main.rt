// Makes pseudo-random calls on orders, and beside them on a second book, written with maps, that makes every check
// itself; and prints how many calls were accepted and refused, and how often the two differ.
#![tactic(auto)]

mod book;
mod comparison;
mod desk;
mod difference;
mod draw;
mod layout;
mod names;
mod request;
mod spelling;
mod tally;

use comparison::Comparison;
use quoting::backslash::Backslash;
use quoting::single::Single;
use std::io;

// Any number will do; another gives other calls, and other counts.
const SEED: u64 = 20_261_204;

// How many orders each quoter has.
const ORDERS: usize = 250;

fn main(rt: HostRuntime) -> io::Result<()> {
    let mut comparison = Comparison::new(rt.alloc(), SEED);
    for _ in 0..ORDERS {
        comparison.try_order(Single)?;
        comparison.try_order(Backslash)?;
    }
    comparison.tally.show(&rt)?;
    comparison.differences.show(&rt)
}
