// Has the second reader and the product's read the same texts under the same aliases, and compares all that a caller sees:
// what `list` says and leaves on a sheet, to the last slot, and the holes or the refusal of a template. Prints how many texts
// were read and how many differ.
#![tactic(auto)]

mod difference;
mod product;
mod sheets;

use comparing::families::{Family, Kind};
use comparing::run::Run;
use product::Product;
use std::io;

// Any number will do; another gives other random texts, and other counts.
const SEED: u64 = 20_261_117;

static FAMILIES: [Family; 12] = [
    Family::Rooms(3),
    Family::Strings(4),
    Family::Lists(6),
    Family::Quotes(7),
    Family::Holes(5),
    Family::Examples,
    Family::Random(Kind::Scripts),
    Family::Random(Kind::DamagedScripts),
    Family::Random(Kind::SplicedScripts),
    Family::Random(Kind::Edges),
    Family::Random(Kind::Templates),
    Family::Random(Kind::DamagedTemplates),
];

fn main(rt: HostRuntime) -> io::Result<()> {
    let mut run = Run::new(rt.alloc(), SEED, Product::new(rt.alloc()));
    run.read(&rt, &FAMILIES)?;
    run.beside.differences.show(&rt)
}
