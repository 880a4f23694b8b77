//! Makes and combines diagrams of pairs of codes, so that they can be timed. It is no part of the product.
#![tactic(auto)]

mod codes;
mod sets;
mod work;

ghost use Rattle.std.specs.Prelude.{◌≡◌, ◌<◌};

use mon_base::Steps;
use std::marker::Brand;
use std::sync::ledger::{Blank, Ledger};
use std::{env, io};
use work::{Done, Work, run};

/// The codes below 1024 in both halves of a pair.
const DENSE: u32 = 0x03FF_03FF;

/// The work that the words after the program's name tell: rounds, window, every, and 1 for dense codes. A number that
/// isn't there or can't be read is 0.
fn work_of(rt: HostRuntime) -> Work {
    let mut numbers = [0u32; 4];
    if let Ok(args) = env::args(&rt) {
        for (number, word) in numbers.iter_mut().zip(args.skip(1)) {
            *number = word.as_str().parse().unwrap_or(0);
        }
    }
    Work {
        rounds: numbers[0],
        window: numbers[1],
        every: numbers[2],
        mask: if numbers[3] == 1 { DENSE } else { u32::MAX },
    }
}

/// The work, with its steps counted in this ledger.
fn run_in<L: Ledger>(rt: HostRuntime, work: Work, blank: Blank) -> Option<Done>
    requires name { blank.name ≡ L.name }
    requires parts { blank.parts ≡ L.parts }
    requires some { 0 < L.parts }
{
    let mut steps = Steps::<L>::new(blank);
    run(rt.alloc(), work, &mut steps)
}

fn main(rt: HostRuntime) -> io::Result<()> {
    match run_in::<Brand>(rt, work_of(rt), Blank::new(1)) {
        Some(done) => {
            let operations = done.operations;
            let nodes = done.nodes;
            let left = done.left;
            let range = done.range;
            println!(rt; "operations {operations} nodes {nodes} left {left} range {range}")
        }
        None => println!(rt; "refused"),
    }
}
