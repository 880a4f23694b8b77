//! `dejavu SPEC LOG` checks a log against the properties of a specification, and writes the report to standard output.
#![tactic(auto)]

ghost use Rattle.std.specs.Prelude.{◌≡◌, ◌<◌};

use mon_base::{HostFiles, NoMemory, OutSink, Steps};
use monitor_run::{End, run};
use std::env;
use std::io::ErrorKind;
use std::marker::Brand;
use std::process::ExitCode;
use std::sync::ledger::{Blank, Ledger};

/// The words after the program's name. Where one of them is no UTF-8 there are none, which is a wrong use.
fn words_of(rt: HostRuntime) -> Result<Vec<String>, NoMemory> {
    let mut words = Vec::new(rt.alloc());
    match env::args(&rt) {
        Ok(args) => {
            for word in args.skip(1) {
                words.push(word)?;
            }
        }
        Err(error) => {
            if error.kind() == ErrorKind::OutOfMemory {
                return Err(NoMemory);
            }
        }
    }
    Ok(words)
}

/// The status of a run over the host, which counts its steps in this ledger.
fn run_in<L: Ledger>(rt: HostRuntime, words: &[String], blank: Blank) -> u8
    requires name { blank.name ≡ L.name }
    requires parts { blank.parts ≡ L.parts }
    requires some { 0 < L.parts }
{
    let mut files = HostFiles::new(rt);
    let mut out = OutSink::new(rt);
    let mut steps = Steps::<L>::new(blank);
    let outcome = run(rt.alloc(), words, &mut files, &mut out, &mut steps);
    outcome.status
}

fn main(rt: HostRuntime) -> ExitCode {
    match words_of(rt) {
        Ok(words) => ExitCode::from(run_in::<Brand>(rt, words.as_slice(), Blank::new(1))),
        Err(_) => ExitCode::from(End::NoMemory.status()),
    }
}
