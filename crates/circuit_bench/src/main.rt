//! Evaluates circuits many times over and makes miters, for measuring the time from outside.
//!
//!     circuit_bench net SPEC TIMES
//!     circuit_bench fabric C R T I O CONFIG TIMES
//!     circuit_bench lanes C R T I O CONFIG TIMES
//!     circuit_bench ones C R T I O CONFIG COUNT
//!     circuit_bench miter SPEC C R T I O CONFIG
//!
//! The word `six` may stand before all but `net`: the cells then have six inputs.
//!
//! The inputs of each time are made by a fixed rule, one input at a time, or sixty-four with `lanes`;
//! with `ones` they are the values from 0 on. The program prints how many bits of all outputs were 1,
//! modulo 2^64. Of a miter it prints how many clauses it has. It ends with status 1 where the words
//! have no meaning, a file can't be had, the network doesn't fit the pads or memory is wanting.
#![tactic(auto)]

mod inputs;
mod runs;

use crate::runs::{ones_of_config, ones_of_lanes, ones_of_net, ones_of_values};
use blif_read::read_blif;
use eval_lanes::LaneWires;
use extract::extract;
use fabric::{Config, Geometry, Wires};
use fabric_bytes::read_config;
use miter_cnf::{fits_pads, miter};
use netlist::{Net, Scratch, build};
use pch_base::{print_number, read_number};
use pch_io::{FileStore, OutSink, Sink, Store};
use std::alloc::{AllocError, Global};
use std::env::Env;
use std::process::ExitCode;
use std::{env, io};

/// The most bytes of a file that is loaded.
const MAX_BYTES: u64 = 262_144;

/// The words of the command line, without the program's name.
fn words<R: Env + AllocGlobal>(rt: &R) -> Result<Vec<String>, AllocError> {
    match env::args(rt) {
        Ok(args) => args.skip(1).collect(rt.alloc()),
        Err(error) if error.kind() == io::ErrorKind::OutOfMemory => Err(AllocError),
        Err(_) => Ok(Vec::new(rt.alloc())),
    }
}

/// The number that a word spells, if it fits 32 bits.
fn number(word: &str) -> Option<u32> {
    read_number(word.as_bytes(), u64::from(u32::MAX)).map(|n| n as u32)
}

/// The geometry of five words, with cells of four or of six inputs.
fn geometry(is_six: bool, [c, r, t, i, o]: [&str; 5]) -> Option<Geometry> {
    let four = Geometry::new(number(c)?, number(r)?, number(t)?, number(i)?, number(o)?)?;
    Some(if is_six { four.six() } else { four })
}

/// The network of a file.
fn load_net<S: Store>(alloc: Global, store: &mut S, spec: &str) -> Option<Net> {
    let bytes = store.load(alloc, spec, MAX_BYTES).ok()?;
    let design = read_blif(alloc, &bytes).ok()?;
    build(alloc, &design).ok()
}

/// The configuration of a file, for this fabric.
fn load_config<S: Store>(
    alloc: Global,
    store: &mut S,
    g: Geometry,
    config: &str,
) -> Option<Config> {
    let bytes = store.load(alloc, config, MAX_BYTES).ok()?;
    read_config(alloc, g, &bytes).ok()
}

/// The ones of the network of this specification.
fn net_ones<S: Store>(alloc: Global, store: &mut S, spec: &str, times: u64) -> Option<u64> {
    let net = load_net(alloc, store, spec)?;
    let mut scratch = Scratch::new(alloc, &net).ok()?;
    Some(ones_of_net(&net, times, &mut scratch))
}

/// The ones of a configuration, for so many times one input.
fn fabric_ones(alloc: Global, config: &Config, times: u32) -> Option<u64> {
    let mut wires = Wires::new(alloc, config.geometry()).ok()?;
    Some(ones_of_config(config, u64::from(times), &mut wires))
}

/// The ones of a configuration, for so many times sixty-four inputs.
fn lane_ones(alloc: Global, config: &Config, times: u32) -> Option<u64> {
    let g = config.geometry();
    let mut w = LaneWires::new(alloc, g).ok()?;
    let mut words = vec![in alloc; 0; g.i() as usize].ok()?;
    let mut out = vec![in alloc; 0; g.o() as usize].ok()?;
    let ones = ones_of_lanes(config, u64::from(times), &mut words, &mut out, &mut w);
    Some(ones)
}

/// The ones of a configuration, for so many values from 0 on.
fn value_ones(alloc: Global, config: &Config, count: u32) -> Option<u64> {
    let mut w = LaneWires::new(alloc, config.geometry()).ok()?;
    Some(ones_of_values(config, count, &mut w))
}

/// The ones of a configuration, for the inputs that the word names.
fn config_ones(alloc: Global, word: &str, config: &Config, times: u32) -> Option<u64> {
    match word {
        "fabric" => fabric_ones(alloc, config, times),
        "lanes" => lane_ones(alloc, config, times),
        "ones" => value_ones(alloc, config, times),
        _ => None,
    }
}

/// The clauses of the miter of the specification and the configuration.
fn miter_clauses<S: Store>(
    alloc: Global,
    store: &mut S,
    spec: &str,
    g: Geometry,
    config: &str,
) -> Option<u64> {
    let net = load_net(alloc, store, spec)?;
    let config = load_config(alloc, store, g, config)?;
    let cells = extract(alloc, &config).ok()?;
    if !fits_pads(&net, cells.geometry()) {
        return None;
    }
    let clauses = miter(alloc, &net, &cells).ok()?;
    Some(u64::from(clauses.len()))
}

/// The number that the words behind `six` ask for.
fn answer_of_kind<S: Store>(
    alloc: Global,
    store: &mut S,
    is_six: bool,
    words: &[String],
) -> Option<u64> {
    match words {
        [word, spec, c, r, t, i, o, config] if word.as_str() == "miter" => {
            let sides = [c.as_str(), r.as_str(), t.as_str(), i.as_str(), o.as_str()];
            let g = geometry(is_six, sides)?;
            miter_clauses(alloc, store, spec.as_str(), g, config.as_str())
        }
        [word, c, r, t, i, o, config, times] => {
            let sides = [c.as_str(), r.as_str(), t.as_str(), i.as_str(), o.as_str()];
            let g = geometry(is_six, sides)?;
            let config = load_config(alloc, store, g, config.as_str())?;
            config_ones(alloc, word.as_str(), &config, number(times.as_str())?)
        }
        _ => None,
    }
}

/// The number that the words ask for.
fn answer<S: Store>(alloc: Global, store: &mut S, words: &[String]) -> Option<u64> {
    match words {
        [word, spec, times] if word.as_str() == "net" => {
            let times = number(times.as_str())?;
            net_ones(alloc, store, spec.as_str(), u64::from(times))
        }
        [word, rest @ ..] if word.as_str() == "six" => answer_of_kind(alloc, store, true, rest),
        _ => answer_of_kind(alloc, store, false, words),
    }
}

/// Writes the number as a line.
fn put_number<O: Sink>(alloc: Global, out: &mut O, number: u64) -> Option<()> {
    let mut line = Vec::new(alloc);
    print_number(number, &mut line).ok()?;
    line.push(b'\n').ok()?;
    out.put(&line).ok()
}

/// All of it, from the words to the line.
fn run<S: Store, O: Sink>(
    alloc: Global,
    words: &[String],
    store: &mut S,
    out: &mut O,
) -> Option<()> {
    let number = answer(alloc, store, words)?;
    put_number(alloc, out, number)
}

fn main(rt: HostRuntime) -> ExitCode {
    let Ok(words) = words(&rt) else {
        return ExitCode::from(1);
    };
    let mut store = FileStore::new(&rt);
    let mut out = OutSink::new(&rt);
    match run(rt.alloc(), &words, &mut store, &mut out) {
        Some(()) => ExitCode::SUCCESS,
        None => ExitCode::from(1),
    }
}
