//! Tells how long the phases of a circuit's secret run take, and how long a view is printed and read.
#![tactic(auto)]

mod phases;
mod shapes;
mod stop;
mod views;

use phases::measure;
use shapes::{Shape, circuit_of};
use std::env;
use std::process::ExitCode;
use std::rt::Env;
use std::time::CpuClock;
use stop::Stop;
use views::measure_view;

const USAGE: &str = "\
pdn_bench wide <rows> <turns>               rows compared with each other, 137 planes a pair of a row and a word of rows
pdn_bench deep <chains> <length> <turns>    chains of And gates
pdn_bench view <gates> <turns>              a site's view of so many And gates
Each prints a table, a row a turn: of a circuit picoseconds of processor time for each And gate, of a view the bytes of
its text and milliseconds of processor time.
";

const NANOS_A_MILLI: u64 = 1_000_000;

fn main(rt: HostRuntime) -> ExitCode {
    match bench(&rt) {
        Ok(()) => ExitCode::SUCCESS,
        Err(_) => ExitCode::FAILURE,
    }
}

fn bench(rt: &(impl Env + AllocGlobal + CpuClock + Print)) -> Result<(), Stop> {
    let words = words(rt)?;
    match asked(&words) {
        Some((Measurement::Circuit(shape), turns)) => bench_circuit(rt, shape, turns),
        Some((Measurement::View { gates }, turns)) => bench_view(rt, gates, turns),
        None => Ok(print!(rt; "{USAGE}")?),
    }
}

fn bench_circuit(
    rt: &(impl AllocGlobal + CpuClock + Print),
    shape: Shape,
    turns: u32,
) -> Result<(), Stop> {
    let alloc = rt.alloc();
    let circuit = circuit_of(alloc, shape)?;
    println!(rt; "gates {}", circuit.gates.len())?;
    println!(rt; "turn ands deal split order new run eval unit kilo_ands_a_second")?;
    for turn in 0..turns {
        let row = measure(rt, alloc, &circuit)?;
        println!(rt;
            "{turn} {} {} {} {} {} {} {} {} {}",
            row.ands,
            row.each(row.deal),
            row.each(row.split),
            row.each(row.order),
            row.each(row.new),
            row.each(row.run),
            row.each(row.eval),
            row.each(row.unit()),
            row.rate()
        )?;
    }
    Ok(())
}

fn bench_view(
    rt: &(impl AllocGlobal + CpuClock + Print),
    gates: u32,
    turns: u32,
) -> Result<(), Stop> {
    println!(rt; "turn bytes print read")?;
    for turn in 0..turns {
        let times = measure_view(rt, rt.alloc(), gates)?;
        let print = times.print / NANOS_A_MILLI;
        let read = times.read / NANOS_A_MILLI;
        println!(rt; "{turn} {} {print} {read}", times.bytes)?;
    }
    Ok(())
}

// The words after the program's name.
fn words(rt: &(impl Env + AllocGlobal)) -> Result<Vec<String>, Stop> {
    let mut words = Vec::new(rt.alloc());
    for word in env::args(rt)?.skip(1) {
        words.push(word)?;
    }
    Ok(words)
}

// What is measured.
#[derive(Clone, Copy, Debug)]
enum Measurement {
    Circuit(Shape),
    View { gates: u32 },
}

// What the words ask for, and how often.
fn asked(words: &[String]) -> Option<(Measurement, u32)> {
    match words {
        [name, rows, turns] if name.as_str() == "wide" => {
            let rows = count(rows)?;
            Some((Measurement::Circuit(Shape::Wide { rows }), count(turns)?))
        }
        [name, chains, length, turns] if name.as_str() == "deep" => {
            let chains = count(chains)?;
            let length = count(length)?;
            Some((
                Measurement::Circuit(Shape::Deep { chains, length }),
                count(turns)?,
            ))
        }
        [name, gates, turns] if name.as_str() == "view" => {
            let gates = count(gates)?;
            Some((Measurement::View { gates }, count(turns)?))
        }
        _ => None,
    }
}

fn count(word: &String) -> Option<u32> {
    word.as_str().parse::<u32>().ok()
}
