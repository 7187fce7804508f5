// The work of the library, on drawn inputs: what is measured beside the baseline in bench/. The expected output, in the file stdout
// beside this crate's src, is the baseline's, which uses none of this code.
#![tactic(auto)]

mod heads;
mod random;
mod script;
mod work;

use crate::script::Plan;
use crate::work::{Fault, ask_often, make_calls, open_array, open_handful};
use std::alloc::Global;
use std::process::ExitCode;
use std::{env, io};

const USAGE: &str = "usage: bench open ROUNDS
       bench array ELEMENTS LEVELS ROUNDS
       bench whose ELEMENTS LEVELS PLACES ROUNDS
       bench calls BYTES STROKES EVERY ROUNDS

Without arguments it does a small piece of work of each kind.";

#[derive(Clone, Copy)]
enum Workload {
    Open {
        rounds: u32,
    },
    Array {
        elements: u32,
        levels: u32,
        rounds: u32,
    },
    Whose {
        elements: u32,
        levels: u32,
        places: u32,
        rounds: u32,
    },
    Calls {
        plan: Plan,
        rounds: u32,
    },
}

impl Workload {
    fn parse(name: &str, numbers: &[u32]) -> Option<Workload> {
        match (name, numbers) {
            ("open", [rounds]) => Some(Workload::Open { rounds: *rounds }),
            ("array", [elements, levels, rounds]) => Some(Workload::Array {
                elements: *elements,
                levels: *levels,
                rounds: *rounds,
            }),
            ("whose", [elements, levels, places, rounds]) => Some(Workload::Whose {
                elements: *elements,
                levels: *levels,
                places: *places,
                rounds: *rounds,
            }),
            ("calls", [length, strokes, every, rounds]) if (1..=4_096).contains(length) => {
                let plan = Plan {
                    length: *length,
                    strokes: *strokes,
                    every: *every,
                };
                Some(Workload::Calls {
                    plan,
                    rounds: *rounds,
                })
            }
            _ => None,
        }
    }

    fn name(self) -> &'static str {
        match self {
            Workload::Open { .. } => "open",
            Workload::Array { .. } => "array",
            Workload::Whose { .. } => "whose",
            Workload::Calls { .. } => "calls",
        }
    }

    fn run(self, heap: Global) -> Result<u64, Fault> {
        match self {
            Workload::Open { rounds } => open_handful(heap, rounds),
            Workload::Array {
                elements,
                levels,
                rounds,
            } => { open_array(heap, elements, levels, rounds) }
            Workload::Whose {
                elements,
                levels,
                places,
                rounds,
            } => { ask_often(heap, elements, levels, places, rounds) }
            Workload::Calls { plan, rounds } => make_calls(heap, plan, rounds),
        }
    }
}

// Small workloads of every kind.
fn small() -> [Option<Workload>; 7] {
    [
        Workload::parse("open", &[2]),
        Workload::parse("array", &[2_048, 15, 1]),
        Workload::parse("whose", &[1, 1, 500, 1]),
        Workload::parse("whose", &[2_048, 15, 500, 2]),
        Workload::parse("calls", &[1, 400, 16, 1]),
        Workload::parse("calls", &[64, 400, 0, 1]),
        Workload::parse("calls", &[4_096, 400, 16, 2]),
    ]
}

fn tell(rt: &HostRuntime, workload: Workload) -> io::Result<()> {
    let name = workload.name();
    match workload.run(rt.alloc()) {
        Ok(sum) => println!(rt; "{name}: {sum}"),
        Err(fault) => println!(rt; "{name}: {fault}"),
    }
}

fn tell_all(rt: &HostRuntime, workloads: &[Option<Workload>]) -> io::Result<()> {
    for workload in workloads.iter().flatten() {
        tell(rt, *workload)?;
    }
    Ok(())
}

// The workload that the arguments name, if any.
fn asked_for(rt: &HostRuntime, args: &[String]) -> io::Result<Option<Workload>> {
    let mut numbers = Vec::new(rt.alloc());
    for arg in args.iter().skip(1) {
        let Ok(number) = arg.as_str().parse::<u32>() else {
            return Ok(None);
        };
        numbers.push(number)?;
    }
    Ok(
        args.first()
            .and_then(|name| Workload::parse(name.as_str(), &numbers)),
    )
}

fn main(rt: HostRuntime) -> io::Result<ExitCode> {
    let args: Vec<String> = env::args(&rt)?.skip(1).collect(rt.alloc())?;
    if args.is_empty() {
        tell_all(&rt, &small())?;
        return Ok(ExitCode::SUCCESS);
    }
    match asked_for(&rt, &args)? {
        Some(workload) => tell(&rt, workload)?,
        None => {
            eprintln!(rt; "{USAGE}")?;
            return Ok(ExitCode::FAILURE);
        }
    }
    Ok(ExitCode::SUCCESS)
}
