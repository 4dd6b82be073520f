//! `crush_bench` does this repository's part of the measurements that bench/README.md defines.
#![tactic(auto)]

mod bucket;
mod fullest;
mod mappings;
mod ready;
mod size;
mod text;
mod words;

use bucket::Questions;
use crush_bucket::Tables;
use crush_map::Kind;
use crush_text::{TextFault, code_text};
use ready::Ready;
use size::Size;
use std::process::ExitCode;
use std::rt::{Clock, Env};
use std::{env, io};
use words::{Work, reweights_of, work_of};

const USAGE: &str =
    "usage: crush_bench [small] | pick KIND N COUNT [TRIES] | check | text <TEXT | mappings SIZE COUNT [DEVICE:REWEIGHT ..] <TEXT
(KIND: 1 uniform, 2 list, 3 tree)";

/// The picks from each bucket in the small run.
const FEW: Questions = Questions {
    inputs: 1_000,
    tries: 1,
};

/// Prints what is wrong, and ends with status 1.
fn fault<R: Eprint>(rt: &R, what: &str) -> io::Result<ExitCode> {
    eprintln!(rt; "crush_bench: {what}")?;
    Ok(ExitCode::from(1))
}

/// Prints the checksum of picks from one bucket, and on standard error the nanoseconds of one pick.
fn pick<R: AllocGlobal + Clock + Print + Eprint>(
    rt: &R,
    kind: Kind,
    size: u32,
    questions: Questions,
) -> io::Result<ExitCode> {
    let Some(picks) = bucket::measure(rt, kind, size, questions)? else {
        return fault(rt, "there is no such bucket");
    };
    let asked = f64::from(questions.inputs) * f64::from(questions.tries);
    let each = picks.took.as_secs_f64() * 1e9 / asked;
    rt.println(picks.checksum)?;
    eprintln!(rt; "{each:.1}")?;
    Ok(ExitCode::SUCCESS)
}

/// Prints a line for a bucket of each size: the kind, the size, and the checksum of a few picks.
fn list_small<R: AllocGlobal + Clock + Print>(
    rt: &R,
    name: &str,
    kind: Kind,
    sizes: &[u32],
) -> io::Result<()> {
    for size in sizes {
        let size = *size;
        if let Some(picks) = bucket::measure(rt, kind, size, FEW)? {
            let checksum = picks.checksum;
            println!(rt; "{name} {size} {checksum}")?;
        }
    }
    Ok(())
}

/// Prints the checksums of each kind of bucket at the measured sizes, without times.
fn small<R: AllocGlobal + Clock + Print>(rt: &R) -> io::Result<ExitCode> {
    list_small(rt, "uniform", Kind::Uniform, &[8, 32, 128, 1_024])?;
    list_small(rt, "list", Kind::List, &[8, 32, 128, 1_024])?;
    list_small(rt, "tree", Kind::Tree, &[8, 32, 64, 128, 1_024])?;
    list_small(rt, "straw2", Kind::Straw2, &[8, 12, 32, 128, 1_000])?;
    Ok(ExitCode::SUCCESS)
}

/// Prints whether the greatest draft is a map, and on standard error the seconds of the check.
fn check<R: AllocGlobal + Clock + Print + Eprint>(rt: &R) -> io::Result<ExitCode> {
    let checked = fullest::check(rt)?;
    let took = checked.took.as_secs_f64();
    eprintln!(rt; "{took:.3}")?;
    match checked.fault {
        None => {
            rt.println("accepted")?;
            Ok(ExitCode::SUCCESS)
        }
        Some(fault) => {
            println!(rt; "refused: {fault:?}")?;
            Ok(ExitCode::from(1))
        }
    }
}

/// Prints a text's first fault, and ends with status 1.
fn refusal<R: Eprint>(rt: &R, refused: TextFault) -> io::Result<ExitCode> {
    let line = refused.line;
    let code = code_text(refused.code);
    eprintln!(rt; "refused line {line} code {code}")?;
    Ok(ExitCode::from(1))
}

/// Prints the canonical text of the map whose text is on standard input, or that text's first
/// fault.
fn rewritten<R: AllocGlobal + Input + Print + Eprint>(rt: &R) -> io::Result<ExitCode> {
    match text::rewrite(rt)? {
        None => Ok(ExitCode::SUCCESS),
        Some(refused) => refusal(rt, refused),
    }
}

/// Prints the checksum of the mappings of the map whose text is on standard input, and on standard
/// error the microseconds of one mapping.
fn mapped<R: AllocGlobal + Clock + Input + Print + Eprint>(
    rt: &R,
    size: Size,
    inputs: u32,
    reweights: &[(u32, u32)],
) -> io::Result<ExitCode> {
    let map = match text::read(rt)? {
        Ok(map) => map,
        Err(refused) => return refusal(rt, refused),
    };
    let tables = Tables::build(rt.alloc(), &map)?;
    let mut ready = Ready::build(rt.alloc(), &map, &tables, reweights)?;
    let measured = mappings::measure(rt, &mut ready, size, inputs)?;
    let each = measured.took.as_secs_f64() * 1e6 / f64::from(inputs);
    rt.println(measured.checksum)?;
    eprintln!(rt; "{each:.3}")?;
    Ok(ExitCode::SUCCESS)
}

/// Says what the arguments may be, and ends with status 2.
fn usage<R: Eprint>(rt: &R) -> io::Result<ExitCode> {
    rt.eprintln(USAGE)?;
    Ok(ExitCode::from(2))
}

fn done<R: AllocGlobal + Clock + Input + Print + Eprint>(
    rt: &R,
    words: &[String],
) -> io::Result<ExitCode> {
    match work_of(words) {
        Some(Work::Small) => small(rt),
        Some(
            Work::Pick {
                kind,
                size,
                questions,
            },
        ) => pick(rt, kind, size, questions),
        Some(Work::Check) => check(rt),
        Some(Work::Text) => rewritten(rt),
        Some(Work::Mappings { size, inputs }) => {
            match reweights_of(rt.alloc(), words.get(4..).unwrap_or(&[]))? {
                Some(reweights) => mapped(rt, size, inputs, reweights.as_slice()),
                None => usage(rt),
            }
        }
        None => usage(rt),
    }
}

fn run<R: AllocGlobal + Clock + Input + Print + Eprint + Env>(rt: &R) -> io::Result<ExitCode> {
    let words = env::args(rt)?.collect::<Vec<String>>(rt.alloc())?;
    done(rt, words.as_slice())
}

fn main(rt: HostRuntime) -> io::Result<ExitCode> {
    run(&rt)
}
