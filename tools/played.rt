//! Plays scripts in memory and checks map texts with the crates of `crushcalc`. `tools/played`
//! builds it without proofs, which it says of itself, and puts in the version and the codes.
#![tactic(auto)]

use crush_app::{CheckEnd, ScriptEnd, check_run, script_in_memory};
use std::fs::File;
use std::num::NonZeroUsize;
use std::process::ExitCode;
use std::rt::HostRuntime;
use std::{env, io};

const VERSION: &str =
    "crushcalc @VERSION@ (unproved)
built by 'make try' of the same sources, without their proofs";

const USAGE: &str =
    "An unproved build of the sources of crushcalc, a calculator of CRUSH placements

Usage: crushcalc script        Serves the lines of standard input, with tenants in memory, and
                               writes a line for each reply
       crushcalc check FILE    Says whether a text is that of a CRUSH map, or where and why it
                               isn't; check --help has the codes
       crushcalc --version     Says what it is

The whole program, which also keeps tenants in files and serves HTTP, is proved and built by
'make build'.";

const CODES: &str =
    "@CODES@";

fn fails(rt: &HostRuntime, why: &str) -> io::Result<ExitCode> {
    eprintln!(rt; "crushcalc: {why}")?;
    Ok(ExitCode::from(1))
}

fn says(rt: &HostRuntime, text: &str) -> io::Result<ExitCode> {
    rt.println(text)?;
    Ok(ExitCode::SUCCESS)
}

/// Plays the script on standard input, as `crushcalc script` does.
fn script(rt: &HostRuntime) -> io::Result<ExitCode> {
    let Some(placements) = NonZeroUsize::new(1_024) else {
        return Ok(ExitCode::from(1));
    };
    match script_in_memory(rt.alloc(), placements, &mut rt.reader(), &mut io::writer(rt)) {
        Ok(ScriptEnd::Done) => Ok(ExitCode::SUCCESS),
        Ok(ScriptEnd::TooLong) => fails(rt, "input too long"),
        Ok(ScriptEnd::ReadFault) => fails(rt, "read fault"),
        Ok(ScriptEnd::WriteFault) => fails(rt, "write fault"),
        Ok(ScriptEnd::Latched) => fails(rt, "store fault"),
        Err(_) => fails(rt, "no memory"),
    }
}

/// Checks the text in the file at `path`, as `crushcalc check` does.
fn check(rt: &HostRuntime, path: &str) -> io::Result<ExitCode> {
    let Ok(mut file) = File::open(rt, path) else {
        return fails(rt, "cannot read");
    };
    match check_run(rt.alloc(), &mut file, &mut io::writer(rt)) {
        Ok(CheckEnd::Accepted) => Ok(ExitCode::SUCCESS),
        Ok(CheckEnd::Refused) => Ok(ExitCode::from(1)),
        Ok(CheckEnd::ReadFault) => fails(rt, "cannot read"),
        Ok(CheckEnd::WriteFault) => fails(rt, "write fault"),
        Err(_) => fails(rt, "no memory"),
    }
}

fn main(rt: HostRuntime) -> io::Result<ExitCode> {
    let words = env::args(&rt)?.collect::<Vec<String>>(rt.alloc())?;
    match words.as_slice() {
        [_, word] if word.as_str() == "script" => script(&rt),
        [_, word] if word.as_str() == "--version" => says(&rt, VERSION),
        [_, word] if word.as_str() == "--help" => says(&rt, USAGE),
        [_, word, option] if word.as_str() == "check" && option.as_str() == "--help" => says(&rt, CODES),
        [_, word, path] if word.as_str() == "check" => check(&rt, path.as_str()),
        _ => {
            rt.eprintln(USAGE)?;
            Ok(ExitCode::from(2))
        }
    }
}
