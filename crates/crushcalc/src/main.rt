//! `crushcalc`, a calculator of CRUSH placements: runs the command that its arguments name.
#![tactic(auto)]

use clap::Error;
use clap::error::ErrorKind;
use crush_app::{CheckEnd, ScriptEnd, check_run, script_in_memory};
use crush_arguments::{Invocation, read_arguments};
use crush_files::script_on_file;
use crush_server::{ServerFault, TcpClients, Waiting, serve_on_file};
use sqlite_disk::{Disk, Unknown};
use std::alloc::AllocError;
use std::fs::File;
use std::num::NonZeroUsize;
use std::process::ExitCode;
use std::rt::{Files, HostRuntime};
use std::{env, io};
use tenant_files::{FileFault, FileRefusal};

/// Why the program stops before its command is done, or has none.
enum Stop {
    /// The arguments name no command, or ask for help or the version.
    Arguments(Error),
    /// An allocation failed.
    NoMemory,
    /// The script is longer than a script may be.
    TooLong,
    /// The file to check can't be opened or read.
    CannotRead,
    /// Standard input can't be read.
    ReadFault,
    /// Standard output can't be written.
    WriteFault,
    /// The store can't be opened, or failed for good.
    StoreFault,
    /// The port can't be listened on.
    CannotListen,
}

impl From<AllocError> for Stop {
    fn from(_error: AllocError) -> Stop {
        Stop::NoMemory
    }
}

impl From<Error> for Stop {
    fn from(error: Error) -> Stop {
        match error.kind() {
            ErrorKind::OutOfMemory => Stop::NoMemory,
            _ => Stop::Arguments(error),
        }
    }
}

impl From<FileFault> for Stop {
    fn from(fault: FileFault) -> Stop {
        match fault {
            FileFault::NoMemory => Stop::NoMemory,
            FileFault::Store => Stop::StoreFault,
        }
    }
}

impl<D: Disk + Drop> From<FileRefusal<D>> for Stop {
    fn from(refused: FileRefusal<D>) -> Stop {
        Stop::from(refused.fault)
    }
}

impl From<ServerFault> for Stop {
    fn from(fault: ServerFault) -> Stop {
        match fault {
            ServerFault::NoMemory => Stop::NoMemory,
            ServerFault::Store => Stop::StoreFault,
            ServerFault::CannotListen => Stop::CannotListen,
            ServerFault::WriteFault => Stop::WriteFault,
        }
    }
}

/// Plays the script on standard input, with no tenant at first, and returns how that ended.
fn script_from_nothing<R: AllocGlobal + Input + Print>(
    rt: &R,
    placements: NonZeroUsize,
) -> Result<ScriptEnd, Stop> {
    Ok(script_in_memory(
        rt.alloc(),
        placements,
        &mut rt.reader(),
        &mut io::writer(rt),
    )?)
}

/// Plays the script on standard input, with the tenants in the database file at `path`, and returns
/// how that ended.
fn script_over_file(
    rt: &HostRuntime,
    path: &str,
    placements: NonZeroUsize,
) -> Result<ScriptEnd, Stop> {
    let mut writer = io::writer(rt);
    let (end, closed) = script_on_file(
        rt,
        path,
        Unknown,
        placements,
        &mut rt.reader(),
        &mut writer,
    )?;
    closed.copied?;
    Ok(end?)
}

/// Returns `Ok` after a script that was played to its end, and else why the program stops.
fn stop_after(end: ScriptEnd) -> Result<(), Stop> {
    match end {
        ScriptEnd::Done => Ok(()),
        ScriptEnd::TooLong => Err(Stop::TooLong),
        ScriptEnd::ReadFault => Err(Stop::ReadFault),
        ScriptEnd::WriteFault => Err(Stop::WriteFault),
        ScriptEnd::Latched => Err(Stop::StoreFault),
    }
}

/// Checks the text in the file at `path`, writes its line, and returns the exit status: 0 where the
/// text is a map's, else 1.
fn check_file<R: AllocGlobal + Files + Print>(rt: &R, path: &str) -> Result<ExitCode, Stop> {
    let mut file = match File::open(rt, path) {
        Ok(file) => file,
        Err(error) if error.kind() == io::ErrorKind::OutOfMemory => return Err(Stop::NoMemory),
        Err(_) => return Err(Stop::CannotRead),
    };
    match check_run(rt.alloc(), &mut file, &mut io::writer(rt))? {
        CheckEnd::Accepted => Ok(ExitCode::SUCCESS),
        CheckEnd::Refused => Ok(ExitCode::from(1)),
        CheckEnd::ReadFault => Err(Stop::CannotRead),
        CheckEnd::WriteFault => Err(Stop::WriteFault),
    }
}

/// Writes to standard error how many of `connections` connections couldn't be accepted, where these
/// are more than half.
fn tell_of_failed<R: Eprint>(rt: &R, failed: u32, connections: u32) {
    if failed > connections / 2 {
        // the server has ended, whether or not this is written
        let _written = eprintln!(rt;
            "crushcalc: {failed} of {connections} connections not accepted"
        );
    }
}

/// Runs the command that the arguments name, and returns the exit status.
fn run(rt: &HostRuntime) -> Result<ExitCode, Stop> {
    let Ok(given) = env::args(rt) else {
        return Err(Stop::NoMemory);
    };
    let arguments = given.collect::<Vec<String>>(rt.alloc())?;
    match read_arguments(rt.alloc(), arguments.as_slice())? {
        Invocation::Script { db, placements } => {
            let end = match db {
                Some(path) => script_over_file(rt, path, placements)?,
                None => script_from_nothing(rt, placements)?,
            };
            stop_after(end)?;
            Ok(ExitCode::SUCCESS)
        }
        Invocation::Serve {
            db,
            placements,
            port,
            connections,
        } => {
            let waiting = Waiting::new(rt);
            let mut clients = TcpClients::new(rt, port, &waiting)?;
            let (served, closed) = serve_on_file(
                rt,
                db,
                Unknown,
                placements,
                &mut clients,
                connections,
            )?;
            tell_of_failed(rt, clients.failed(), connections);
            served?;
            closed.copied?;
            Ok(ExitCode::SUCCESS)
        }
        Invocation::Check { path } => check_file(rt, path),
    }
}

/// Writes help or the version, or to standard error why the program stops, and returns the exit
/// status.
fn report<R: Print + Eprint>(rt: &R, stop: Stop) -> io::Result<ExitCode> {
    let why = match stop {
        Stop::Arguments(error) => {
            error.print(rt)?;
            return Ok(ExitCode::from(error.exit_code() as u8));
        }
        Stop::NoMemory => "no memory",
        Stop::TooLong => "input too long",
        Stop::CannotRead => "cannot read",
        Stop::ReadFault => "read fault",
        Stop::WriteFault => "write fault",
        Stop::StoreFault => "store fault",
        Stop::CannotListen => "cannot listen",
    };
    eprintln!(rt; "crushcalc: {why}")?;
    Ok(ExitCode::from(1))
}

fn main(rt: HostRuntime) -> io::Result<ExitCode> {
    match run(&rt) {
        Ok(status) => Ok(status),
        Err(stop) => report(&rt, stop),
    }
}
