//! What the words of a command line ask for.

ghost use Rattle.std.specs.Prelude.{◌≡◌, IfOk, IfSome, Some, codes, map, option_map, string_bytes};
ghost use Rattle.std.specs.Int.NonZero.{non_zero_usize_get};
ghost use Rattle.clap.specs.Words.{first_of, found_of, rows_of, subcommand_of, subcommand_rows_of};
ghost use Rattle.crush_arguments.specs.Asked as spec;
ghost use Rattle.crush_arguments.specs.Program.{program};

use crate::command::program;
use clap::error::ErrorKind;
use clap::{ArgMatches, Error};
use std::alloc::Global;
use std::num::NonZeroUsize;

/// What the program is asked to do: a command, with its arguments.
#[derive(Drop)]
pub enum Invocation<'a> {
    /// Serve the script on standard input, over the database file `db` if one is named, and keep at
    /// most `placements` placements.
    Script {
        db: Option<&'a str>,
        placements: NonZeroUsize,
    },
    /// Serve `connections` connections to `port`, over the database file `db`, and keep at most
    /// `placements` placements.
    Serve {
        db: &'a str,
        placements: NonZeroUsize,
        port: u16,
        connections: u32,
    },
    /// Check the map text in a file.
    Check {
        path: &'a str,
    },
}

/// Returns the text that the words say for the argument `id`, or its default.
#[tactic(auto, using(crate::proofs::Matched::text_said))]
fn text_of<'a>(matches: &ArgMatches<'a>, id: &str) -> Option<&'a str>
    ensures { option_map (λ text. text.now) result ≡ first_of id.now (rows_of (found_of matches.now)) }
{
    matches.get_str(id)
}

/// Returns the port that the words say, or `None` where they say none.
fn port_of(matches: &ArgMatches<'_>) -> Option<u16>
    ensures { IfSome result (λ n. Some n ≡ spec.number_of (codes "port") (rows_of (found_of matches.now))) }
{
    matches.get_one::<u16>("port")
}

/// Returns the number that the words say for the argument `id`, or its default.
fn number_of(matches: &ArgMatches<'_>, id: &str) -> Option<u32>
    ensures { IfSome result (λ n. Some n ≡ spec.number_of id.now (rows_of (found_of matches.now))) }
{
    matches.get_one::<u32>(id)
}

/// Returns the number of placements that the option `--cache` says, or its default.
fn placements_of(matches: &ArgMatches<'_>) -> Option<NonZeroUsize>
    ensures { IfSome result (λ n. Some (non_zero_usize_get n) ≡ spec.number_of (codes "cache") (rows_of (found_of matches.now))) }
{
    NonZeroUsize::new(number_of(matches, "cache")? as usize)
}

/// Returns what the command `name` with the matches `given` asks for, or `None` where they lack
/// what it requires.
fn asked_of<'a>(name: &str, given: &ArgMatches<'a>) -> Option<Invocation<'a>>
    ensures { IfSome result (λ invocation. spec.IsAsked name.now (rows_of (found_of given.now)) invocation) }
{
    match name {
        "script" => Some(Invocation::Script {
            db: text_of(given, "db"),
            placements: placements_of(given)?,
        }),
        "serve" => Some(Invocation::Serve {
            db: text_of(given, "db")?,
            placements: placements_of(given)?,
            port: port_of(given)?,
            connections: number_of(given, "connections")?,
        }),
        "check" => Some(Invocation::Check {
            path: text_of(given, "FILE")?,
        }),
        _ => None,
    }
}

/// Returns what `matches` ask for, or `None` where they lack what a command requires.
#[tactic(auto, using(crate::proofs::Matched::met))]
fn invocation_of<'a>(matches: &ArgMatches<'a>) -> Option<Invocation<'a>>
    ensures { IfSome result (λ invocation. spec.Asks (subcommand_rows_of matches.now) invocation) }
{
    let (name, given) = matches.subcommand()?;
    asked_of(name, given)
}

/// Reads the program's arguments, and returns what they ask for. `Err(Error)`: they name no
/// command, or lack what it requires, or ask for help or the version; or an allocation failed
/// (`ErrorKind::OutOfMemory`).
pub fn read_arguments(alloc: Global, arguments: &[String]) -> Result<Invocation<'_>, Error>
    ensures { IfOk result (λ invocation. spec.Asks (subcommand_of program (map string_bytes arguments.now)) invocation) }
{
    let mut command = program(alloc)?;
    let matches = command.try_get_matches_from_mut(arguments)?;
    match invocation_of(&matches) {
        Some(invocation) => Ok(invocation),
        // clap has refused such words
        None => Err(command.error(
            ErrorKind::MissingSubcommand,
            "a command lacks what it requires",
        )?),
    }
}
