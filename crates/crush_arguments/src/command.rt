//! The program's commands, their arguments, and their help.

ghost use Rattle.std.specs.Prelude.{◌≡◌, IfOk, false};
ghost use Rattle.clap.specs.Words.{app_of, rule_of};
ghost use Rattle.clap.specs.declared.builder.command.Command.TheViews.{out-Command as fields_of};
ghost use Rattle.crush_arguments.specs.Program as spec;

use clap::{Arg, ArgAction, Command, value_parser};
use std::alloc::{AllocError, Global};

/// The program's version, and the logic of the toolchain that proves it, which its `rt version`
/// names (`tests/program/check` compares it).
const VERSION: &str = "0.1.0\nRattle logic dac8208d650f15bf";

/// The end of the help of `check`: its line, and each code in a line of its own (`docs/MAPS.md` has
/// more of each).
const CODES: &str =
    "It prints 'ok devices D buckets B rules R', or 'refused line L code C' with the first fault.
With a code X, L is the line of the wrong word. With a code M it is the first line of the tunable,
device, type, bucket or rule that is wrong, perhaps further down, or the line of the last word where
only the end shows the fault. The codes:
  X1   a word that can't stand there, or a text that ends too early
  X2   alg straw, or alg straw2 where the text's first line isn't '# crushcalc: straw2'
  X3   a class in a take step
  X4   choose_args
  X5   a pos that isn't below the number of items, or that an earlier item has
  X6   no weight where one is expected
  X7   more than 4,194,304 bytes
  M1   more devices, types, buckets, items, rules or steps than the limit; a rule whose steps are
       all dropped
  M2   an id or number that an earlier element has
  M3   a name that an earlier element has, or a tunable that was named before
  M4   the type of a bucket isn't declared; at the end: there is no type 0
  M5   an item that isn't declared earlier
  M6   an item twice in a bucket
  M7   the weights of a bucket add up to 65536 or more, or an item of a straw2 bucket weighs
       32768 or more
  M8   the weights of a uniform bucket differ
  M9   a bucket of type 0
  M10  a take step names what isn't declared earlier
  M11  the type of a choose step isn't declared
  M12  a number out of its range
  M13  local tries or local fallback tries that aren't 0, or aren't named
  M14  chooseleaf indep of type 0
  M15  a name over 64 bytes, or a type named by a keyword";

/// Makes the option that says how many placements are kept.
fn cache_option<'a>(alloc: Global) -> Arg<'a>
    ensures rule { rule_of result ≡ spec.cache }
    ensures local { result.global ≡ false }
{
    Arg::new(alloc, "cache")
        .long("cache")
        .value_name("N")
        .action(ArgAction::Set)
        .value_parser(value_parser!(u32).range(1..=65_536))
        .default_value("1024")
        .help(
            "Keeps the placements of at most N groups: by a map text below 65,536 bytes from a group's second request on, or not at all where N is above 8,192",
        )
}

/// Makes the option that names the database file, with `help`. `required` says whether it has to be
/// given.
fn db_option<'a>(alloc: Global, required: bool, help: &'a str) -> Arg<'a>
    ensures rule { rule_of result ≡ record spec.db { required = required } }
    ensures local { result.global ≡ false }
{
    Arg::new(alloc, "db")
        .long("db")
        .value_name("FILE")
        .required(required)
        .action(ArgAction::Set)
        .help(help)
}

/// Makes the option that names the port.
fn port_option<'a>(alloc: Global) -> Arg<'a>
    ensures rule { rule_of result ≡ spec.port }
    ensures local { result.global ≡ false }
{
    Arg::new(alloc, "port")
        .long("port")
        .value_name("N")
        .required(true)
        .action(ArgAction::Set)
        .value_parser(value_parser!(u16).range(1..))
        .help("Listens on this port of 127.0.0.1")
}

/// Makes the option that says after how many connections the server ends.
fn connections_option<'a>(alloc: Global) -> Arg<'a>
    ensures rule { rule_of result ≡ spec.connections }
    ensures local { result.global ≡ false }
{
    Arg::new(alloc, "connections")
        .long("connections")
        .value_name("N")
        .action(ArgAction::Set)
        .value_parser(value_parser!(u32).range(1..=1_000_000))
        .default_value("1000000")
        .help("Ends after N connections")
}

/// Makes the command `script`. `Err(AllocError)`: an allocation failed.
fn script_command<'a>(alloc: Global) -> Result<Command<'a>, AllocError>
    ensures { IfOk result (λ command. (app_of command ≡ spec.script) × ((fields_of command).has_globals ≡ false)) }
{
    let db = db_option(
        alloc,
        false,
        "Keeps the tenants in this SQLite file, made where it is missing; else they are in memory",
    );
    Command::new(alloc, "script")
        .about("Serves the lines of standard input, and writes a line for each reply")
        .arg(db)?
        .arg(cache_option(alloc))
}

/// Makes the command `serve`. `Err(AllocError)`: an allocation failed.
fn serve_command<'a>(alloc: Global) -> Result<Command<'a>, AllocError>
    ensures { IfOk result (λ command. (app_of command ≡ spec.serve) × ((fields_of command).has_globals ≡ false)) }
{
    let db = db_option(
        alloc,
        true,
        "Keeps the tenants in this SQLite file, made where it is missing",
    );
    Command::new(alloc, "serve")
        .about("Serves HTTP on a port of this machine, one connection after the other")
        .arg(db)?
        .arg(port_option(alloc))?
        .arg(cache_option(alloc))?
        .arg(connections_option(alloc))
}

/// Makes the command `check`. `Err(AllocError)`: an allocation failed.
fn check_command<'a>(alloc: Global) -> Result<Command<'a>, AllocError>
    ensures { IfOk result (λ command. (app_of command ≡ spec.check) × ((fields_of command).has_globals ≡ false)) }
{
    let file = Arg::new(alloc, "FILE")
        .required(true)
        .action(ArgAction::Set)
        .help("The text of a map, as 'crushtool -d' writes it");
    Command::new(alloc, "check")
        .about("Says whether a text is that of a CRUSH map, or where and why it isn't")
        .after_help(CODES)
        .arg(file)
}

/// Makes the program's command line, by which `read_arguments` reads words. `Err(AllocError)`: an
/// allocation failed.
pub fn program<'a>(alloc: Global) -> Result<Command<'a>, AllocError>
    ensures { IfOk result (λ command. app_of command ≡ spec.program) }
{
    Command::new(alloc, "crushcalc")
        .about("A proved calculator of CRUSH placements")
        .version(VERSION)
        .subcommand_required(true)
        .subcommand(script_command(alloc)?)?
        .subcommand(serve_command(alloc)?)?
        .subcommand(check_command(alloc)?)
}
