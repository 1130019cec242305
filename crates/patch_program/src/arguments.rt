//! The command line.
ghost use Rattle.std.specs.Prelude.{IfOk, IfSome};
ghost use Rattle.patch_program.specs.Asked.{AreWriters, IsKey, MayBeAsked};

use clap::error::ErrorKind;
use clap::{Arg, ArgAction, ArgMatches, Command, Error, value_parser};
use hex::FromHexError;
use patch_files::{Barriers, Reclaims};
use patch_frame::{Format, Geometry, MAX_KEY};
use patch_model::MAX_BLOCKS;
use std::alloc::{AllocError, Global};
use std::env::Env;
use std::io;

/// How many blocks there are where the command line doesn't say.
const DEFAULT_BLOCKS: &str = "8";

// What stands below the options of the program, and of each command.
const AFTER_HELP: &str = "\
fstch COMMAND --help says more of a command. docs/SCRIPTS.md has the lines of scripts, their answers and the exit statuses.";

const AFTER_REPLAY: &str = "\
Example: fstch replay < examples/overlap.jsonl
docs/SCRIPTS.md has the lines of a script, their answers and the exit statuses.";

const AFTER_MAKE: &str = "\
Example: fstch make data.disk --index 1 --extents 16
makes a disk of 258 blocks, 1 MB, with room for 64 keys.";

const AFTER_RUN: &str = "\
Example: fstch run data.disk < examples/store.jsonl
With --writers each writer's lines run on a thread of its own. The answers are those of writer 0, then of writer 1, and so on.
With --reclaim a put is refused for want of room only where the keys and values themselves leave none: fstch run data.disk --reclaim
docs/SCRIPTS.md has the lines of a script, their answers and the exit statuses.";

const AFTER_CHECK: &str = "\
Example: fstch check data.disk
writes a line for each key, with the length of its value, and one for each extent, and then clean.";

const AFTER_LIST: &str = "\
Example: fstch list data.disk --prefix 61 --values
writes a line for each key that begins with the byte 61, in the order of bytes: the key, the length of its value, and the value.";

const AFTER_STAT: &str = "\
Example: fstch stat data.disk
writes the numbers of fstch_stats, a line each, and where standard output is a terminal, how full each extent is: # stands for bytes of
values that keys have, - for what else is written.";

const AFTER_UPGRADE: &str = "\
Example: fstch upgrade data.disk
Values may have 65,488 bytes then, in place of 32,768. There is no way back.";

/// What the command line asks for.
#[derive(Drop)]
pub enum Request<'a> {
    /// To replay a script on so many blocks.
    Replay {
        blocks: u32,
    },
    /// To make a file that holds an empty store.
    Make {
        path: &'a str,
        geometry: Geometry,
    },
    /// To run a script on the store of a file.
    Run {
        path: &'a str,
        /// How many writers have a thread each; `None` where one thread answers all lines.
        writers: Option<u32>,
        barriers: Barriers,
        reclaims: Reclaims,
    },
    /// To report what the store of a file holds.
    Check {
        path: &'a str,
    },
    /// To list the keys of the store of a file.
    List {
        path: &'a str,
        /// The least of them. One of no bytes comes before all keys.
        from: Vec<u8>,
        /// What they begin with.
        prefix: Vec<u8>,
        values: bool,
    },
    /// To tell how full the store of a file is.
    Stat {
        path: &'a str,
    },
    /// To make the store of a file one of version 2.
    Upgrade {
        path: &'a str,
    },
}

/// The words of the command line. One that is no UTF-8 text is invalid data.
pub fn words(rt: &(impl Env + AllocGlobal)) -> io::Result<Vec<String>> {
    let words = std::env::args(rt)?.collect(rt.alloc())?;
    Ok(words)
}

// The arguments.

fn blocks<'a>(alloc: Global) -> Arg<'a> {
    Arg::new(alloc, "blocks")
        .long("blocks")
        .value_name("N")
        .help("How many blocks of zeros there are, 1 to 4096")
        .value_parser(value_parser!(u32).range(1..=MAX_BLOCKS as i64))
        .default_value(DEFAULT_BLOCKS)
}

fn file<'a>(alloc: Global) -> Arg<'a> {
    Arg::new(alloc, "file")
        .value_name("FILE")
        .help("The file of the store")
        .required(true)
}

fn index<'a>(alloc: Global) -> Arg<'a> {
    Arg::new(alloc, "index")
        .long("index")
        .value_name("N")
        .help("How many index blocks there are, 1 to 16, each with room for 64 keys")
        .value_parser(value_parser!(u32).range(1..=16))
        .required(true)
}

fn extents<'a>(alloc: Global) -> Arg<'a> {
    Arg::new(alloc, "extents")
        .long("extents")
        .value_name("M")
        .help("How many extents there are, 2 to 254")
        .value_parser(value_parser!(u32).range(2..=254))
        .required(true)
}

fn length<'a>(alloc: Global) -> Arg<'a> {
    Arg::new(alloc, "length")
        .long("length")
        .value_name("X")
        .help("How many blocks an extent has, 16 to 64: makes a disk of version 2")
        .value_parser(value_parser!(u32).range(16..=64))
}

fn writers<'a>(alloc: Global) -> Arg<'a> {
    Arg::new(alloc, "writers")
        .long("writers")
        .value_name("N")
        .help(
            "How many writers have a thread each, 1 to 8; without it one thread answers all lines",
        )
        .value_parser(value_parser!(u32).range(1..=8))
}

fn no_barriers<'a>(alloc: Global) -> Arg<'a> {
    Arg::new(alloc, "no-barriers")
        .long("no-barriers")
        .help(
            "Syncs the file once, behind all writes of a sync: faster, and safe against a crash of the program, but not a cut of the power",
        )
        .action(ArgAction::SetTrue)
}

fn reclaim<'a>(alloc: Global) -> Result<Arg<'a>, Error> {
    let reclaim = Arg::new(alloc, "reclaim")
        .long("reclaim")
        .help(
            "Lets puts win the room of extents back by themselves, where none has room; not with --writers",
        )
        .action(ArgAction::SetTrue);
    Ok(reclaim.conflicts_with("writers")?)
}

fn from<'a>(alloc: Global) -> Arg<'a> {
    Arg::new(alloc, "from").long("from").value_name("KEY").help(
        "Lists the keys from this one on, 1 to 32 bytes in hexadecimal",
    )
}

fn prefix<'a>(alloc: Global) -> Arg<'a> {
    Arg::new(alloc, "prefix")
        .long("prefix")
        .value_name("KEY")
        .help("Lists the keys that begin with this, 1 to 32 bytes in hexadecimal")
}

fn values<'a>(alloc: Global) -> Arg<'a> {
    Arg::new(alloc, "values")
        .long("values")
        .help("Writes the value of each key behind its length, in hexadecimal")
        .action(ArgAction::SetTrue)
}

// The commands.

fn named<'a>(alloc: Global, name: &'a str, about: &'a str, after_help: &'a str) -> Command<'a> {
    Command::new(alloc, name)
        .about(about)
        .after_help(after_help)
}

/// The command with one argument more.
fn with<'a>(command: Result<Command<'a>, Error>, argument: Arg<'a>) -> Result<Command<'a>, Error> {
    Ok(command?.arg(argument)?)
}

/// The program with one command more.
fn and<'a>(
    program: Result<Command<'a>, Error>,
    command: Result<Command<'a>, Error>,
) -> Result<Command<'a>, Error> {
    let command = command?;
    Ok(program?.subcommand(command)?)
}

fn replay_command<'a>(alloc: Global) -> Result<Command<'a>, Error> {
    let about =
        "Replays a script of patches, sends and views from standard input, on blocks of zeros";
    let command = named(alloc, "replay", about, AFTER_REPLAY);
    with(Ok(command), blocks(alloc))
}

fn make_command<'a>(alloc: Global) -> Result<Command<'a>, Error> {
    let about = "Makes a file that holds an empty store, where there is nothing of its name";
    let command = named(alloc, "make", about, AFTER_MAKE);
    let command = with(Ok(command), file(alloc));
    let command = with(command, index(alloc));
    let command = with(command, extents(alloc));
    with(command, length(alloc))
}

fn run_command<'a>(alloc: Global) -> Result<Command<'a>, Error> {
    let about =
        "Runs a script of puts, gets and deletes from standard input on the store of a file";
    let command = named(alloc, "run", about, AFTER_RUN);
    let command = with(with(Ok(command), file(alloc)), writers(alloc));
    let command = with(command, reclaim(alloc)?);
    with(command, no_barriers(alloc))
}

fn check_command<'a>(alloc: Global) -> Result<Command<'a>, Error> {
    let about = "Opens the store of a file, and reports what it holds; writes nothing to it";
    let command = named(alloc, "check", about, AFTER_CHECK);
    with(Ok(command), file(alloc))
}

fn list_command<'a>(alloc: Global) -> Result<Command<'a>, Error> {
    let about =
        "Lists the keys of the store of a file, in the order of bytes; writes nothing to it";
    let command = named(alloc, "list", about, AFTER_LIST);
    let command = with(with(Ok(command), file(alloc)), from(alloc));
    with(with(command, prefix(alloc)), values(alloc))
}

fn stat_command<'a>(alloc: Global) -> Result<Command<'a>, Error> {
    let about = "Tells how full the store of a file is; writes nothing to it";
    let command = named(alloc, "stat", about, AFTER_STAT);
    with(Ok(command), file(alloc))
}

fn upgrade_command<'a>(alloc: Global) -> Result<Command<'a>, Error> {
    let about = "Makes the store of a file one of version 2, which takes longer values";
    let command = named(alloc, "upgrade", about, AFTER_UPGRADE);
    with(Ok(command), file(alloc))
}

fn program<'a>(alloc: Global) -> Result<Command<'a>, Error> {
    let about =
        "Keeps keys and values in a file that opens after every crash, and replays scripts of patches";
    let program = named(alloc, "fstch", about, AFTER_HELP).version("0.1.0");
    Ok(program.bin_name("fstch")?.subcommand_required(true))
}

fn command<'a>(alloc: Global) -> Result<Command<'a>, Error> {
    let program = and(program(alloc), make_command(alloc));
    let program = and(program, run_command(alloc));
    let program = and(program, check_command(alloc));
    let program = and(program, list_command(alloc));
    let program = and(program, stat_command(alloc));
    let program = and(program, upgrade_command(alloc));
    and(program, replay_command(alloc))
}

// What was asked for.

/// The file that a command names. There is one, since the parser of the words refuses a command without.
fn path_in<'a>(matches: &ArgMatches<'a>) -> &'a str {
    matches.get_str("file").unwrap_or("")
}

fn geometry_in(matches: &ArgMatches<'_>) -> Geometry {
    let format = match matches.get_one::<u32>("length") {
        Some(length) => Format::Two { length },
        None => Format::One,
    };
    Geometry {
        index: matches.get_one::<u32>("index").unwrap_or(1),
        extents: matches.get_one::<u32>("extents").unwrap_or(2),
        format,
    }
}

fn writers_in(matches: &ArgMatches<'_>) -> Option<u32>
    ensures { IfSome result AreWriters }
{
    // The parser of the words refuses every other number.
    let writers = matches.get_one::<u32>("writers")?;
    Some(writers.clamp(1, 8))
}

fn barriers_in(matches: &ArgMatches<'_>) -> Barriers {
    if matches.get_flag("no-barriers") {
        return Barriers::Off;
    }
    Barriers::On
}

fn reclaims_in(matches: &ArgMatches<'_>) -> Reclaims {
    if matches.get_flag("reclaim") {
        return Reclaims::ByItself;
    }
    Reclaims::ByHand
}

fn replay_in<'a>(matches: &ArgMatches<'_>) -> Request<'a>
    ensures { MayBeAsked result }
{
    // There is a number, since there is a default, and the parser of the words refuses every other one.
    let blocks = matches.get_one::<u32>("blocks").unwrap_or(1);
    Request::Replay {
        blocks: blocks.clamp(1, MAX_BLOCKS as u32),
    }
}

fn request_in<'a>(name: &str, matches: &ArgMatches<'a>) -> Request<'a>
    ensures { MayBeAsked result }
{
    match name {
        "make" => Request::Make {
            path: path_in(matches),
            geometry: geometry_in(matches),
        },
        "run" => Request::Run {
            path: path_in(matches),
            writers: writers_in(matches),
            barriers: barriers_in(matches),
            reclaims: reclaims_in(matches),
        },
        "check" => Request::Check {
            path: path_in(matches),
        },
        "stat" => Request::Stat {
            path: path_in(matches),
        },
        "upgrade" => Request::Upgrade {
            path: path_in(matches),
        },
        _ => replay_in(matches),
    }
}

/// The error of a text that is no key.
fn no_key(alloc: Global, argument: &str, text: &str) -> Result<Error, Error> {
    let why = format!(in alloc;
        "invalid value '{text}' for '--{argument} <KEY>': a key has 1 to 32 bytes, in hexadecimal"
    )?;
    let mut command = list_command(alloc)?.bin_name("fstch list")?;
    Ok(command.error(ErrorKind::ValueValidation, why.as_str())?)
}

/// The key that an argument names, or no bytes where it isn't given.
fn key_in(alloc: Global, matches: &ArgMatches<'_>, argument: &str) -> Result<Vec<u8>, Error>
    ensures { IfOk result (λ key. IsKey key.items) }
{
    let Some(text) = matches.get_str(argument) else {
        return Ok(Vec::new(alloc));
    };
    match hex::decode(alloc, text) {
        Ok(key) if 0 < key.len() && key.len() <= MAX_KEY => Ok(key),
        Err(FromHexError::OutOfMemory) => Err(Error::from(AllocError)),
        _ => Err(no_key(alloc, argument, text)?),
    }
}

fn list_in<'a>(alloc: Global, matches: &ArgMatches<'a>) -> Result<Request<'a>, Error>
    ensures { IfOk result MayBeAsked }
{
    Ok(Request::List {
        path: path_in(matches),
        from: key_in(alloc, matches, "from")?,
        prefix: key_in(alloc, matches, "prefix")?,
        values: matches.get_flag("values"),
    })
}

/// What the words ask for. What asks for help is an error too: its text is the help.
pub fn read<'a>(alloc: Global, words: &'a [String]) -> Result<Request<'a>, Error>
    ensures { IfOk result MayBeAsked }
{
    let command = command(alloc)?;
    let matches = command.try_get_matches_from(words)?;
    match matches.subcommand() {
        Some(("list", matches)) => list_in(alloc, matches),
        Some((name, matches)) => Ok(request_in(name, matches)),
        None => Ok(Request::Replay { blocks: 1 }),
    }
}
