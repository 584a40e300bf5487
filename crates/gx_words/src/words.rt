//! The program's commands and their arguments, with their help texts.
ghost use Rattle.std.specs.Prelude.{◌≡◌, map, codes, IfOk, IfErr};
ghost use Rattle.clap.specs.Words.{app_of, new_app};
ghost use Rattle.gx_words.specs.Asking.{IsErrorOf, WordsAsk};
ghost use Rattle.gx_words.specs.Program.{gist_app, with_required, plain_app, format_app, run_app, dump_app};
ghost use Rattle.gx_words.specs.Program.{verify_app, migrate_app, storm_app, wanted_rule, number_rule, frames_rule};
ghost use Rattle.gx_words.specs.Program.{class_rule, AreClasses, Is, IsRule};

use crate::asking::{AskedCommand, what_is_asked};
use clap::builder::ValueParser;
use clap::{Arg, Command, Error, value_parser};
use std::alloc::{AllocError, Global};
use std::convert::AsStr;

/// What a script looks like.
const SCRIPT: &str =
    "Two lines of a script, in which session 1 begins a transaction and inserts row 7 with the box from (0, 0) to (10, 10):\n\n1 BEGIN\n1 INSERT 7 0 0 10 10\n\nOf boxes of space, --class 3, a line has six corners: X1 Y1 Z1 X2 Y2 Z2. docs/SCRIPT.md has all lines, replies and refusals.";

/// How a file is formatted.
const FORMAT: &str =
    "A new index in the file places.gist, for 4,096 pages with up to 100 entries in a node:\n\ngist format places.gist 4096 100\n\nThe file gets some 19 MB then. Which boxes its index is of is in it: no other command has to say so. docs/SCRIPT.md has the refusals.";

/// How a script is run on a file.
const RUN: &str =
    "The script in the file changes, on the index that places.gist holds:\n\ngist run places.gist < changes\n\nWhat was answered as committed is in the file from then on. docs/SCRIPT.md has all lines, replies and refusals.";

/// How a tree is dumped.
const DUMP: &str =
    "The tree of the index in the file places.gist, page by page:\n\ngist dump places.gist\n\ndocs/SCRIPT.md has its lines and the refusals.";

/// How an index is verified.
const VERIFY: &str =
    "Whether the index in the file places.gist is sound, and what it holds; the file stays as it is:\n\ngist verify places.gist\n\ndocs/SCRIPT.md has the line and the refusals.";

/// How an index of the first version is brought into a file of this one.
const MIGRATE: &str =
    "The index of the first version in the file places.old, in the file places.gist as one of this version; places.old stays as it is:\n\ngist migrate places.old places.gist\n\nplaces.gist is made if it isn't there, and what it held is lost. docs/SCRIPT.md has the line and the refusals, docs/OPERATING.md the whole way.";

/// What a storm is.
const STORM: &str =
    "Four sessions in threads, each of which makes 200 random calls by the seed 1; a plain index replays what they asked and were answered:\n\ngist storm 1 4 200\n\nIt touches no file. docs/SCRIPT.md has what it prints.";

/// The program: it calls itself `gist`, whatever its file is called, and needs a command.
fn program<'a>(alloc: Global) -> Result<Command<'a>, AllocError>
    ensures { IfOk result (λ command. app_of command ≡ with_required (new_app (codes "gist"))) }
{
    Command::new(alloc, "gist")
        .about("A spatial index")
        .subcommand_required(true)
        .bin_name("gist")
}

fn plain<'a>(alloc: Global, classes: &'a [&'a str]) -> Result<Command<'a>, AllocError>
    ensures { IfOk result (Is (plain_app classes.entry)) }
{
    Command::new(alloc, "plain")
        .about("Reads a script from standard input, and prints what an index in memory replies")
        .after_help(SCRIPT)
        .arg(class(alloc, classes))
}

fn format<'a>(alloc: Global, classes: &'a [&'a str]) -> Result<Command<'a>, AllocError>
    ensures { IfOk result (Is (format_app classes.entry)) }
{
    Command::new(alloc, "format")
        .about("Lays a new index down in a file; what the file held is lost")
        .after_help(FORMAT)
        .arg(file(alloc))?
        .arg(pages(alloc))?
        .arg(most(alloc))?
        .arg(class(alloc, classes))
}

fn run<'a>(alloc: Global) -> Result<Command<'a>, AllocError>
    ensures { IfOk result (Is run_app) }
{
    Command::new(alloc, "run")
        .about("Reads a script from standard input, and prints what the index in a file replies")
        .after_help(RUN)
        .arg(file(alloc))?
        .arg(frames(alloc))
}

fn dump<'a>(alloc: Global) -> Result<Command<'a>, AllocError>
    ensures { IfOk result (Is dump_app) }
{
    Command::new(alloc, "dump")
        .about("Prints the tree of the index in a file, a line for each page and each entry")
        .after_help(DUMP)
        .arg(file(alloc))
}

fn verify<'a>(alloc: Global) -> Result<Command<'a>, AllocError>
    ensures { IfOk result (Is verify_app) }
{
    Command::new(alloc, "verify")
        .about("Tests the index in a file, and prints what it holds; writes nothing")
        .after_help(VERIFY)
        .arg(file(alloc))
}

fn migrate<'a>(alloc: Global) -> Result<Command<'a>, AllocError>
    ensures { IfOk result (Is migrate_app) }
{
    Command::new(alloc, "migrate")
        .about("Makes an index of this version, in another file, of one of the first version")
        .after_help(MIGRATE)
        .arg(old(alloc))?
        .arg(new(alloc))?
        .arg(frames(alloc))
}

fn storm<'a>(alloc: Global) -> Result<Command<'a>, AllocError>
    ensures { IfOk result (Is storm_app) }
{
    Command::new(alloc, "storm")
        .about(
            "Runs sessions in threads on an index in memory, and replays what they were answered",
        )
        .after_help(STORM)
        .arg(seed(alloc))?
        .arg(sessions(alloc))?
        .arg(calls(alloc))
}

fn file<'a>(alloc: Global) -> Arg<'a>
    ensures { IsRule (wanted_rule (codes "FILE")) result }
{
    Arg::new(alloc, "FILE")
        .required(true)
        .help("The file that holds the index")
}

fn old<'a>(alloc: Global) -> Arg<'a>
    ensures { IsRule (wanted_rule (codes "OLD")) result }
{
    Arg::new(alloc, "OLD").required(true).help(
        "The file that holds the index of the first version; it is only read",
    )
}

fn new<'a>(alloc: Global) -> Arg<'a>
    ensures { IsRule (wanted_rule (codes "NEW")) result }
{
    Arg::new(alloc, "NEW").required(true).help(
        "Another file, for the index of this version; what it held is lost",
    )
}

fn pages<'a>(alloc: Global) -> Arg<'a>
    ensures { IsRule (number_rule (codes "PAGES") 8 65536) result }
{
    Arg::new(alloc, "PAGES")
        .required(true)
        .value_parser(value_parser!(u32).range(8..=65536))
        .help("How many pages it may have, 8 to 65536")
}

fn most<'a>(alloc: Global) -> Arg<'a>
    ensures { IsRule (number_rule (codes "M") 4 100) result }
{
    Arg::new(alloc, "M")
        .required(true)
        .value_parser(value_parser!(u32).range(4..=100))
        .help("How many entries a node of its tree may have, 4 to 100")
}

fn seed<'a>(alloc: Global) -> Arg<'a>
    ensures { IsRule (number_rule (codes "SEED") 0 4294967295) result }
{
    Arg::new(alloc, "SEED")
        .required(true)
        .value_parser(value_parser!(u32).range(0..=4294967295))
        .help("The seed of the random calls, 0 to 4294967295")
}

fn sessions<'a>(alloc: Global) -> Arg<'a>
    ensures { IsRule (number_rule (codes "SESSIONS") 1 8) result }
{
    Arg::new(alloc, "SESSIONS")
        .required(true)
        .value_parser(value_parser!(u32).range(1..=8))
        .help("How many sessions, 1 to 8")
}

fn calls<'a>(alloc: Global) -> Arg<'a>
    ensures { IsRule (number_rule (codes "CALLS") 1 2000) result }
{
    Arg::new(alloc, "CALLS")
        .required(true)
        .value_parser(value_parser!(u32).range(1..=2000))
        .help("How many calls each session makes, 1 to 2000")
}

fn frames<'a>(alloc: Global) -> Arg<'a>
    ensures { IsRule frames_rule result }
{
    Arg::new(alloc, "frames")
        .long("frames")
        .value_name("N")
        .value_parser(value_parser!(u32).range(16..=4096))
        .default_value("64")
        .help("How many of its pages are held in memory at once, 16 to 4096")
}

fn class<'a>(alloc: Global, classes: &'a [&'a str]) -> Arg<'a>
    ensures { IsRule (class_rule classes.entry) result }
{
    Arg::new(alloc, "class")
        .long("class")
        .value_name("C")
        .value_parser(ValueParser::Names(classes))
        .default_value("1")
        .help("Of which boxes the index is: 1, of the plane; 3, of space")
}

// The names of classes of keys.
fn classes<'a>() -> &'a [&'a str]
    ensures { AreClasses result }
{
    &["1", "3"]
}

/// The command by which clap reads the arguments, with these names for classes of keys.
fn command<'a>(alloc: Global, classes: &'a [&'a str]) -> Result<Command<'a>, AllocError>
    ensures { IfOk result (λ command. app_of command ≡ gist_app classes.entry) }
{
    program(alloc)?
        .subcommand(plain(alloc, classes)?)?
        .subcommand(format(alloc, classes)?)?
        .subcommand(run(alloc)?)?
        .subcommand(dump(alloc)?)?
        .subcommand(verify(alloc)?)?
        .subcommand(migrate(alloc)?)?
        .subcommand(storm(alloc)?)
}

/// Reads the arguments, the program's own name first: returns what they ask for, or what is wrong with them.
pub fn read<'a, S: AsStr>(alloc: Global, words: &'a [S]) -> Result<AskedCommand<'a>, Error>
    ensures asked { IfOk result (WordsAsk (map S.text words.now)) }
    ensures wrong { IfErr result (IsErrorOf (map S.text words.now)) }
{
    let command = command(alloc, classes())?;
    match command.try_get_matches_from(words) {
        Ok(found) => Ok(what_is_asked(&found)),
        Err(error) => Err(error),
    }
}
