//! What the arguments ask for, read from clap's matches.
ghost use Rattle.std.specs.Prelude.{◌≡◌, codes, ℕ};
ghost use Rattle.clap.specs.Words.{found_of, rows_of, subcommand_rows_of};
ghost use Rattle.gx_words.specs.Asking.{IsAccepted, IsNumber, IsOfClass, HasClass, HasFormat, HasRun};
ghost use Rattle.gx_words.specs.Asking.{HasDump, HasMigrate, HasStorm, Asks, IsAsked, IsWhole, class_word};
ghost use Rattle.gx_words.specs.declared.asking.Dimensions.{Dimensions};

use clap::ArgMatches;

/// How many dimensions the boxes of an index have.
#[derive(Clone, Copy, Debug, PartialEq, Eq)]
pub enum Dimensions {
    /// Boxes of the plane, class 1.
    Two,
    /// Boxes of space, class 3.
    Three,
}

/// What the arguments ask for.
#[derive(Clone, Copy, Debug, PartialEq, Eq)]
pub enum AskedCommand<'a> {
    /// A script on an index in memory.
    Plain {
        /// The boxes of the index.
        dimensions: Dimensions,
    },
    /// A new index on a file.
    Format {
        /// The file's path.
        file: &'a str,
        /// How many pages, 8 to 65,536.
        pages: u32,
        /// How many entries a node may have, 4 to 100.
        most: u16,
        /// The boxes of the index.
        dimensions: Dimensions,
    },
    /// A script on the index of a file.
    Run {
        /// The file's path.
        file: &'a str,
        /// How many pages are held in memory, 16 to 4,096.
        frames: usize,
    },
    /// The tree of a file's index.
    Dump {
        /// The file's path.
        file: &'a str,
    },
    /// Whether a file's index is sound, and what it holds.
    Verify {
        /// The file's path.
        file: &'a str,
    },
    /// The index of a file of the format's first version, laid down in another file.
    Migrate {
        /// The path of the file of the first version.
        old: &'a str,
        /// The path of the other file.
        new: &'a str,
        /// How many pages are held in memory, 16 to 4,096.
        frames: usize,
    },
    /// Sessions in threads that make random calls, on an index in memory.
    Storm {
        /// The seed of the random calls.
        seed: u32,
        /// How many sessions, 1 to 8.
        sessions: u8,
        /// How many calls each makes, 1 to 2,000.
        calls: u32,
    },
}

/// What the arguments with these matches ask for.
pub(crate) fn what_is_asked<'a>(found: &ArgMatches<'a>) -> AskedCommand<'a>
    requires { IsWhole (subcommand_rows_of found.now) }
    ensures { IsAsked (subcommand_rows_of found.now) result }
{
    match found.subcommand() {
        Some(("format", given)) => format_of(given),
        Some(("run", given)) => run_of(given),
        Some(("dump", given)) => dump_of(given),
        Some(("verify", given)) => verify_of(given),
        Some(("migrate", given)) => migrate_of(given),
        Some(("storm", given)) => storm_of(given),
        Some((_, given)) => plain_of(given),
        None => unreachable!(),
    }
}

// The arguments of `plain`.
fn plain_of<'a>(given: &ArgMatches<'a>) -> AskedCommand<'a>
    requires { HasClass (rows_of (found_of given.now)) }
    ensures { Asks (codes "plain") (rows_of (found_of given.now)) result }
{
    AskedCommand::Plain {
        dimensions: dimensions_of(given),
    }
}

// The arguments of `format`.
fn format_of<'a>(given: &ArgMatches<'a>) -> AskedCommand<'a>
    requires { HasFormat (rows_of (found_of given.now)) }
    ensures { Asks (codes "format") (rows_of (found_of given.now)) result }
{
    AskedCommand::Format {
        file: given.get_str("FILE").unwrap(),
        pages: number(given, "PAGES"),
        most: number(given, "M") as u16,
        dimensions: dimensions_of(given),
    }
}

// The arguments of `run`.
fn run_of<'a>(given: &ArgMatches<'a>) -> AskedCommand<'a>
    requires { HasRun (rows_of (found_of given.now)) }
    ensures { Asks (codes "run") (rows_of (found_of given.now)) result }
{
    AskedCommand::Run {
        file: given.get_str("FILE").unwrap(),
        frames: frames_of(given),
    }
}

// The arguments of `dump`.
fn dump_of<'a>(given: &ArgMatches<'a>) -> AskedCommand<'a>
    requires { HasDump (rows_of (found_of given.now)) }
    ensures { Asks (codes "dump") (rows_of (found_of given.now)) result }
{
    AskedCommand::Dump {
        file: given.get_str("FILE").unwrap(),
    }
}

// The arguments of `verify`.
fn verify_of<'a>(given: &ArgMatches<'a>) -> AskedCommand<'a>
    requires { HasDump (rows_of (found_of given.now)) }
    ensures { Asks (codes "verify") (rows_of (found_of given.now)) result }
{
    AskedCommand::Verify {
        file: given.get_str("FILE").unwrap(),
    }
}

// The arguments of `migrate`.
fn migrate_of<'a>(given: &ArgMatches<'a>) -> AskedCommand<'a>
    requires { HasMigrate (rows_of (found_of given.now)) }
    ensures { Asks (codes "migrate") (rows_of (found_of given.now)) result }
{
    AskedCommand::Migrate {
        old: given.get_str("OLD").unwrap(),
        new: given.get_str("NEW").unwrap(),
        frames: frames_of(given),
    }
}

// The arguments of `storm`.
fn storm_of<'a>(given: &ArgMatches<'a>) -> AskedCommand<'a>
    requires { HasStorm (rows_of (found_of given.now)) }
    ensures { Asks (codes "storm") (rows_of (found_of given.now)) result }
{
    AskedCommand::Storm {
        seed: number(given, "SEED"),
        sessions: number(given, "SESSIONS") as u8,
        calls: number(given, "CALLS"),
    }
}

// The boxes of the class that is given.
fn dimensions_of(given: &ArgMatches) -> Dimensions
    requires { HasClass (rows_of (found_of given.now)) }
    ensures { IsOfClass (rows_of (found_of given.now)) result }
{
    dimensions_named(given.get_str("class").unwrap())
}

// The boxes of the class with this name.
fn dimensions_named(word: &str) -> Dimensions
    requires { (known : Dimensions) × (class_word known ≡ word.now) }
    ensures { class_word result ≡ word.now }
{
    if word == "3" {
        Dimensions::Three
    } else {
        Dimensions::Two
    }
}

// How many pages are to be held in memory.
fn frames_of(given: &ArgMatches) -> usize
    requires { IsAccepted (rows_of (found_of given.now)) (codes "frames") 16 4096 }
    ensures { IsNumber (rows_of (found_of given.now)) (codes "frames") 16 4096 result }
{
    number(given, "frames") as usize
}

// The number under this name, which passed clap's test for one.
fn number(given: &ArgMatches, name: &str) -> u32
    requires { (lowest : ℕ) × (highest : ℕ) × IsAccepted (rows_of (found_of given.now)) name.now lowest highest }
    ensures { (lowest highest : ℕ) → IsAccepted (rows_of (found_of given.now)) name.now lowest highest
        → IsNumber (rows_of (found_of given.now)) name.now lowest highest result }
{
    given.get_one::<u32>(name).unwrap()
}
