//! Benchmarks of the index's parts, each beside the same in plain C.
//!
//! The arguments are a benchmark (`claims`, `pool`, `log`, `tree`, `space` for a tree of boxes of space, or `index`),
//! what is asked of it and how often, as its module says. A sum of what was done is printed, or in place of `index` a
//! count of it is named. With the argument `all` alone a little of each is asked, and each sum is printed with its
//! arguments.
#![tactic(auto)]

mod claims;
mod drawn;
mod index;
mod leaves;
mod log;
mod numbers;
mod pool;
mod tree;

use gx_class::{Box2Class, Box3Class};
use std::fs::{File, Files, remove_file};
use std::process::ExitCode;
use std::rt::Env;

/// A little of each: two arguments, and how often.
const ALL: [(&str, &str, u64); 21] = [
    ("claims", "claims", 1000),
    ("claims", "searches", 1000),
    ("pool", "hits", 1000),
    ("pool", "misses", 1000),
    ("log", "commit", 1),
    ("log", "notes", 1),
    ("log", "leaves", 1),
    ("tree", "inserts", 3000),
    ("tree", "pages", 3000),
    ("tree", "queries", 100),
    ("tree", "marks", 100),
    ("space", "inserts", 3000),
    ("space", "pages", 3000),
    ("space", "queries", 100),
    ("index", "inserts", 3000),
    ("index", "queries", 100),
    ("index", "marks", 100),
    ("index", "undo", 30),
    ("index", "commits", 100),
    ("moves", "inserts", 3000),
    ("bytes", "commits", 100),
];

/// A benchmark, and what is asked of it.
#[derive(Clone, Copy)]
enum Benchmark {
    Claims(claims::Kind),
    Pool(pool::Kind),
    Log(log::Kind),
    Tree(tree::Kind),
    Space(tree::Kind),
    Index(index::Told, index::Kind),
}

/// What the arguments ask for.
#[derive(Clone, Copy)]
enum Task {
    All,
    One(Benchmark, u64),
}

impl Benchmark {
    /// The benchmark that two arguments name.
    fn named(benchmark: &str, kind: &str) -> Option<Benchmark> {
        match benchmark {
            "claims" => Some(Benchmark::Claims(claims::Kind::named(kind)?)),
            "pool" => Some(Benchmark::Pool(pool::Kind::named(kind)?)),
            "log" => Some(Benchmark::Log(log::Kind::named(kind)?)),
            "tree" => Some(Benchmark::Tree(tree::Kind::named(kind)?)),
            "space" => Some(Benchmark::Space(tree::Kind::named(kind)?)),
            _ => Some(Benchmark::Index(index::Told::named(benchmark)?, index::Kind::named(kind)?)),
        }
    }

    /// Does so often what is asked, and returns the sum. `None` if memory is refused or a file fails.
    fn run<R: AllocGlobal + Files<File = File>>(self, rt: &R, count: u64) -> Option<u64> {
        match self {
            Benchmark::Claims(kind) => claims::run(rt.alloc(), kind, count),
            Benchmark::Pool(kind) => pool::run(rt, kind, count),
            Benchmark::Log(kind) => log::run(rt, kind, count),
            Benchmark::Tree(kind) => tree::run::<Box2Class>(rt.alloc(), kind, count),
            Benchmark::Space(kind) => tree::run::<Box3Class>(rt.alloc(), kind, count),
            Benchmark::Index(told, kind) => index::run(rt.alloc(), told, kind, count),
        }
    }
}

/// What the arguments ask for.
fn asked<R: Env + AllocGlobal>(rt: &R) -> Option<Task> {
    let mut words = std::env::args(rt).ok()?;
    let _ = words.next()?;
    let name = words.next()?;
    if name.as_str() == "all" {
        return Some(Task::All);
    }
    let kind = words.next()?;
    let benchmark = Benchmark::named(name.as_str(), kind.as_str())?;
    let count = words.next()?.as_str().parse::<u64>().ok()?;
    Some(Task::One(benchmark, count))
}

/// Asks a little of each, prints the sums, and removes the files.
fn run_all<R: AllocGlobal + Files<File = File> + Print>(rt: &R) -> Option<()> {
    for (name, kind, count) in ALL {
        let sum = Benchmark::named(name, kind)?.run(rt, count)?;
        println!(rt; "{name} {kind} {count}: {sum}").ok()?;
    }
    remove_file(rt, pool::FILE).ok()?;
    remove_file(rt, log::FILE).ok()
}

/// Does what is asked, and prints it.
fn run<R: AllocGlobal + Files<File = File> + Print>(rt: &R, task: Task) -> Option<()> {
    match task {
        Task::All => run_all(rt),
        Task::One(benchmark, count) => {
            let sum = benchmark.run(rt, count)?;
            println!(rt; "{sum}").ok()
        }
    }
}

fn main(rt: HostRuntime) -> ExitCode {
    let Some(task) = asked(&rt) else {
        return ExitCode::from(2);
    };
    match run(&rt, task) {
        Some(()) => ExitCode::from(0),
        None => ExitCode::from(1),
    }
}
