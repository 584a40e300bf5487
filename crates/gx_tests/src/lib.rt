//! Tests by public calls of what no contract says. Random runs, and what no contract says of devices, records, frames,
//! the log and the index, are lines of `stdin` of the programs named `_runs`.
#![tactic(auto)]

#[cfg(test)]
mod analyses;
#[cfg(test)]
mod asserts;
#[cfg(test)]
mod boxes;
#[cfg(test)]
mod claims;
#[cfg(test)]
mod classes;
#[cfg(test)]
mod faults;
#[cfg(test)]
mod formats;
#[cfg(test)]
mod images;
#[cfg(test)]
mod intervals;
#[cfg(test)]
mod large;
#[cfg(test)]
mod memory;
#[cfg(test)]
mod nodes;
#[cfg(test)]
mod pages;
#[cfg(test)]
mod plain;
#[cfg(test)]
mod queues;
#[cfg(test)]
mod reaches;
#[cfg(test)]
mod records;
#[cfg(test)]
mod scripts;
#[cfg(test)]
mod small;
#[cfg(test)]
mod solid_scripts;
#[cfg(test)]
mod solids;
#[cfg(test)]
mod trees;
