//! Tests by public calls of the layers of an index in a file: a store of pages, the test of a tree, an engine's
//! sessions, openings, scripts and dumps over a device, and the program's commands.
#![tactic(auto)]

#[cfg(test)]
mod asserts;
#[cfg(test)]
mod device_commands;
#[cfg(test)]
mod devices;
#[cfg(test)]
mod dumps;
#[cfg(test)]
mod ended;
#[cfg(test)]
mod full;
#[cfg(test)]
mod imaged;
#[cfg(test)]
mod legality;
#[cfg(test)]
mod life;
#[cfg(test)]
mod openings;
#[cfg(test)]
mod passes;
#[cfg(test)]
mod plain_commands;
#[cfg(test)]
mod readings;
#[cfg(test)]
mod records;
#[cfg(test)]
mod scripts;
#[cfg(test)]
mod sessions;
#[cfg(test)]
mod space;
#[cfg(test)]
mod stores;
#[cfg(test)]
mod verified;
