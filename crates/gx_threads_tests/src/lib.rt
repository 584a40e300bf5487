//! Tests of sessions in threads over the engine of pages and a log: sessions that keep the replies that they got, calls
//! that are held between two events, and random calls. The functions that run the threads take any engine of events.
#![tactic(auto)]

#[cfg(test)]
mod asserts;
#[cfg(test)]
mod callers;
#[cfg(test)]
mod draws;
#[cfg(test)]
mod flushed;
#[cfg(test)]
mod fresh;
#[cfg(test)]
mod held;
#[cfg(test)]
mod holds;
#[cfg(test)]
mod known;
#[cfg(test)]
mod records;
#[cfg(test)]
mod runs;
#[cfg(test)]
mod stormed;
#[cfg(test)]
mod watched;
