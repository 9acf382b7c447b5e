//! The tests of the upper crates, of what no line of a case shows: shelves and streams, of memory
//! and of the system, and that two pieces of a run work side by side.
#![tactic(auto)]

#[cfg(test)]
mod calls;
#[cfg(test)]
mod changing;
#[cfg(test)]
mod gate;
#[cfg(test)]
mod runs;
#[cfg(test)]
mod shelves;
#[cfg(test)]
mod streams;
#[cfg(test)]
mod system;
#[cfg(test)]
mod told;
