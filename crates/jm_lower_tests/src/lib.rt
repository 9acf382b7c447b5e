//! The tests of the crates that know nothing of the outside: what neither their clauses say nor a
//! line of jm_call_cases shows.
#![tactic(auto)]

#[cfg(test)]
mod descriptors;
#[cfg(test)]
mod meeting;
#[cfg(test)]
mod packed;
#[cfg(test)]
mod pieces;
#[cfg(test)]
mod plugins;
#[cfg(test)]
mod pools;
#[cfg(test)]
mod words_and_texts;
#[cfg(test)]
mod zips;
