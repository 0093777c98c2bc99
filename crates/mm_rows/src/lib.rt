//! Tests over the whole library: a session, the failing outside, the height of a proof, and calls that take memory and
//! that no session reaches. Sessions of the built program are the golden transcripts of the repository.
#![tactic(auto)]

#[cfg(test)]
mod calls;
pub mod databases;
#[cfg(test)]
mod height;
#[cfg(test)]
mod outside;
#[cfg(test)]
mod proving;
#[cfg(test)]
mod session;
