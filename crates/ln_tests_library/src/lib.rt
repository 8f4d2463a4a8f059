//! Tests of the library for other languages: values as bytes that were written by hand.
#![tactic(auto)]

mod rows;
#[cfg(test)]
mod tests;

pub use rows::{Part, bytes_of};
