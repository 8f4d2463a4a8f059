//! Lines of named values, as `add end=A amount=5000 expiry=400`, by which the programs of tests are driven: a word for
//! what is to be done, and after it words NAME=VALUE in any order. A line gives each name that it needs one value, and
//! names no other but those that it may leave out.
#![tactic(auto)]

mod fault;
mod names;
mod words;

pub use fault::{FaultKind, LineFault};
pub use names::{Names, first_fault};
pub use words::{number_in, number_of, number_or, value_of, words_of};
