//! The commands of the program: texts in, texts out.

pub(crate) mod choice;
pub(crate) mod commands;
pub(crate) mod input;
pub(crate) mod program_error;
pub(crate) mod text;
