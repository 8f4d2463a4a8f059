//! A text on one line.

use std::fmt;
use std::fmt::{Display, Formatter};

/// Shows the lines of a text, with a comma and a space between. Takes no memory.
#[derive(Clone, Copy)]
pub(crate) struct OneLine<'a>(pub(crate) &'a str);

impl Display for OneLine<'_> {
    ghost use Rattle.std.specs.Prelude.{Some};
    ghost use Rattle.ln_trace.specs.Steps.{one_line};

    ghost output = { λ it. Some (one_line it.0.now) };

    fn fmt<W: fmt::Write>(&self, f: &mut Formatter<W>) -> fmt::Result {
        let mut between = "";
        for line in self.0.lines() {
            f.write_str(between)?;
            f.write_str(line)?;
            between = ", ";
        }
        Ok(())
    }
}
