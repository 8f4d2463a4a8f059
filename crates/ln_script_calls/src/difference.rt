//! Where two texts differ.

ghost use Rattle.std.specs.Prelude.{◌≡◌, Ok, None};

use std::alloc::{AllocError, Global};

/// The first line of a text, from this number on, that isn't as wanted: its number, what is wanted and what is printed.
/// An empty line stands for the end of a text.
fn first_difference(
    alloc: Global,
    first: usize,
    wanted: &str,
    printed: &str,
) -> Result<String, AllocError> {
    let mut others = printed.split('\n');
    let mut number = first;
    for want in wanted.split('\n') {
        let other = others.next().unwrap_or("");
        if want != other {
            return format!(in alloc; "line {number}\nwanted  {want}\nprinted {other}\n");
        }
        number = number.saturating_add(1);
    }
    let other = others.next().unwrap_or("");
    format!(in alloc; "line {number}\nwanted\nprinted {other}\n")
}

/// Where what is printed differs from the text that is wanted, whose first line is this one of the file; none where it
/// doesn't.
pub fn difference(
    alloc: Global,
    first: usize,
    wanted: &str,
    printed: &[u8],
) -> Result<Option<String>, AllocError>
    ensures passes_what_is_wanted_alone { result ≡ Ok None → printed.now ≡ wanted.now }
{
    if printed == wanted.as_bytes() {
        return Ok(None);
    }
    let text = String::from_utf8_lossy(alloc, printed)?;
    Ok(Some(first_difference(alloc, first, wanted, text.as_str())?))
}
