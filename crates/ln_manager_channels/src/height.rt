//! The block height that a book is told.

ghost use Rattle.std.specs.Prelude.{◌≡◌};
ghost use Rattle.ln_manager_channels.specs.Books.{height_answer, with_height};

use ln_book::Book;
use ln_refusals::Refusal;

/// The greatest block height.
const GREATEST_HEIGHT: u32 = 400_000_000;

/// The book has this block height from now on. Error: 40 above 400,000,000, which changes nothing.
pub(crate) fn set_height(book: &mut Book, height: u32) -> Result<(), Refusal>
    ensures answer { result ≡ height_answer height }
    ensures enters_the_height { book.new ≡ with_height height book.old }
{
    if height > GREATEST_HEIGHT {
        return Err(Refusal::NotReady);
    }
    book.set_height(height);
    Ok(())
}
