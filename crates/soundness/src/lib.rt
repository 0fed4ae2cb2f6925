// Whether a book is sound, whatever its length and content: each row is free or in range, and no instrument stands twice. And where an instrument
// stands.
#![tactic(auto)]

ghost use Rattle.std.specs.Prelude.{◌≡◌, ◌<◌, length, IfSome};
ghost use Rattle.paper.specs.Book.{is_zeros, place_for, is_row_sound, is_sound, size, rows};
ghost use Rattle.soundness.specs.Found.{place_in};
ghost use Rattle.soundness.specs.Tested.{Tests};

use row::{INSTRUMENT, ROWS, Refusal, WIDTH, WORDS};

// Whether the words are all zero.
fn is_zeros(words: &[u64]) -> bool
    ensures { result ≡ is_zeros words.now }
{
    words.iter().all(|word| *word == 0)
}

// The number of the first row that holds an instrument, if one does.
pub fn place_of(book: &[u64], instrument: u64) -> Option<usize>
    requires { length book.now ≡ size }
    ensures place { place_in result ≡ place_for book.now instrument }
    ensures row { IfSome result (λ k. k < rows) }
{
    for k in 0..ROWS {
        if book[k * WIDTH] == instrument {
            return Some(k);
        }
    }
    None
}

// Whether a row is free, or in range and the first that holds its instrument.
fn row_sound(book: &[u64], k: usize) -> bool
    requires { (length book.now ≡ size) × (k < rows) }
    ensures { result ≡ is_row_sound book.now k }
{
    let row = row::row_of(book, k);
    if is_zeros(row) {
        return true;
    }
    row::row_in_range(row) && place_of(book, row[INSTRUMENT]) == Some(k)
}

// Whether a book is sound, whatever its length and content. It is lent on as `&book[..]`, since a slice that is handed on as it came would stand in the
// memory of each caller.
pub fn is_sound(book: &[u64]) -> bool
    ensures { result ≡ is_sound book.now }
{
    if book.len() != WORDS {
        return false;
    }
    for row in 0..ROWS {
        if !row_sound(&book[..], row) {
            return false;
        }
    }
    true
}

// The test of a book before a call: one that is not sound is refused.
pub fn test(book: &[u64]) -> Result<(), Refusal>
    ensures { Tests book.now result }
{
    if is_sound(book) {
        Ok(())
    } else {
        Err(Refusal::Book)
    }
}
