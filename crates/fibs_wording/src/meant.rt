//! Which word was meant by one that is not known.
ghost use Rattle.std.specs.Prelude.{◌≡◌, ◌≤◌, codes, length, Some};
ghost use Rattle.fibs_fields.specs.Split.{seen};

use crate::help::words;

/// Words of fewer letters are near to each other, and mean nothing.
const LEAST_LETTERS: usize = 3;

/// How many bytes two texts have in common before they differ.
fn common(text: &[u8], other: &[u8]) -> usize
    ensures text { result ≤ length text.now }
    ensures other { result ≤ length other.now }
{
    let most = text.len().min(other.len());
    for at in 0..most {
        if text[at] != other[at] {
            return at;
        }
    }
    most
}

/// What follows the first bytes of a text, if it has so many; else nothing.
fn after(text: &[u8], count: usize) -> &[u8] {
    &text[count.min(text.len())..]
}

/// Whether two texts differ by one letter: it is there or not, or another one, or has changed places with the next one.
fn is_near(text: &[u8], other: &[u8]) -> bool {
    let at = common(text, other);
    let (text, other) = (&text[at..], &other[at..]);
    let is_swapped = text.len() > 1
        && other.len() > 1
        && text[0] == other[1]
        && text[1] == other[0]
        && after(text, 2) == after(other, 2);
    is_swapped
        || after(text, 1) == other
        || text == after(other, 1)
        || after(text, 1) == after(other, 1)
}

/// The first word of the help that is near to a word.
fn nearest(word: &[u8]) -> Option<&'static [u8]> {
    if word.len() < LEAST_LETTERS {
        return None;
    }
    for entry in words() {
        if entry.0.len() >= LEAST_LETTERS && is_near(word, entry.0) {
            return Some(entry.0);
        }
    }
    None
}

/// The word that was meant by one that is not known: what players call so, or a word that differs by a letter. None if
/// nobody can tell.
pub fn meant_word(word: &[u8]) -> Option<&'static [u8]>
    ensures take { word.now ≡ codes "take" → seen result ≡ Some (codes "accept") }
    ensures pass { word.now ≡ codes "pass" → seen result ≡ Some (codes "reject") }
    ensures drop { word.now ≡ codes "drop" → seen result ≡ Some (codes "reject") }
{
    match word {
        b"take" => Some(b"accept"),
        b"pass" | b"drop" => Some(b"reject"),
        b"d" => Some(b"double"),
        b"score" | b"cube" => Some(b"board"),
        _ => nearest(word),
    }
}
