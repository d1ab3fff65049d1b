//! The line that a word of the command line says: the object of a board goes in again.
ghost use Rattle.std.specs.Prelude.{◌≡◌, ◌≢◌, ◌++◌, ◌∷◌, [], ℕ, List, MatchOption};
ghost use Rattle.std.specs.List.{list_any};
ghost use Rattle.fibs_json.specs.Parts.{BeginsWith, front};
ghost use Rattle.fibs_json.specs.Json.{is_escaped};
ghost use Rattle.fibs_json.specs.Told.{IsNoObject, IsObjectOf, SaysLine};

use crate::strings::is_escaped;
use fibs_fields::split::split;

/// The front of a board's object, up to the bytes of its line.
const FRONT: &[u8] = b"{\"kind\":\"board\",\"line\":\"";

/// Whether a byte of the line is escaped in a string.
fn any_escaped(line: &[u8]) -> bool
    ensures { result ≡ list_any is_escaped line.now }
{
    line.iter().any(|byte| is_escaped(*byte))
}

/// What stands in a word between the front of a board's object and its last brace.
fn inner(word: &[u8]) -> Option<&[u8]>
    ensures { MatchOption result ((rest : List ℕ) → word.now ≢ (front ++ rest) ++ (125 ∷ []))
        (λ rest. word.now ≡ (front ++ rest.now) ++ (125 ∷ [])) }
{
    match word.strip_suffix(b"}") {
        Some(object) => object.strip_prefix(FRONT),
        None => None,
    }
}

/// The line that a text begins with: it ends at a quotation mark, and no byte of it is escaped.
fn line_in(text: &[u8]) -> Option<&[u8]>
    ensures { MatchOption result ((line : List ℕ) → ¬ BeginsWith line text.now) (λ line. BeginsWith line.now text.now) }
{
    let (line, more) = split(text, b'"');
    if more.is_none() || any_escaped(line) {
        return None;
    }
    Some(line)
}

/// The line of which a word is the object.
fn line_of(word: &[u8]) -> Option<&[u8]>
    ensures { MatchOption result (IsNoObject word.now) (λ line. IsObjectOf line.now word.now) }
{
    match inner(word) {
        Some(rest) => line_in(rest),
        None => None,
    }
}

/// The line that a word says: that of a board of which it is the object, and else the word itself.
pub fn told_line(word: &[u8]) -> &[u8]
    ensures { SaysLine word.now result.now }
{
    match line_of(word) {
        Some(line) => line,
        None => word,
    }
}
