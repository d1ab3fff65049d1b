//! Lines that are spelled as they are printed.

ghost use Rattle.std.specs.Prelude.{◌≡◌, ◌≤◌, [], ◌∷◌, ◌++◌, length, take, true, IfSome, OnSome, Some, None};
ghost use Rattle.fibs_fields.specs.Field.{a_flag, a_name, a_number, a_rating, a_tail, a_text, a_word};
ghost use Rattle.fibs_fields.specs.Split.{before, seen};
ghost use Rattle.fibs_messages.specs.Message.{IsNumber, MessageText, MessageValue, canonical, kinds_of, number_word};
ghost use Rattle.fibs_show.specs.Standing.{AllStand, Begins, BeginsDecimal, Stands, after_space, kind_seen, kinds_seen};

use fibs_fields::decimal::digit_run;
use fibs_fields::name::name_run;
use fibs_fields::split::split;
use fibs_messages::number::{kept, number_of};

/// What a field of a message is.
#[derive(Clone, Copy)]
pub enum FieldKind {
    Name,
    Word,
    Tail,
    Flag,
    Number,
    Rating,
    Text,
}

use FieldKind::{Flag, Name, Number, Rating, Tail, Text, Word};

/// The kinds of the fields of a message, in their order.
#[tactic(auto, unfolding(fibs_messages::specs::Message::table))]
fn kinds_of(number: u8) -> &'static [FieldKind]
    requires { IsNumber number }
    ensures { kinds_seen result.now ≡ kinds_of number }
{
    match number {
        1 => &[Name, Number, Word],
        2 => &[
            Name, Flag, Flag, Flag, Flag, Flag, Flag, Flag, Flag, Number, Flag, Flag, Flag, Flag,
            Rating, Flag, Flag, Word, Flag, Flag, Word,
        ],
        5 => &[
            Name, Name, Name, Flag, Flag, Rating, Number, Number, Number, Word, Word, Tail,
        ],
        9 => &[Name, Number, Text],
        10 | 11 => &[Name],
        7 | 8 | 12 | 13 | 14 | 15 | 16 => &[Name, Text],
        17 | 18 | 19 => &[Text],
        _ => &[],
    }
}

/// How long the name at the front of a text is.
#[inline(always)]
fn name_len(text: &[u8]) -> Option<usize>
    ensures { IfSome result (λ len. Begins a_name text.now len) }
{
    let len = name_run(text);
    if len == 0 || len > 64 {
        return None;
    }
    Some(len)
}

/// How long the word at the front of a text is.
#[inline(always)]
fn word_len(text: &[u8]) -> Option<usize>
    ensures { IfSome result (λ len. Begins a_word text.now len) }
{
    let word = split(text, b' ').0;
    if word.is_empty() {
        return None;
    }
    Some(word.len())
}

/// How long the tail is that a text is.
#[inline(always)]
fn tail_len(text: &[u8]) -> Option<usize>
    ensures begins { IfSome result (λ len. Begins a_tail text.now len) }
    ensures whole { IfSome result (λ len. len ≡ length text.now) }
{
    if text.is_empty() || text[text.len() - 1] == b' ' {
        return None;
    }
    Some(text.len())
}

/// How long the text that ends a line is. An empty text is printed without its space.
#[inline(always)]
fn text_len(text: &[u8]) -> Option<usize>
    ensures begins { IfSome result (λ len. Begins a_text text.now len) }
    ensures whole { IfSome result (λ len. len ≡ length text.now) }
{
    if text.is_empty() {
        return None;
    }
    Some(text.len())
}

/// How long the flag at the front of a text is.
#[inline(always)]
fn flag_len(text: &[u8]) -> Option<usize>
    ensures { IfSome result (λ len. Begins a_flag text.now len) }
{
    if text.is_empty() || text[0] < b'0' || text[0] > b'1' {
        return None;
    }
    Some(1)
}

/// How long the canonical decimal at the front of a text is, if it has so many digits at most.
#[inline(always)]
fn decimal_len(text: &[u8], most: usize) -> Option<usize>
    requires some { 1 ≤ most }
    requires few { most ≤ 19 }
    ensures { IfSome result (λ len. BeginsDecimal text.now most len) }
{
    let len = digit_run(text);
    if len == 1 {
        return Some(1);
    }
    if len == 0 || len > most || text[0] == b'0' {
        return None;
    }
    Some(len)
}

/// How long the number at the front of a text is, if it has 19 digits at most. 64 bits hold each of these.
#[inline(always)]
fn number_len(text: &[u8]) -> Option<usize>
    ensures { IfSome result (λ len. Begins a_number text.now len) }
{
    decimal_len(text, 19)
}

/// How long the rating at the front of a text is, if it has two digits after its point and 7 at most before it. 32
/// bits hold each of these.
#[inline(always)]
fn rating_len(text: &[u8]) -> Option<usize>
    ensures { IfSome result (λ len. Begins a_rating text.now len) }
{
    let whole = decimal_len(text, 7)?;
    if text.len() < whole + 3 || text[whole] != b'.' {
        return None;
    }
    if !text[whole + 1].is_ascii_digit() || !text[whole + 2].is_ascii_digit() {
        return None;
    }
    Some(whole + 3)
}

/// How long the field of this kind at the front of a text is, if it is seen at once to be spelled as it is printed.
#[inline(always)]
fn field_len(kind: FieldKind, text: &[u8]) -> Option<usize>
    ensures { IfSome result (λ len. Begins (kind_seen kind) text.now len) }
{
    match kind {
        Name => name_len(text),
        Word => word_len(text),
        Tail => tail_len(text),
        Flag => flag_len(text),
        Number => number_len(text),
        Rating => rating_len(text),
        Text => text_len(text),
    }
}

/// What comes after a field of this length and its space, or nothing if the text ends with it. None if neither
/// follows it.
#[inline(always)]
fn after_field(text: &[u8], len: usize) -> Option<Option<&[u8]>>
    requires { len ≤ length text.now }
    ensures { IfSome result (λ rest. text.now ≡ take len text.now ++ after_space (seen rest)) }
{
    if len == text.len() {
        Some(None)
    } else if text[len] == b' ' {
        Some(Some(&text[len + 1..]))
    } else {
        None
    }
}

/// What comes after the next field, if it is one of this kind and spelled as it is printed.
#[inline(always)]
fn next_field(kind: FieldKind, text: &[u8]) -> Option<Option<&[u8]>>
    ensures { IfSome result (λ rest. Stands (kind_seen kind) (Some text.now) (seen rest)) }
{
    let len = field_len(kind, text)?;
    after_field(text, len)
}

/// Whether the fields are of these kinds, and each is spelled as it is printed.
fn all_stand(kinds: &[FieldKind], fields: Option<&[u8]>) -> bool
    ensures { result ≡ true → AllStand (kinds_seen kinds.now) (seen fields.entry) None }
{
    let mut rest = fields;
    for kind in kinds {
        let Some(text) = rest else {
            return false;
        };
        let Some(after) = next_field(*kind, text) else {
            return false;
        };
        rest = after;
    }
    rest.is_none()
}

/// What comes after the next field and its space, if it is one of this kind and spelled as it is printed.
#[inline(always)]
fn past(kind: FieldKind, text: &[u8]) -> Option<&[u8]>
    ensures { IfSome result (λ rest. Stands (kind_seen kind) (Some text.now) (Some rest.now)) }
{
    let len = field_len(kind, text)?;
    if len < text.len() && text[len] == b' ' {
        Some(&text[len + 1..])
    } else {
        None
    }
}

/// Something if the fields are those of who info, and each is spelled as it is printed. None promises nothing.
///
/// Each text is named by the field with which it begins. A server sends this message for every player who is there, and
/// it has twelve fields, so their kinds are not looked up one by one.
#[inline(always)]
fn who_info_stands(name: &[u8]) -> Option<()>
    ensures { OnSome result (AllStand (kinds_of 5) (Some name.now) None) }
{
    let opponent = past(Name, name)?;
    let watching = past(Name, opponent)?;
    let ready = past(Name, watching)?;
    let away = past(Flag, ready)?;
    let rating = past(Flag, away)?;
    let experience = past(Rating, rating)?;
    let idle = past(Number, experience)?;
    let login = past(Number, idle)?;
    let hostname = past(Number, login)?;
    let client = past(Word, hostname)?;
    let email = past(Word, client)?;
    tail_len(email)?;
    Some(())
}

/// Whether the fields of a message are a name and a text.
#[tactic(auto, unfolding(fibs_messages::specs::Message::table))]
fn has_name_and_text(number: u8) -> bool
    ensures { result ≡ true → kinds_of number ≡ a_name ∷ a_text ∷ [] }
{
    matches!(number, 7 | 8 | 12 | 13 | 14 | 15 | 16)
}

/// The same as `who_info_stands`, of a name and a text.
#[inline(always)]
fn name_and_text_stand(name: &[u8]) -> Option<()>
    ensures { OnSome result (AllStand (a_name ∷ a_text ∷ []) (Some name.now) None) }
{
    let text = past(Name, name)?;
    text_len(text)?;
    Some(())
}

/// Whether the fields are those of this message, and each is spelled as it is printed.
#[inline(always)]
fn fields_stand(number: u8, fields: Option<&[u8]>) -> bool
    requires { IsNumber number }
    ensures { result ≡ true → AllStand (kinds_of number) (seen fields.entry) None }
{
    match fields {
        Some(text) if number == 5 => who_info_stands(text).is_some(),
        _ => all_stand(kinds_of(number), fields),
    }
}

/// What `canonical_line` answers of the line of a message with this number, whose fields are a name and a text.
#[inline(always)]
fn name_and_text_line(number: u8, line: &[u8]) -> Option<&[u8]>
    requires number { Some number ≡ number_word (before 32 line.now) }
    requires kinds { kinds_of number ≡ a_name ∷ a_text ∷ [] }
    ensures { IfSome result (λ text. (m : MessageValue) × MessageText m line.now × (text.now ≡ canonical m)) }
{
    let kept = kept(number, line);
    let fields = split(kept, b' ').1?;
    name_and_text_stand(fields)?;
    Some(kept)
}

/// What `canonical_line` answers of the line of any message with this number.
#[inline(never)]
fn message_line(number: u8, line: &[u8]) -> Option<&[u8]>
    requires number { Some number ≡ number_word (before 32 line.now) }
    requires is_number { IsNumber number }
    ensures { IfSome result (λ text. (m : MessageValue) × MessageText m line.now × (text.now ≡ canonical m)) }
{
    let kept = kept(number, line);
    if fields_stand(number, split(kept, b' ').1) {
        Some(kept)
    } else {
        None
    }
}

/// The canonical line of the message that a line says, if that is the line itself, or the line without the spaces
/// at its end, and is seen to be so at once: no message is made of it.
///
/// None says nothing about the line.
#[inline(always)]
pub(crate) fn canonical_line(line: &[u8]) -> Option<&[u8]>
    ensures { IfSome result (λ text. (m : MessageValue) × MessageText m line.now × (text.now ≡ canonical m)) }
{
    let number = number_of(line)?;
    if has_name_and_text(number) {
        name_and_text_line(number, line)
    } else {
        message_line(number, line)
    }
}
