//! Members of an object, each after a comma.
ghost use Rattle.std.specs.Prelude.{◌≡◌, ◌++◌, ◌∷◌, OnOk};
ghost use Rattle.fibs_json.specs.Json.{array_text, hundredths, key, member, more_member, null, signed, string, truth, more_number, whole, wholes};
ghost use Rattle.std.specs.List.{flat_map};

use crate::strings::append_quoted;
use fibs_fields::decimal::append_number;
use fibs_fields::rating::append_rating;
use std::alloc::AllocError;

/// Appends a comma, a name in quotation marks, and a colon.
pub(crate) fn append_key(name: &[u8], text: &mut Vec<u8>) -> Result<(), AllocError>
    ensures { OnOk result (text.new.items ≡ text.old.items ++ (44 ∷ key name.now)) }
{
    text.extend_from_slice(b",\"")?;
    text.extend_from_slice(name)?;
    text.extend_from_slice(b"\":")
}

/// Appends a member that is a string.
#[tactic(auto, unfolding(crate::specs::Json::more_member))]
pub(crate) fn append_string(name: &[u8], bytes: &[u8], text: &mut Vec<u8>) -> Result<(), AllocError>
    ensures { OnOk result (text.new.items ≡ text.old.items ++ more_member (member name.now (string bytes.now))) }
{
    append_key(name, text)?;
    append_quoted(bytes, text)
}

/// Appends a member that is a number without a sign.
#[tactic(auto, unfolding(crate::specs::Json::more_member))]
pub(crate) fn append_whole(name: &[u8], number: u64, text: &mut Vec<u8>) -> Result<(), AllocError>
    ensures { OnOk result (text.new.items ≡ text.old.items ++ more_member (member name.now (whole number))) }
{
    append_key(name, text)?;
    append_number(number, text)
}

/// Appends a member that is a number.
#[tactic(auto, unfolding(crate::specs::Json::more_member))]
pub(crate) fn append_signed(name: &[u8], number: i32, text: &mut Vec<u8>) -> Result<(), AllocError>
    ensures { OnOk result (text.new.items ≡ text.old.items ++ more_member (member name.now (signed number))) }
{
    append_key(name, text)?;
    append_number(number, text)
}

/// Appends a member that is a number in hundredths.
#[tactic(auto, unfolding(crate::specs::Json::more_member))]
pub(crate) fn append_hundredths(
    name: &[u8],
    number: u32,
    text: &mut Vec<u8>,
) -> Result<(), AllocError>
    ensures { OnOk result (text.new.items ≡ text.old.items ++ more_member (member name.now (hundredths number))) }
{
    append_key(name, text)?;
    append_rating(text, number)
}

/// Appends a member that is `true` or `false`.
#[tactic(auto, unfolding(crate::specs::Json::more_member))]
pub(crate) fn append_truth(name: &[u8], flag: bool, text: &mut Vec<u8>) -> Result<(), AllocError>
    ensures { OnOk result (text.new.items ≡ text.old.items ++ more_member (member name.now (truth flag))) }
{
    append_key(name, text)?;
    if flag {
        text.extend_from_slice(b"true")
    } else {
        text.extend_from_slice(b"false")
    }
}

/// Appends a member that is `null`.
#[tactic(auto, unfolding(crate::specs::Json::more_member))]
pub(crate) fn append_null(name: &[u8], text: &mut Vec<u8>) -> Result<(), AllocError>
    ensures { OnOk result (text.new.items ≡ text.old.items ++ more_member (member name.now null)) }
{
    append_key(name, text)?;
    text.extend_from_slice(b"null")
}

/// Appends a comma and a number.
fn append_more(number: u8, text: &mut Vec<u8>) -> Result<(), AllocError>
    ensures { OnOk result (text.new.items ≡ text.old.items ++ more_number number) }
{
    text.push(b',')?;
    append_number(number, text)
}

/// Appends further numbers of an array.
fn append_rest(numbers: &[u8], text: &mut Vec<u8>) -> Result<(), AllocError>
    ensures { OnOk result (text.new.items ≡ text.old.items ++ flat_map more_number numbers.now) }
{
    for number in numbers {
        append_more(*number, text)?;
    }
    Ok(())
}

/// Appends an array of numbers.
fn append_array(numbers: &[u8], text: &mut Vec<u8>) -> Result<(), AllocError>
    ensures { OnOk result (text.new.items ≡ text.old.items ++ array_text numbers.now) }
{
    match numbers {
        [] => text.extend_from_slice(b"[]"),
        [first, rest @ ..] => {
            text.push(b'[')?;
            append_number(*first, text)?;
            append_rest(rest, text)?;
            text.push(b']')?;
            Ok(())
        }
    }
}

/// Appends a member that is an array of numbers.
#[tactic(auto, unfolding(crate::specs::Json::more_member))]
pub(crate) fn append_wholes(
    name: &[u8],
    numbers: &[u8],
    text: &mut Vec<u8>,
) -> Result<(), AllocError>
    ensures { OnOk result (text.new.items ≡ text.old.items ++ more_member (member name.now (wholes numbers.now))) }
{
    append_key(name, text)?;
    append_array(numbers, text)
}
