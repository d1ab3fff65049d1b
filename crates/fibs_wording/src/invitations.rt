//! Who invites the user to a match, and to which.
ghost use Rattle.std.specs.Prelude.{◌≡◌, ◌++◌, IfOk, IfSome, OnOk};
ghost use Rattle.fibs_fields.specs.Bytes.{name_bytes};
ghost use Rattle.fibs_wording.specs.Invitations.{invitation_said, offer_said, said_after, said_before, said_points, experience_words, invitation_words, known_words, offer_words, points_words, rated_words};

use crate::environment::pieces::short_name;
use fibs_fields::decimal::{append_number, read_decimal};
use fibs_fields::name::Name;
use fibs_fields::rating::append_rating;
use fibs_fields::split::split;
use std::alloc::{AllocError, Global};

/// The match that is offered.
#[derive(Clone, Copy, Debug, PartialEq, Eq)]
pub enum Offered {
    /// A match of so many points.
    Points(u64),
    /// An unlimited match.
    Unlimited,
    /// The match that was saved.
    Saved,
}

/// An invitation.
#[derive(Clone, Copy, Debug, PartialEq, Eq)]
pub struct Invitation<'a> {
    /// Who invites.
    pub name: Name<'a>,
    /// To what.
    pub offered: Offered,
}

/// What the words after a name may offer.
fn offer_in(said: &[u8]) -> Option<Offered> {
    if said == said_before(Offered::Unlimited) {
        return Some(Offered::Unlimited);
    }
    if said == said_before(Offered::Saved) {
        return Some(Offered::Saved);
    }
    let any = Offered::Points(0);
    let number = said
        .strip_prefix(said_before(any))?
        .strip_suffix(said_after(any))?;
    Some(Offered::Points(read_decimal(number, u64::MAX)?))
}

/// The invitation that a text may say.
fn guess(text: &[u8]) -> Option<Invitation<'_>> {
    let (name, said) = split(text, b' ');
    let offered = offer_in(said?)?;
    let name = Name::new(name)?;
    Some(Invitation { name, offered })
}

/// What the server says of an offer before its points.
fn said_before(offered: Offered) -> &'static [u8]
    ensures { result.now ≡ said_before offered }
{
    match offered {
        Offered::Points(_) => b"wants to play a ",
        Offered::Unlimited => b"wants to play an unlimited match with you.",
        Offered::Saved => b"wants to resume a saved match with you.",
    }
}

/// Appends the points of an offer, if it has some.
fn append_said_points(offered: Offered, text: &mut Vec<u8>) -> Result<(), AllocError>
    ensures { OnOk result (text.new.items ≡ text.old.items ++ said_points offered) }
{
    match offered {
        Offered::Points(points) => append_number(points, text),
        Offered::Unlimited | Offered::Saved => Ok(()),
    }
}

/// What the server says of an offer after its points.
fn said_after(offered: Offered) -> &'static [u8]
    ensures { result.now ≡ said_after offered }
{
    match offered {
        Offered::Points(_) => b" point match with you.",
        Offered::Unlimited | Offered::Saved => b"",
    }
}

/// Appends what the server says of an offer.
fn append_offer_said(offered: Offered, text: &mut Vec<u8>) -> Result<(), AllocError>
    ensures { OnOk result (text.new.items ≡ text.old.items ++ offer_said offered) }
{
    text.extend_from_slice(said_before(offered))?;
    append_said_points(offered, text)?;
    text.extend_from_slice(said_after(offered))
}

/// Appends what the server says of an invitation.
fn append_said(name: &[u8], offered: Offered, text: &mut Vec<u8>) -> Result<(), AllocError>
    ensures { OnOk result (text.new.items ≡ text.old.items ++ invitation_said name.now offered) }
{
    text.extend_from_slice(name)?;
    text.extend_from_slice(b" ")?;
    append_offer_said(offered, text)
}

/// The invitation that a text of the server says, if it says one. It is told again, and compared.
///
/// Errors: if memory runs out.
pub fn read_invitation<'a>(
    alloc: Global,
    text: &'a [u8],
) -> Result<Option<Invitation<'a>>, AllocError>
    ensures { IfOk result (λ read. IfSome read (λ i. text.now ≡ invitation_said (name_bytes i.name) i.offered)) }
{
    let Some(invitation) = guess(text) else {
        return Ok(None);
    };
    let mut said = Vec::new(alloc);
    append_said(invitation.name.bytes(), invitation.offered, &mut said)?;
    if said.as_slice() == text {
        Ok(Some(invitation))
    } else {
        Ok(None)
    }
}

/// Appends how many points.
fn append_points(points: u64, text: &mut Vec<u8>) -> Result<(), AllocError>
    ensures { OnOk result (text.new.items ≡ text.old.items ++ points_words points) }
{
    if points == 1 {
        return text.extend_from_slice(b"1 point");
    }
    append_number(points, text)?;
    text.extend_from_slice(b" points")
}

/// Appends to what one is invited.
fn append_offer(offered: Offered, text: &mut Vec<u8>) -> Result<(), AllocError>
    ensures { OnOk result (text.new.items ≡ text.old.items ++ offer_words offered) }
{
    match offered {
        Offered::Points(points) => {
            text.extend_from_slice(b" invites you to ")?;
            append_points(points, text)
        }
        Offered::Unlimited => text.extend_from_slice(b" invites you to an unlimited match"),
        Offered::Saved => text.extend_from_slice(b" invites you to resume your saved match"),
    }
}

/// Appends the experience of a player.
#[tactic(auto, unfolding(crate::specs::Invitations::experience_words))]
fn append_experience(experience: u64, text: &mut Vec<u8>) -> Result<(), AllocError>
    ensures { OnOk result (text.new.items ≡ text.old.items ++ experience_words experience) }
{
    text.extend_from_slice(b", experience ")?;
    append_number(experience, text)?;
    text.extend_from_slice(b")")
}

/// Appends the rating, in hundredths, and the experience of a player.
#[tactic(auto, unfolding(crate::specs::Invitations::known_words))]
fn append_known(rating: u32, experience: u64, text: &mut Vec<u8>) -> Result<(), AllocError>
    ensures { OnOk result (text.new.items ≡ text.old.items ++ known_words rating experience) }
{
    text.extend_from_slice(b" (")?;
    append_rating(text, rating)?;
    append_experience(experience, text)
}

/// Appends both, if they are known.
fn append_rated(rated: Option<(u32, u64)>, text: &mut Vec<u8>) -> Result<(), AllocError>
    ensures { OnOk result (text.new.items ≡ text.old.items ++ rated_words rated) }
{
    match rated {
        None => Ok(()),
        Some(known) => append_known(known.0, known.1, text),
    }
}

/// Appends who invites the user and to what: with his rating, in hundredths, and his experience, if they are known.
///
/// Errors: if memory runs out.
pub fn append_invitation(
    name: &[u8],
    rated: Option<(u32, u64)>,
    offered: Offered,
    text: &mut Vec<u8>,
) -> Result<(), AllocError>
    ensures { OnOk result (text.new.items ≡ text.old.items ++ invitation_words name.now rated offered) }
{
    text.extend_from_slice(short_name(name))?;
    append_rated(rated, text)?;
    append_offer(offered, text)
}
