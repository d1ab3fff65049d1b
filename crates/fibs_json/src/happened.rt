//! Events as JSON objects.
ghost use Rattle.std.specs.Prelude.{◌≡◌, ◌++◌, ◌∷◌, [], OnOk, codes};
ghost use Rattle.fibs_fields.specs.Bytes.{name_bytes};
ghost use Rattle.fibs_json.specs.Events.{details, event_name, kind_members, event_object, length_json, offer_json, side_json, stake_word, worth_json};
ghost use Rattle.fibs_rules.specs.PlayValue.{hops_of};
ghost use Rattle.fibs_json.specs.Plays.{step_text};
ghost use Rattle.fibs_json.specs.Json.{array_of, more_value, member, more_member, more_members, string, whole, wholes, hundredths};

use crate::members::{append_hundredths, append_null, append_string, append_whole, append_wholes};
use crate::plays::append_steps_of;
use fibs_events::event::{Event, Length, Offer, Side};
use fibs_messages::Name;
use fibs_position::{Play, Stake};
use std::alloc::AllocError;

/// The length of an unlimited match, as a board has it.
const UNLIMITED: u64 = 9999;

/// Appends the member of a name.
fn append_name(name: &Name<'_>, text: &mut Vec<u8>) -> Result<(), AllocError>
    ensures { OnOk result (text.new.items
        ≡ text.old.items ++ more_member (member (codes "name") (string (name_bytes name.now)))) }
{
    append_string(b"name", name.bytes(), text)
}

/// Appends the member of a side.
fn append_who(who: Side, text: &mut Vec<u8>) -> Result<(), AllocError>
    ensures { OnOk result (text.new.items
        ≡ text.old.items ++ more_member (member (codes "who") (side_json who))) }
{
    match who {
        Side::Own => append_string(b"who", b"player", text),
        Side::Other => append_string(b"who", b"opponent", text),
    }
}

/// Appends the member of a length.
fn append_length(length: Length, text: &mut Vec<u8>) -> Result<(), AllocError>
    ensures { OnOk result (text.new.items
        ≡ text.old.items ++ more_member (member (codes "length") (length_json length))) }
{
    match length {
        Length::Points(points) => append_whole(b"length", u64::from(points), text),
        Length::Unlimited => append_whole(b"length", UNLIMITED, text),
    }
}

/// Appends the member of an offer.
fn append_offer(offer: Offer, text: &mut Vec<u8>) -> Result<(), AllocError>
    ensures { OnOk result (text.new.items
        ≡ text.old.items ++ more_member (member (codes "offer") (offer_json offer))) }
{
    match offer {
        Offer::Double => append_string(b"offer", b"double", text),
        Offer::Resignation => append_string(b"offer", b"resignation", text),
    }
}

/// The word of what a game is worth.
fn stake_word(stake: Stake) -> &'static [u8]
    ensures { result.now ≡ stake_word stake }
{
    match stake {
        Stake::Normal => b"single",
        Stake::Gammon => b"gammon",
        Stake::Backgammon => b"backgammon",
    }
}

/// Appends the member of what a game is worth.
fn append_worth(worth: Option<Stake>, text: &mut Vec<u8>) -> Result<(), AllocError>
    ensures { OnOk result (text.new.items
        ≡ text.old.items ++ more_member (member (codes "worth") (worth_json worth))) }
{
    match worth {
        None => append_null(b"worth", text),
        Some(stake) => append_string(b"worth", stake_word(stake), text),
    }
}

/// Appends a name and a length.
fn append_match(name: &Name<'_>, length: Length, text: &mut Vec<u8>) -> Result<(), AllocError>
    ensures { OnOk result (text.new.items ≡ text.old.items ++ more_members
        (member (codes "name") (string (name_bytes name.now)) ∷ member (codes "length") (length_json length) ∷ [])) }
{
    append_name(name, text)?;
    append_length(length, text)
}

/// Appends who has rolled what.
fn append_roll(who: Side, dice: [u8; 2], text: &mut Vec<u8>) -> Result<(), AllocError>
    ensures { OnOk result (text.new.items ≡ text.old.items ++ more_members
        (member (codes "who") (side_json who) ∷ member (codes "dice") (wholes dice) ∷ [])) }
{
    append_who(who, text)?;
    append_wholes(b"dice", &dice, text)
}

/// Appends who has played what.
fn append_played(who: Side, play: &Play, text: &mut Vec<u8>) -> Result<(), AllocError>
    ensures { OnOk result (text.new.items ≡ text.old.items
        ++ (more_member (member (codes "who") (side_json who))
        ++ more_value (codes "steps") (array_of step_text (hops_of play.now)))) }
{
    append_who(who, text)?;
    append_steps_of(play, text)
}

/// Appends who has accepted what.
fn append_acceptance(who: Side, offer: Offer, text: &mut Vec<u8>) -> Result<(), AllocError>
    ensures { OnOk result (text.new.items ≡ text.old.items ++ more_members
        (member (codes "who") (side_json who) ∷ member (codes "offer") (offer_json offer) ∷ [])) }
{
    append_who(who, text)?;
    append_offer(offer, text)
}

/// Appends a side, points, and what they are.
fn append_points(
    who: Side,
    points: u32,
    worth: Option<Stake>,
    text: &mut Vec<u8>,
) -> Result<(), AllocError>
    ensures { OnOk result (text.new.items ≡ text.old.items ++ more_members
        (member (codes "who") (side_json who) ∷ member (codes "points") (whole points)
        ∷ member (codes "worth") (worth_json worth) ∷ [])) }
{
    append_who(who, text)?;
    append_whole(b"points", u64::from(points), text)?;
    append_worth(worth, text)
}

/// Appends the end of a match.
fn append_result(
    who: Side,
    length: u32,
    own: u32,
    other: u32,
    text: &mut Vec<u8>,
) -> Result<(), AllocError>
    ensures { OnOk result (text.new.items ≡ text.old.items ++ more_members
        (member (codes "who") (side_json who) ∷ member (codes "length") (whole length)
        ∷ member (codes "score") (whole own) ∷ member (codes "opponent_score") (whole other) ∷ [])) }
{
    append_who(who, text)?;
    append_whole(b"length", u64::from(length), text)?;
    append_whole(b"score", u64::from(own), text)?;
    append_whole(b"opponent_score", u64::from(other), text)
}

/// Appends a rating.
fn append_rated(
    who: Side,
    rating: u32,
    experience: u64,
    text: &mut Vec<u8>,
) -> Result<(), AllocError>
    ensures { OnOk result (text.new.items ≡ text.old.items ++ more_members
        (member (codes "who") (side_json who) ∷ member (codes "rating") (hundredths rating)
        ∷ member (codes "experience") (whole experience) ∷ [])) }
{
    append_who(who, text)?;
    append_hundredths(b"rating", rating, text)?;
    append_whole(b"experience", experience, text)
}

/// The name of an event.
fn name_of(event: &Event<'_>) -> &'static [u8]
    ensures { result.now ≡ event_name event.now }
{
    match event {
        Event::LoggedIn { .. } => b"logged_in",
        Event::LoginRefused => b"login_refused",
        Event::Invited { .. } => b"invited",
        Event::InvitedToResume { .. } => b"invited_to_resume",
        Event::Joined { .. } => b"joined",
        Event::Resumed { .. } => b"resumed",
        Event::GameBegun { .. } => b"game_begun",
        Event::Rolled { .. } => b"rolled",
        Event::Played { .. } => b"played",
        Event::CannotMove { .. } => b"cannot_move",
        Event::Doubled { .. } => b"doubled",
        Event::Accepted { .. } => b"accepted",
        Event::Rejected { .. } => b"rejected",
        Event::OfferedToResign { .. } => b"offered_to_resign",
        Event::Declined { .. } => b"declined",
        Event::GameOver { .. } => b"game_over",
        Event::NextGame => b"next_game",
        Event::MatchOver { .. } => b"match_over",
        Event::Left { .. } => b"left",
        Event::NotPlaying => b"not_playing",
        Event::RatingChanged { .. } => b"rating_changed",
        Event::NothingSaved { .. } => b"nothing_saved",
        Event::Refused { .. } => b"refused",
    }
}

/// Appends the further members of an event.
fn append_details(event: &Event<'_>, text: &mut Vec<u8>) -> Result<(), AllocError>
    ensures { OnOk result (text.new.items ≡ text.old.items ++ details event.now) }
{
    match event {
        Event::LoggedIn { name }
        | Event::InvitedToResume { name }
        | Event::Resumed { name }
        | Event::GameBegun { name }
        | Event::NothingSaved { name } => append_name(name, text),
        Event::Invited { name, length } | Event::Joined { name, length } => {
            append_match(name, *length, text)
        }
        Event::Rolled { who, dice } => append_roll(*who, *dice, text),
        Event::Played { who, play } => append_played(*who, play, text),
        Event::CannotMove { who }
        | Event::Doubled { who }
        | Event::Rejected { who }
        | Event::Declined { who }
        | Event::Left { who } => append_who(*who, text),
        Event::Accepted { who, offer } => append_acceptance(*who, *offer, text),
        Event::OfferedToResign { who, points, worth } => append_points(*who, *points, *worth, text),
        Event::GameOver {
            winner,
            points,
            worth,
        } => append_points(*winner, *points, *worth, text),
        Event::MatchOver {
            winner,
            length,
            score,
        } => append_result(*winner, *length, score[0], score[1], text),
        Event::RatingChanged {
            who,
            rating,
            experience,
        } => append_rated(*who, *rating, *experience, text),
        Event::LoginRefused | Event::NextGame | Event::NotPlaying => Ok(()),
        Event::Refused { text: said } => append_string(b"text", said, text),
    }
}

/// Appends which event it is, and the number of its line.
fn append_kind(number: u64, event: &Event<'_>, text: &mut Vec<u8>) -> Result<(), AllocError>
    ensures { OnOk result (text.new.items ≡ text.old.items ++ more_members (kind_members number event.now)) }
{
    append_string(b"event", name_of(event), text)?;
    append_whole(b"line_number", number, text)
}

/// Appends the object of an event of the line with this number.
pub(crate) fn append_event(
    number: u64,
    event: &Event<'_>,
    text: &mut Vec<u8>,
) -> Result<(), AllocError>
    ensures { OnOk result (text.new.items ≡ text.old.items ++ event_object number event.now) }
{
    text.extend_from_slice(b"{\"kind\":\"event\"")?;
    append_kind(number, event, text)?;
    append_details(event, text)?;
    text.push(b'}')?;
    Ok(())
}
