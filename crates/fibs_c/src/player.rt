//! A player in one call.

ghost use Rattle.std.specs.Prelude.{◌≡◌, ◌≤◌, ◌+◌, ◌++◌, ℕ, length, take, drop, option_map};
ghost use Rattle.fibs_messages.specs.Directory.View.{player_value};
ghost use Rattle.fibs_c.specs.PlayerDoor.{IsPlayerTold, IsMaybePlayer, TellsPlayer, IsPlayer, texts_in, capped};

use crate::records::DirectoryHandle;
use crate::records::status::{DONE, NO_HANDLE, NO_PLAYER, SHORT};
use crate::records::text::flag;
use fibs_messages::directory::Player;
use std::alloc::Global;

/// Where a text of a player is in the room.
#[repr(C)]
#[derive(Clone, Copy)]
pub struct PartRecord {
    /// Where it begins.
    pub start: usize,
    /// How many bytes it has.
    pub len: usize,
}

/// What the server said of a player: the 12 fields of message 5.
#[repr(C)]
#[derive(Clone, Copy)]
pub struct PlayerRecord {
    /// The player's name.
    pub name: PartRecord,
    /// Whom the player plays, `-` for no one.
    pub opponent: PartRecord,
    /// Whom the player watches, `-` for no one.
    pub watching: PartRecord,
    /// Where the player logged in from.
    pub hostname: PartRecord,
    /// The program that the player uses, `-` if it is not known.
    pub client: PartRecord,
    /// The email address, `-` for none.
    pub email: PartRecord,
    /// Points of the matches played.
    pub experience: u64,
    /// Seconds since the player last typed.
    pub idle: u64,
    /// When the player logged in, in seconds since 1970.
    pub login: u64,
    /// In hundredths.
    pub rating: u32,
    /// Whether the player is ready to play.
    pub ready: u8,
    /// Whether the player is away.
    pub away: u8,
}

/// How many bytes the texts of a player have.
fn texts_len(player: &Player) -> u128
    ensures { result ≡ length (texts_in (player_value player.now)) }
{
    let names = player.name.len() as u128
        + player.opponent.len() as u128
        + player.watching.len() as u128;
    let words = player.hostname.len() as u128 + player.client.len() as u128;
    names + words + player.email.len() as u128
}

/// A number of bytes as C has it.
fn capped(len: u128) -> usize
    ensures { result ≡ capped len }
{
    if len <= usize::MAX as u128 {
        len as usize
    } else {
        usize::MAX
    }
}

/// Writes a text into the room.
fn put_part(room: &mut [u8], start: usize, text: &[u8]) -> PartRecord
    requires { start + length text.now ≤ length room.old }
    ensures start { result.start ≡ start }
    ensures len { result.len ≡ length text.now }
    ensures written { take (start + length text.now) room.new ≡ take start room.old ++ text.now }
    ensures rest { (n : ℕ) → start + length text.now ≤ n → drop n room.new ≡ drop n room.old }
    ensures length { length room.new ≡ length room.old }
{
    let len = text.len();
    room[start..start + len].copy_from_slice(text);
    PartRecord { start, len }
}

/// Gives the fields of a player, and writes the texts one after another, for which there is room.
fn put_texts(player: &Player, room: &mut [u8]) -> PlayerRecord
    requires { length (texts_in (player_value player.now)) ≤ length room.old }
    ensures fields { IsPlayer result (player_value player.now) }
    ensures texts { take (length (texts_in (player_value player.now))) room.new ≡ texts_in (player_value player.now) }
    ensures rest { drop (length (texts_in (player_value player.now))) room.new
        ≡ drop (length (texts_in (player_value player.now))) room.old }
{
    let name = put_part(room, 0, player.name.as_slice());
    let opponent = put_part(room, name.len, player.opponent.as_slice());
    let watching = put_part(
        room,
        opponent.start + opponent.len,
        player.watching.as_slice(),
    );
    let hostname = put_part(
        room,
        watching.start + watching.len,
        player.hostname.as_slice(),
    );
    let client = put_part(
        room,
        hostname.start + hostname.len,
        player.client.as_slice(),
    );
    let email = put_part(room, client.start + client.len, player.email.as_slice());
    PlayerRecord {
        name,
        opponent,
        watching,
        hostname,
        client,
        email,
        experience: player.experience,
        idle: player.idle,
        login: player.login,
        rating: player.rating,
        ready: flag(player.ready),
        away: flag(player.away),
    }
}

/// Gives a player, if there is room for the texts.
fn put_player(player: &Player, told: &mut PlayerRecord, text: &mut [u8], len: &mut usize) -> u32
    ensures { TellsPlayer (player_value player.now) told.old told.new text.old text.new len.new result }
{
    let needed = texts_len(player);
    *len = capped(needed);
    if (text.len() as u128) < needed {
        return SHORT;
    }
    *told = put_texts(player, text);
    DONE
}

/// Gives a player, if there is one.
fn put_maybe_player(
    player: Option<&Player>,
    told: &mut PlayerRecord,
    text: &mut [u8],
    len: &mut usize,
) -> u32
    ensures { IsMaybePlayer (option_map (λ p. player_value p.now) player.entry) told.old told.new text.old text.new
        len.old len.new result }
{
    match player {
        None => NO_PLAYER,
        Some(player) => put_player(player, told, text, len),
    }
}

/// The player of a name, with all fields of message 5: the bytes of the texts are written one after another.
#[unsafe(no_mangle)]
pub extern "C" fn fibs_directory_player(
    alloc: Global,
    directory: &mut DirectoryHandle,
    name: &[u8],
    player: &mut PlayerRecord,
    text: &mut [u8],
    len: &mut usize,
) -> u32
    ensures { IsPlayerTold directory.old.value directory.new.value name.now player.old player.new text.old text.new
        len.old len.new result }
{
    with!(DirectoryHandle, directory, alloc, |held| {
        put_maybe_player(held.get(name), player, text, len)
    })
}
