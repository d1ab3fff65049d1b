//! What is known of a player.

ghost use Rattle.std.specs.Prelude.{◌≡◌, IfOk};
ghost use Rattle.fibs_messages.specs.Message.{message, who_info_fields};

use crate::WhoInfo;
use std::alloc::{AllocError, Global};

/// What the server last said of a player, copied from its message.
#[derive(Debug, Drop)]
pub struct Player {
    /// The player's name.
    pub name: Vec<u8>,
    /// Whom the player plays, `-` for no one.
    pub opponent: Vec<u8>,
    /// Whom the player watches, `-` for no one.
    pub watching: Vec<u8>,
    /// Whether the player is ready to play.
    pub ready: bool,
    /// Whether the player is away.
    pub away: bool,
    /// In hundredths.
    pub rating: u32,
    /// Points of the matches played.
    pub experience: u64,
    /// Seconds since the player last typed.
    pub idle: u64,
    /// When the player logged in, in seconds since 1970.
    pub login: u64,
    /// Where the player logged in from.
    pub hostname: Vec<u8>,
    /// The program that the player uses, `-` if it is not known.
    pub client: Vec<u8>,
    /// The email address, `-` for none.
    pub email: Vec<u8>,
}

impl Player {
    ghost use Rattle.fibs_messages.specs.Directory.View.{player_value};

    /// A copy of what a message says.
    pub fn copied(alloc: Global, info: &WhoInfo<'_>) -> Result<Player, AllocError>
        ensures { IfOk result (λ player. player_value player ≡ message 5 (who_info_fields info.now)) }
    {
        Ok(Player {
            name: Vec::from_slice(alloc, info.name.bytes())?,
            opponent: Vec::from_slice(alloc, info.opponent.bytes())?,
            watching: Vec::from_slice(alloc, info.watching.bytes())?,
            ready: info.ready,
            away: info.away,
            rating: info.rating,
            experience: info.experience,
            idle: info.idle,
            login: info.login,
            hostname: Vec::from_slice(alloc, info.hostname.bytes())?,
            client: Vec::from_slice(alloc, info.client.bytes())?,
            email: Vec::from_slice(alloc, info.email.bytes())?,
        })
    }
}
