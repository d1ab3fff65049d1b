//! The players that the server listed.

ghost use Rattle.std.specs.Prelude.{◌≡◌, ◌≢◌, ◌≤◌, ◌↔◌, ◌++◌, ◌∷◌, [], List, None, false, length, slice_get, OnOk, OnErr, IsOk, IsErrOf, IsTrue};
ghost use Rattle.std.specs.Option.{option_map};
ghost use Rattle.fibs_messages.specs.Message.{MessageValue, message, message_of, who_info_fields};
ghost use Rattle.fibs_fields.specs.Bytes.{name_bytes};
ghost use Rattle.fibs_messages.specs.Directory.{directory_limit, name_of, entry_of, IsDirectory};
ghost use Rattle.fibs_messages.specs.Directory.Steps.{with_entry, without_entry, is_full_for};

use crate::directory::fault::DirectoryFault;
use crate::directory::player::Player;
use crate::{Message, WhoInfo};
use indexmap::IndexMap;
use std::alloc::{AllocError, Global};
use std::marker::Model;

/// How many names a directory holds at most. The definitions have the same number, as `directory_limit`.
const MOST_PLAYERS: usize = 4096;

/// The players that the server listed in messages 5, until it reported their logout in a message 8.
///
/// They are in the order in which each was first listed since the last logout of that name. Only the last message about
/// a player is kept. The map hashes by a fixed seed, so that each run is the same.
#[derive(Drop)]
pub struct Directory {
    players: IndexMap<Vec<u8>, Player>,
}

impl Model for Directory {
    ghost use Rattle.std.specs.Prelude.{◌≤◌, List, length};
    ghost use Rattle.fibs_messages.specs.Message.{MessageValue};
    ghost use Rattle.fibs_messages.specs.Directory.{directory_limit};
    ghost use Rattle.fibs_messages.specs.Directory.View.{players_value, IsKeyed};

    ghost Value = { List MessageValue };

    ghost view = { λ d. players_value d.players.entries };

    ghost invariant = { λ d. IsKeyed d.players.entries × (length d.players.entries ≤ directory_limit) };
}

impl Directory {
    ghost use Rattle.fibs_messages.specs.Directory.View.{player_value};

    /// The directory of no messages. It takes its memory from `alloc`.
    pub fn new(alloc: Global) -> Directory
        ensures { IsDirectory [] result }
    {
        Directory {
            players: IndexMap::new(alloc),
        }
    }

    /// The player of a name.
    pub fn get(&self, name: &[u8]) -> Option<&Player>
        ensures { option_map (λ player. player_value player.now) result ≡ entry_of name.now self.now }
    {
        self.players.get(name)
    }

    /// The player at a place, counted from 0.
    pub fn at(&self, place: usize) -> Option<&Player>
        ensures { option_map (λ player. player_value player.now) result ≡ slice_get self.now place }
    {
        let (_, player) = self.players.get_index(place)?;
        Some(player)
    }

    /// How many players there are.
    pub fn len(&self) -> usize
        ensures value { result ≡ length self.now }
        ensures limit { result ≤ directory_limit }
    {
        self.players.len()
    }

    /// True if there are no players.
    pub fn is_empty(&self) -> bool
        ensures { IsTrue result ↔ (length self.now ≡ 0) }
    {
        self.players.is_empty()
    }

    /// Forgets all players.
    pub fn clear(&mut self)
        ensures { IsDirectory [] self.new }
    {
        self.players.clear();
    }

    /// Takes note of a message: message 5 sets the player of its name, who keeps the place, or goes last if the name
    /// is new. Message 8 takes the player of its name out, and those after it move up. All others change nothing.
    ///
    /// Errors, after which the directory is as before: `Full` for a new name if there are 4096, then `Memory`.
    pub fn note(&mut self, message: &Message<'_>) -> Result<(), DirectoryFault>
        ensures noted { OnOk result ((messages : List MessageValue) → IsDirectory messages self.old →
            IsDirectory (messages ++ message_of message.now ∷ []) self.new) }
        ensures unchanged { OnErr result (self.new ≡ self.old) }
        ensures full { let told = message_of message.now in
            IsErrOf result DirectoryFault.Full ↔
            ((told.number ≡ 5) × (entry_of (name_of told) self.old ≡ None) × (length self.old ≡ directory_limit)) }
        ensures others { let told = message_of message.now in told.number ≢ 5 → IsOk result }
    {
        match message {
            Message::WhoInfo(info) => {
                if self.is_full_for(info.name.bytes()) {
                    return Err(DirectoryFault::Full);
                }
                self.set(info)?;
            }
            Message::Logout { name, .. } => self.remove(name.bytes()),
            _ => {}
        }
        Ok(())
    }

    /// Whether the name is new, and there is no room for it.
    fn is_full_for(&self, name: &[u8]) -> bool
        ensures { result ≡ is_full_for name.now self.now }
    {
        self.len() >= MOST_PLAYERS && !self.players.contains_key(name)
    }

    /// Sets the player of the message's name. All memory is there before anything changes.
    fn set(&mut self, info: &WhoInfo<'_>) -> Result<(), AllocError>
        requires { is_full_for (name_bytes info.now.name) self.old ≡ false }
        ensures set { OnOk result (self.new ≡ with_entry self.old (message 5 (who_info_fields info.now))) }
        ensures unchanged { OnErr result (self.new ≡ self.old) }
    {
        let alloc = *self.players.allocator();
        let player = Player::copied(alloc, info)?;
        let name = Vec::from_slice(alloc, info.name.bytes())?;
        self.players.insert(name, player)?;
        Ok(())
    }

    /// Takes the player of a name out.
    fn remove(&mut self, name: &[u8])
        ensures { self.new ≡ without_entry name.now self.old }
    {
        self.players.shift_remove(name);
    }
}
