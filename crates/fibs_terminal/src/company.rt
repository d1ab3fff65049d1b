//! Who is listed on a connection, and who invites the user.
ghost use Rattle.std.specs.Prelude.{◌≡◌, ◌⊎◌, ◌++◌, ◌∷◌, [], IfOk, IsTrue, List, OnOk, Some, false, true};
ghost use Rattle.fibs_messages.specs.Directory.{IsDirectory};
ghost use Rattle.fibs_messages.specs.Message.{MessageValue, message_of};
ghost use Rattle.fibs_advice.specs.declared.standing.Standing.TheVariants as S;
ghost use Rattle.fibs_terminal.specs.Boxes.{IsEmptyCompany};
ghost use Rattle.fibs_terminal.specs.KeptLists.{IsAmong, IsNotAmong, KeepsName};

use crate::own_rows::fit_from;
use fibs_advice::situation::Inviter;
use fibs_advice::standing::Standing;
use fibs_fields::trailing_spaces::without_spaces;
use fibs_messages::Message;
use fibs_session::{Directory, DirectoryFault};
use fibs_wording::environment::Page;
use fibs_wording::environment::pieces::append_all;
use fibs_wording::invitations::{Invitation, append_invitation, read_invitation};
use std::alloc::{AllocError, Global};

/// Who is listed on a connection.
#[derive(Drop)]
pub struct Company {
    /// The players that the server has listed: the client's own list is not at hand when a text comes.
    listed: Directory,
    /// Whether the rows of a list of saved matches are coming.
    pub lists: bool,
    /// Who has talked with the user.
    spoken: Vec<Vec<u8>>,
}

/// How many who have talked with the user are kept: then the first of them goes.
const MOST_SPOKEN: usize = 256;

impl Company {
    /// The server has said nothing.
    pub fn new(alloc: Global) -> Company
        ensures { IsEmptyCompany result }
    {
        Company {
            listed: Directory::new(alloc),
            lists: false,
            spoken: Vec::new(alloc),
        }
    }

    /// The players who are listed.
    pub fn listed(&self) -> &Directory
        ensures { result.now ≡ self.now.listed }
    {
        &self.listed
    }

    /// Whether a player has talked with the user.
    pub fn has_spoken(&self, name: &[u8]) -> bool
        ensures spoken { IsTrue result → IsAmong name.now self.now.spoken.items }
        ensures silent { result ≡ false → IsNotAmong name.now self.now.spoken.items }
    {
        for spoken in &self.spoken {
            if spoken.as_slice() == name {
                return true;
            }
        }
        false
    }

    /// A player has talked with the user.
    pub fn note_speaker(&mut self, alloc: Global, name: &[u8]) -> Result<(), AllocError>
        ensures spoken { OnOk result (KeepsName 256 self.old.spoken.items name.now self.new.spoken.items) }
        ensures listed { self.new.listed ≡ self.old.listed }
        ensures lists { self.new.lists ≡ self.old.lists }
    {
        if self.has_spoken(name) {
            return Ok(());
        }
        let name = Vec::from_slice(alloc, name)?;
        if self.spoken.len() >= MOST_SPOKEN {
            self.spoken.remove(0);
        }
        self.spoken.push(name)?;
        Ok(())
    }

    /// Takes note of a message: who is listed.
    pub fn note_message(&mut self, message: &Message<'_>) -> Result<(), AllocError>
        ensures listed { (self.new.listed ≡ self.old.listed) ⊎ ((messages : List MessageValue)
            → IsDirectory messages self.old.listed
            → IsDirectory (messages ++ message_of message.now ∷ []) self.new.listed) }
        ensures kept { self.new ≡ record self.old { listed = self.new.listed } }
    {
        match self.listed.note(message) {
            Err(DirectoryFault::Memory) => Err(AllocError),
            // who finds no place is named by the client's own list
            Ok(()) | Err(DirectoryFault::Full) => Ok(()),
        }
    }

    /// The rating and the experience of a player, if the server has listed him.
    fn rated(&self, name: &[u8]) -> Option<(u32, u64)> {
        let player = self.listed.get(name)?;
        Some((player.rating, player.experience))
    }

    /// Says who invites the user, and how he joins, if he can and the row has room for it. Whether it has; None if the
    /// text is another one.
    pub fn say_invitation(
        &self,
        said: &[u8],
        standing: Standing,
        page: &mut Page<'_>,
    ) -> Result<Option<bool>, AllocError>
        ensures { IfOk result (λ said. said ≡ Some true → standing ≡ S.Invited) }
    {
        let alloc = page.alloc;
        let Some(invitation) = read_invitation(alloc, without_spaces(said))? else {
            return Ok(None);
        };
        let Invitation { name, offered } = invitation;
        let mut who = Vec::new(alloc);
        append_invitation(name.bytes(), self.rated(name.bytes()), offered, &mut who)?;
        let mut how = Vec::new(alloc);
        append_all(&[b": join ", name.bytes()], &mut how)?;
        let has_room = page.has_room(who.len().saturating_add(how.len()));
        if standing == Standing::Invited && has_room {
            page.say_all(&[who.as_slice(), how.as_slice(), b"\n"])?;
            return Ok(Some(true));
        }
        let start = page.text.len();
        page.say_all(&[who.as_slice(), b".\n"])?;
        fit_from(start, page)?;
        Ok(Some(false))
    }
}

/// Whether a text says no more than how one joins who has invited the user, which was said.
pub fn is_told(said: &[u8], inviter: &Inviter) -> bool
    ensures { IsTrue result → inviter.now.is_told ≡ true }
{
    let quoted = match without_spaces(said).strip_prefix(b"Type 'join ") {
        None => return false,
        Some(rest) => rest.strip_suffix(b"' to accept."),
    };
    inviter.is_told && quoted == Some(inviter.name.as_slice())
}
