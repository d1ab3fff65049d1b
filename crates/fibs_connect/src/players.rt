//! The list of the players that are known.
ghost use Rattle.std.specs.Prelude.{OnOk};
ghost use Rattle.fibs_connect.specs.Converse.Players.{players_told};

use crate::front::Front;
use crate::said::Said;
use crate::turns::ExchangeFault;
use fibs_session::Directory;

/// Reports each player of the directory, in its order.
pub fn tell_players<F: Front>(directory: &Directory, front: &mut F) -> Result<(), ExchangeFault>
    ensures { OnOk result (F.tells front.old (players_told directory.now) front.new) }
{
    for place in 0..directory.len() {
        match directory.at(place) {
            Some(player) => front.tell(&Said::Player(player))?,
            None => return Ok(()),
        }
    }
    Ok(())
}
