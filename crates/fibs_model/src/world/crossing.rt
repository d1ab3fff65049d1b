//! Bytes of the open connection cross the carrier, before the world takes them.

ghost use Rattle.std.specs.Prelude.{◌≡◌, ◌≤◌, ◌<◌, ◌∷◌, [], true, length, take, IsErr, OnOk, IsSome};
ghost use Rattle.fibs_model.specs.declared.carriers.carrier.Way.TheVariants.{ToServer, ToClient};
ghost use Rattle.fibs_model.specs.Carrying.{crossed, closed};
ghost use Rattle.fibs_model.specs.Crossings.{line_crossings};
ghost use Rattle.fibs_model.specs.LinksOf.{seen, link_at};
ghost use Rattle.fibs_model.specs.Wires.{next_line};

use super::link::Link;
use crate::carriers::{Broken, Carrier, Way};
use crate::wire::whole_line;

/// The next bytes to the client cross.
pub(super) fn cross_to_client<C: Carrier>(
    carrier: &mut C,
    links: &[Link],
    conn: usize,
    n: usize,
) -> Result<(), Broken>
    requires some { 0 < conn }
    requires known { conn ≤ length links.now }
    ensures carries { OnOk result (C.carries carrier.old
        (crossed ToClient (take n (link_at (seen links.now) conn).coming) ∷ []) carrier.new) }
    ensures unbroken { IsErr result → C.may_break ≡ true }
{
    carrier.cross(Way::ToClient, links[conn - 1].to_client.next(n))
}

/// The next line to the server crosses, if it is of the open connection; of any other it has crossed at the loss.
pub(super) fn cross_line<C: Carrier>(
    carrier: &mut C,
    links: &[Link],
    current: usize,
    conn: usize,
) -> Result<(), Broken>
    requires some { 0 < conn }
    requires known { conn ≤ length links.now }
    requires whole { IsSome (next_line (link_at (seen links.now) conn).asked) }
    ensures carries { OnOk result (C.carries carrier.old
        (line_crossings current conn (link_at (seen links.now) conn).asked) carrier.new) }
    ensures unbroken { IsErr result → C.may_break ≡ true }
{
    if conn != current {
        return Ok(());
    }
    let bytes = links[conn - 1].to_server.bytes();
    let len = whole_line(bytes).unwrap();
    carrier.cross(Way::ToServer, &bytes[..len + 2])
}

/// The bytes to the server that stay at a loss cross, and the connection is closed.
pub(super) fn hang_up<C: Carrier>(
    carrier: &mut C,
    links: &[Link],
    conn: usize,
    kept: usize,
) -> Result<(), Broken>
    requires some { 0 < conn }
    requires known { conn ≤ length links.now }
    ensures carries { OnOk result (C.carries carrier.old
        (crossed ToServer (take kept (link_at (seen links.now) conn).asked) ∷ closed ∷ []) carrier.new) }
    ensures unbroken { IsErr result → C.may_break ≡ true }
{
    carrier.cross(Way::ToServer, links[conn - 1].to_server.next(kept))?;
    carrier.close()
}
