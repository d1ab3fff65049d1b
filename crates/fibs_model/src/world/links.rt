//! The wires of each connection.

ghost use Rattle.std.specs.Prelude.{◌≡◌, ◌≤◌, ◌<◌, ◌+◌, ◌-◌, length, vec_len, OnOk, IsOk};
ghost use Rattle.fibs_session.specs.Calls.SessionOf.{handed};
ghost use Rattle.fibs_session.specs.History.Machine.{on_wire};
ghost use Rattle.fibs_model.specs.Calls.{ask_links, send_links};
ghost use Rattle.fibs_model.specs.WireLinks.{more_asked, more_coming, cut_off};
ghost use Rattle.fibs_model.specs.LinksOf.{link_of, seen, link_at, set_link, RoomToClient, RoomToServer};

use super::link::Link;
use fibs_session::CommandText;
use std::alloc::AllocError;

/// The most bytes of a command with its line end.
pub(super) const COMMAND: usize = 514;

/// The most bytes of a board with its line end.
pub(super) const BOARD: usize = 331;

/// Makes room for more bytes on both wires.
fn widen(link: &mut Link, to_client: usize, to_server: usize) -> Result<(), AllocError>
    ensures same { link_of link.new ≡ link_of link.old }
    ensures to_client { OnOk result (to_client ≤ link.new.to_client.room) }
    ensures to_server { OnOk result (to_server ≤ link.new.to_server.room) }
{
    link.to_client.reserve(to_client)?;
    link.to_server.reserve(to_server)?;
    Ok(())
}

/// Makes room for more bytes on the wires of a connection. The connection 0 has none.
pub(super) fn make_room(
    links: &mut Vec<Link>,
    conn: usize,
    to_client: usize,
    to_server: usize,
) -> Result<(), AllocError>
    requires known { conn ≤ vec_len links.old }
    ensures same { seen links.new.items ≡ seen links.old.items }
    ensures len { vec_len links.new ≡ vec_len links.old }
    ensures to_client { OnOk result (0 < conn → RoomToClient links.new.items conn to_client) }
    ensures to_server { OnOk result (0 < conn → RoomToServer links.new.items conn to_server) }
{
    if conn == 0 {
        return Ok(());
    }
    widen(&mut links[conn - 1], to_client, to_server)
}

/// Puts a line on the wire to the client.
pub(super) fn put_to_client(links: &mut Vec<Link>, conn: usize, text: &[u8])
    requires some { 0 < conn }
    requires known { conn ≤ vec_len links.old }
    requires room { RoomToClient links.old.items conn (length text.now + 2) }
    ensures value { seen links.new.items
        ≡ set_link (seen links.old.items) conn (more_coming (link_at (seen links.old.items) conn) (on_wire text.now)) }
    ensures len { vec_len links.new ≡ vec_len links.old }
{
    let link = &mut links[conn - 1];
    link.to_client.put(text);
}

/// Puts a command on the wire to the server.
pub(super) fn put_to_server(links: &mut Vec<Link>, conn: usize, text: &[u8])
    requires some { 0 < conn }
    requires known { conn ≤ vec_len links.old }
    requires room { RoomToServer links.old.items conn (length text.now + 2) }
    ensures value { seen links.new.items
        ≡ set_link (seen links.old.items) conn (more_asked (link_at (seen links.old.items) conn) (on_wire text.now)) }
    ensures len { vec_len links.new ≡ vec_len links.old }
{
    let link = &mut links[conn - 1];
    link.to_server.put(text);
}

/// Of the bytes on their way to the server the first `kept` stay, of those on their way to the client none.
pub(super) fn cut(links: &mut Vec<Link>, conn: usize, kept: usize)
    requires some { 0 < conn }
    requires known { conn ≤ vec_len links.old }
    ensures value { seen links.new.items
        ≡ set_link (seen links.old.items) conn (cut_off (link_at (seen links.old.items) conn) kept) }
    ensures len { vec_len links.new ≡ vec_len links.old }
{
    let link = &mut links[conn - 1];
    link.to_client.cut(0);
    link.to_server.cut(kept);
}

/// Puts the command that the client handed out, if it did, on the wire to the server.
pub(super) fn hand_out<E>(links: &mut Vec<Link>, conn: usize, answer: &Result<CommandText, E>)
    requires some { IsOk answer.now → 0 < conn }
    requires known { conn ≤ vec_len links.old }
    requires room { 0 < conn → RoomToServer links.old.items conn 514 }
    ensures value { seen links.new.items ≡ ask_links (seen links.old.items) conn (handed answer.now) }
    ensures len { vec_len links.new ≡ vec_len links.old }
{
    if let Ok(command) = answer {
        put_to_server(links, conn, command.as_bytes());
    }
}

/// Puts a line on the wire to the client, if the open connection is the one logged in.
pub(super) fn send_line(links: &mut Vec<Link>, conn: usize, logged_in: usize, line: &[u8])
    requires known { conn ≤ vec_len links.old }
    requires room { 0 < conn → RoomToClient links.old.items conn (length line.now + 2) }
    ensures value { seen links.new.items ≡ send_links logged_in conn (seen links.old.items) line.now }
    ensures len { vec_len links.new ≡ vec_len links.old }
{
    if conn == logged_in && logged_in != 0 {
        put_to_client(links, conn, line);
    }
}
