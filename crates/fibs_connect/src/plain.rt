//! The plain account: a line is printed for each thing that happens.
ghost use Rattle.std.specs.Prelude.{◌≡◌, ◌≤◌, OnOk, length, option_map};
ghost use Rattle.std.specs.Io.KnownBytes.{Appends};
ghost use Rattle.fibs_fields.specs.Field.{RatingField, canonical_text};
ghost use Rattle.fibs_messages.specs.Directory.View.{player_value};
ghost use Rattle.fibs_session.specs.Calls.SessionOf.{ask_of};
ghost use Rattle.fibs_engine.specs.Printing.{line_bytes};
ghost use Rattle.fibs_connect.specs.Account.{printed_of};
ghost use Rattle.fibs_connect.specs.Lines.{confirmed_line, unnoted_line, lost_line, player_line, plain_label};
ghost use Rattle.fibs_connect.specs.SaidOf.{said_of};

use crate::fault::FrontFault;
use crate::front::Front;
use crate::heard::print_heard;
use crate::printing::{print, print_line, print_reason, text_bytes};
use crate::said::Said;
use arrayvec::ArrayVec;
use fibs_engine::fixed::append_number;
use fibs_fields::fixed::append;
use fibs_session::{DirectoryFault, Outstanding, PlainRefusal, Player};
use std::io::Write;

/// The line of a player: a name has at most 64 bytes.
type PlayerLine = ArrayVec<u8, 128>;

/// A front end that prints a line for each thing that is reported to it. It prints none for a connection that is made
/// or for a line that is sent as it is, and no reason if no connection can be made.
#[derive(Drop)]
pub struct Plain<'a, W: Write> {
    /// Where it prints.
    pub out: &'a mut W,
}

impl<W: Write> Front for Plain<'_, W> {
    ghost use Rattle.fibs_connect.specs.Account.{Accounts, accounts_nothing, accounts_joined};
    ghost use Rattle.std.proofs.Common.{refl, ◌∙◌};

    ghost tells = { λ a told b. (b.out.ghost_name ≡ a.out.ghost_name)
        × Accounts (W.contents a.out.now) told (W.contents b.out.now) };

    fn tell(&mut self, said: &Said<'_>) -> Result<(), FrontFault> {
        print_said(said, self.out)
    }

    fn flush(&mut self) -> Result<(), FrontFault> {
        self.out.flush().map_err(|_| FrontFault::Output)
    }

    ghost joins = { record {
      nothing = λ a. (refl, accounts_nothing (W.contents a.out.now));
      joined = λ a b c xs ys p q. (
        q.0 ∙ p.0,
        accounts_joined (W.contents a.out.now) (W.contents b.out.now) (W.contents c.out.now) xs ys p.1 q.1,
      );
    } };
}

/// Prints the line of one thing.
fn print_said<W: Write>(said: &Said<'_>, out: &mut W) -> Result<(), FrontFault>
    ensures { OnOk result (Appends (W.contents out.old) (W.contents out.new) (printed_of (said_of said.now))) }
{
    match said {
        Said::Opened | Said::Passed(_) => Ok(()),
        Said::NoConnection(_) => print_line(b"no connection", b"", out),
        Said::Heard(line, reading, _) => print_heard(line, reading, out),
        Said::Game(game) => print_line(b"phase ", game.phase().name().as_bytes(), out),
        Said::Confirmed(asked) => print_confirmed(asked, out),
        Said::Sent(command) => print_line(b"sent ", text_bytes(command), out),
        Said::Rolled => print_line(b"sent roll", b"", out),
        Said::Ordered => print_line(b"ordered", b"", out),
        Said::Withdrawn => print_line(b"withdrawn", b"", out),
        Said::Refused(why) => print_reason(b"refused ", why.number(), *why, out),
        Said::NotSent(why) => print_reason(plain_label(*why), why.number(), *why, out),
        Said::Unknown => print_line(b"unknown", b"", out),
        Said::Lost(waited) => print_lost(waited, out),
        Said::Unnoted(why) => print_unnoted(*why, out),
        Said::Player(player) => print_player(player, out),
    }
}

/// What a refusal of a plain command is called: a fault is the command's own.
fn plain_label(why: PlainRefusal) -> &'static [u8]
    ensures value { result.now ≡ plain_label why }
    ensures short { length result.now ≤ 8 }
{
    match why {
        PlainRefusal::Offline | PlainRefusal::NotOn => b"refused ",
        PlainRefusal::Fault(_) => b"fault ",
    }
}

/// Prints the decision that is confirmed.
fn print_confirmed<W: Write>(asked: &Outstanding, out: &mut W) -> Result<(), FrontFault>
    ensures { OnOk result (Appends (W.contents out.old) (W.contents out.new)
        (line_bytes (confirmed_line (ask_of asked.now)))) }
{
    print_line(b"confirmed ", text_bytes(&asked.command()), out)
}

/// Prints why the directory took no note.
fn print_unnoted<W: Write>(why: DirectoryFault, out: &mut W) -> Result<(), FrontFault>
    ensures { OnOk result (Appends (W.contents out.old) (W.contents out.new) (line_bytes (unnoted_line why))) }
{
    print_reason(b"directory ", why.number(), why, out)
}

/// Prints that the connection is over.
fn print_lost<W: Write>(waited: &Option<Outstanding>, out: &mut W) -> Result<(), FrontFault>
    ensures { OnOk result (Appends (W.contents out.old) (W.contents out.new)
        (line_bytes (lost_line (option_map ask_of waited.now)))) }
{
    match waited {
        None => print_line(b"lost", b"", out),
        Some(asked) => print_line(b"lost ", text_bytes(&asked.command()), out),
    }
}

/// A rating, which is kept in hundredths, with two digits after its point.
fn rating_text(rating: u32) -> ArrayVec<u8, 16>
    ensures { result.items ≡ canonical_text (RatingField rating) }
{
    let mut text = ArrayVec::new();
    append_number(&mut text, rating / 100);
    let tenths = b'0' + (rating % 100 / 10) as u8;
    let hundredths = b'0' + (rating % 10) as u8;
    append(&mut text, &[b'.', tenths, hundredths]);
    text
}

/// Prints the line of a player.
fn print_player<W: Write>(player: &Player, out: &mut W) -> Result<(), FrontFault>
    ensures { OnOk result (Appends (W.contents out.old) (W.contents out.new)
        (line_bytes (player_line (player_value player.now)))) }
{
    let mut line = PlayerLine::new();
    print(b"player ", &mut line)?;
    print(player.name.as_slice(), &mut line)?;
    print(b" ", &mut line)?;
    print(rating_text(player.rating).as_slice(), &mut line)?;
    print(b"\n", &mut line)?;
    print(line.as_slice(), out)
}
