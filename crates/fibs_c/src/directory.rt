//! The directory of players.

ghost use Rattle.std.specs.Prelude.{◌≡◌, None, option_map};
ghost use Rattle.fibs_messages.specs.Directory.View.{player_value};
ghost use Rattle.fibs_messages.specs.FieldOf.{field_at};
ghost use Rattle.fibs_messages.specs.Line.{reading_of, reading_value};
ghost use Rattle.fibs_c.specs.DirectoryDoor.{IsNewDirectory, IsNoted, Notes, IsCounted, IsCleared, IsPlayerAt, IsPlayerOf, IsPlayerField};
ghost use Rattle.fibs_c.specs.Records.Fields.{part_value, told_field};

use crate::records::DirectoryHandle;
use crate::records::fields::{FieldPart, FieldRecord, put_field};
use crate::records::status::{
    DONE, HELD, MEMORY, NO_FIELD, NO_HANDLE, NO_PLAYER, directory_fault_status,
};
use fibs_messages::directory::{Directory, Player};
use fibs_messages::{Reading, read};
use std::alloc::Global;

/// Makes a directory of no messages. A handle that holds one stays as it is.
#[unsafe(no_mangle)]
pub extern "C" fn fibs_directory_new(alloc: Global, directory: &mut DirectoryHandle) -> u32
    ensures { IsNewDirectory directory.old.value directory.new.value result }
{
    if let Some(held) = directory.take(alloc) {
        *directory = DirectoryHandle::of(held);
        return HELD;
    }
    match Box::new(alloc, Directory::new(alloc)) {
        Ok(made) => {
            *directory = DirectoryHandle::of(made);
            DONE
        }
        Err(_) => MEMORY,
    }
}

/// Gives the directory's memory back. The handle then holds nothing; a handle that held nothing stays as it is.
#[unsafe(no_mangle)]
pub extern "C" fn fibs_directory_free(alloc: Global, directory: &mut DirectoryHandle)
    ensures { directory.new.value ≡ None }
{
    drop(directory.take(alloc));
}

/// Takes note of what a reading says.
fn note(directory: &mut Directory, reading: &Reading<'_>) -> u32
    ensures { Notes directory.old directory.new (reading_of reading.now) result }
{
    match reading {
        Reading::Numbered(message) => match directory.note(message) {
            Ok(()) => DONE,
            Err(fault) => directory_fault_status(fault),
        },
        Reading::Board(_) | Reading::Text(_) | Reading::Malformed { .. } => DONE,
    }
}

/// Takes note of a line that was not cut: message 5 sets the player of its name, message 8 takes him out, and every
/// other line changes nothing.
#[unsafe(no_mangle)]
pub extern "C" fn fibs_directory_note(
    alloc: Global,
    directory: &mut DirectoryHandle,
    line: &[u8],
) -> u32
    ensures { IsNoted directory.old.value directory.new.value (reading_value line.now) result }
{
    with!(DirectoryHandle, directory, alloc, |held| {
        note(&mut held, &read(line))
    })
}

/// How many players there are.
#[unsafe(no_mangle)]
pub extern "C" fn fibs_directory_len(
    alloc: Global,
    directory: &mut DirectoryHandle,
    len: &mut usize,
) -> u32
    ensures { IsCounted directory.old.value directory.new.value len.old len.new result }
{
    with!(DirectoryHandle, directory, alloc, |held| {
        *len = held.len();
        DONE
    })
}

/// Forgets all players.
#[unsafe(no_mangle)]
pub extern "C" fn fibs_directory_clear(alloc: Global, directory: &mut DirectoryHandle) -> u32
    ensures { IsCleared directory.old.value directory.new.value result }
{
    with!(DirectoryHandle, directory, alloc, |held| {
        held.clear();
        DONE
    })
}

/// The field of this number in what the server said of a player.
fn player_part(player: &Player, number: usize) -> Option<FieldPart<'_>>
    ensures { option_map part_value result ≡ option_map told_field (field_at number (player_value player.now).fields) }
{
    match number {
        1 => Some(FieldPart::name(player.name.as_slice())),
        2 => Some(FieldPart::name(player.opponent.as_slice())),
        3 => Some(FieldPart::name(player.watching.as_slice())),
        4 => Some(FieldPart::flag(player.ready)),
        5 => Some(FieldPart::flag(player.away)),
        6 => Some(FieldPart::rating(player.rating)),
        7 => Some(FieldPart::number(player.experience)),
        8 => Some(FieldPart::number(player.idle)),
        9 => Some(FieldPart::number(player.login)),
        10 => Some(FieldPart::word(player.hostname.as_slice())),
        11 => Some(FieldPart::word(player.client.as_slice())),
        12 => Some(FieldPart::tail(player.email.as_slice())),
        _ => None,
    }
}

/// Gives a field of a player, if there is one who has it.
fn put_player_field(
    player: Option<&Player>,
    number: usize,
    field: &mut FieldRecord,
    text: &mut [u8],
) -> u32
    ensures { IsPlayerField (option_map (λ p. player_value p.now) player.entry) number field.old field.new text.old
        text.new result }
{
    match player {
        None => NO_PLAYER,
        Some(player) => match player_part(player, number) {
            None => NO_FIELD,
            Some(part) => put_field(&part, field, text),
        },
    }
}

/// A field of the player at a place, counted from 0: the fields are those of message 5, counted from 1. Its bytes are
/// copied into `text`.
#[unsafe(no_mangle)]
pub extern "C" fn fibs_directory_field(
    alloc: Global,
    directory: &mut DirectoryHandle,
    place: usize,
    number: usize,
    field: &mut FieldRecord,
    text: &mut [u8],
) -> u32
    ensures { IsPlayerAt directory.old.value directory.new.value place number field.old field.new text.old text.new
        result }
{
    with!(DirectoryHandle, directory, alloc, |held| {
        put_player_field(held.at(place), number, field, text)
    })
}

/// The same for the player of a name.
#[unsafe(no_mangle)]
pub extern "C" fn fibs_directory_field_of(
    alloc: Global,
    directory: &mut DirectoryHandle,
    name: &[u8],
    number: usize,
    field: &mut FieldRecord,
    text: &mut [u8],
) -> u32
    ensures { IsPlayerOf directory.old.value directory.new.value name.now number field.old field.new text.old text.new
        result }
{
    with!(DirectoryHandle, directory, alloc, |held| {
        put_player_field(held.get(name), number, field, text)
    })
}
