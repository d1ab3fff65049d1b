//! Rows that are broken at spaces.
ghost use Rattle.std.specs.Prelude.{◌≡◌, ◌≤◌, ◌++◌, ◌+◌, OnOk, IfOk, drop, length};
ghost use Rattle.fibs_fields.specs.Split.{before};
ghost use Rattle.fibs_picture.specs.Fits.{ended};
ghost use Rattle.fibs_picture.specs.InWords.Breaking.{AddsRows, piece_len, placed, ends_at};
ghost use Rattle.fibs_picture.specs.InWords.Rows.{Says};

use fibs_fields::split::split;
use std::alloc::AllocError;

/// How many bytes of a row come before the next space: the first of them may be one.
fn piece_len(row: &[u8]) -> usize
    requires { 1 ≤ length row.now }
    ensures value { result ≡ piece_len row.now }
    ensures low { result ≤ length row.now }
{
    1 + split(&row[1..], b' ').0.len()
}

/// Appends a piece of a row at this column: behind a line end, if it is not the first and has no room. Says where it
/// ends.
fn append_piece(
    piece: &[u8],
    column: usize,
    columns: usize,
    text: &mut Vec<u8>,
) -> Result<usize, AllocError>
    requires { column + length piece.now ≤ 9223372036854775807 }
    ensures text { OnOk result (text.new.items ≡ text.old.items ++ placed columns column piece.now) }
    ensures column { IfOk result (λ end. end ≡ ends_at columns column piece.now) }
{
    let end = column + piece.len();
    if column > 0 && end > columns {
        text.extend_from_slice(b"\n")?;
        text.extend_from_slice(piece)?;
        return Ok(piece.len());
    }
    text.extend_from_slice(piece)?;
    Ok(end)
}

/// Appends a row with its end, broken at spaces so that it has room in these columns.
///
/// Errors: if memory runs out.
pub(crate) fn append_broken(
    row: &[u8],
    columns: usize,
    text: &mut Vec<u8>,
) -> Result<(), AllocError>
    ensures { OnOk result (AddsRows columns (ended row.now) text.old.items text.new.items) }
{
    let mut at = 0;
    let mut column = 0;
    while at < row.len() {
        let end = at + piece_len(&row[at..]);
        column = append_piece(&row[at..end], column, columns, text)?;
        at = end;
    }
    text.extend_from_slice(b"\n")
}

/// The row of some rows that begins at a place, without its end.
fn row_at(rows: &[u8], at: usize) -> &[u8]
    requires { at ≤ length rows.now }
    ensures { result.now ≡ before 10 (drop at (ended rows.now)) }
{
    split(&rows[at..], b'\n').0
}

/// Appends rows, the last one of which has no end, each with its end, broken at spaces so that they have room in these
/// columns.
fn append_rows(rows: &[u8], columns: usize, text: &mut Vec<u8>) -> Result<(), AllocError>
    ensures { OnOk result (AddsRows columns (ended rows.now) text.old.items text.new.items) }
{
    let mut at = 0;
    while at <= rows.len() {
        let row = row_at(rows, at);
        append_broken(row, columns, text)?;
        at += row.len() + 1;
    }
    Ok(())
}

/// Appends a text in rows that have room in these columns: a row that has none is broken at spaces, and what goes on
/// begins with its space. If the last row has no end it gets one.
///
/// Errors: if memory runs out.
pub fn append_rows_of(said: &[u8], columns: usize, text: &mut Vec<u8>) -> Result<(), AllocError>
    ensures { OnOk result (Says columns said.now text.old.items text.new.items) }
{
    if said.is_empty() {
        return Ok(());
    }
    let last = said.len() - 1;
    if said[last] == b'\n' {
        append_rows(&said[..last], columns, text)
    } else {
        append_rows(said, columns, text)
    }
}
