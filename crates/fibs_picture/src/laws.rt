//! Laws of pictures. Each is a promise; the functions do nothing else.
ghost use Rattle.fibs_picture.specs.Fits.{PictureFits};
ghost use Rattle.fibs_picture.specs.Rows.{CellsTell, EyeSees};
ghost use Rattle.fibs_picture.specs.Tells.{FactsTell, PictureTells, PictureSeen};

use fibs_fields::boards::laws::fields_have_their_ranges;

/// Boards whose rows the eye sees alike have the same checkers on each place; also which way the player goes by the
/// server's numbers, if those are shown.
pub fn cells_tell()
    ensures { CellsTell }
{
    fields_have_their_ranges();
}

/// The eye sees of a row its bytes, whatever is marked.
pub fn eye_sees()
    ensures { EyeSees }
{}

/// Boards with the same cells and the same facts look the same (`SameOnScreen`), wherever the words stand.
pub fn facts_tell()
    ensures { FactsTell }
{
    fields_have_their_ranges();
}

/// Boards that the eye sees alike look the same, whatever the letters, the numbers, the marks, the side and the columns
/// are.
pub fn picture_tells()
    ensures { PictureTells }
{
    fields_have_their_ranges();
}

/// The eye sees of a picture that is written its bytes, whatever is marked.
pub fn picture_seen()
    ensures { PictureSeen }
{
    fields_have_their_ranges();
}

/// From 40 columns on a picture is rows that fit.
pub fn picture_fits()
    ensures { PictureFits }
{
    fields_have_their_ranges();
}
