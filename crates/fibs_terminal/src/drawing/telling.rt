//! After which board another one is told in words.
ghost use Rattle.std.specs.Prelude.{◌≡◌};
ghost use Rattle.fibs_terminal.specs.Drawings.{told_before};

use fibs_picture::in_words::Told;
use fibs_wording::environment::Settings;

/// The board after which the next one is told, if of that only what is new is told: not if it is told whole.
pub(crate) fn told_before(settings: &Settings<'_>, whole: bool, last: Option<Told>) -> Option<Told>
    ensures { result ≡ told_before settings.now whole last }
{
    if settings.is_short && !whole {
        last
    } else {
        None
    }
}
