//! Laws of the statuses.

ghost use Rattle.fibs_c.specs.Records.Statuses.{StatusesAreNamed};

/// The name of a status is that of the refusal or the fault.
pub fn statuses_are_named()
    ensures { StatusesAreNamed }
{}
