//! The law of a script's lines. The function does nothing: its contract is the law.
ghost use Rattle.fibs_replay.specs.EventReading.{EventsAreExact};

/// Which event a line of a script says, by the function, is what the relation says.
pub fn events_are_exact()
    ensures { EventsAreExact }
{
    fibs_messages::laws::decimals_are_exact();
    fibs_messages::laws::reading_is_exact();
    fibs_messages::laws::each_line_has_one_reading();
    fibs_messages::laws::spellings_are_lines();
    fibs_session::laws::read_command_is_exact();
    fibs_session::laws::read_plain_is_exact();
}
