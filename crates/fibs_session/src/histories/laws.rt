//! Laws of the client as a machine over its inputs, for proofs in the crates above. Each function does nothing: its
//! contract is the law, stated in `specs`.

ghost use Rattle.fibs_session.specs.History.MachineLaws.{PiecesJoin, EmptyPieceIsNothing, LinesOpenNoConnection};
ghost use Rattle.fibs_session.specs.History.Orders.{DueOrders};
ghost use Rattle.fibs_session.specs.History.Owing.{PiecesTakeFromWhatIsOwed, PiecesTakeFromTheEntriesOwed};

/// Bytes may come in any pieces: two pieces after each other are one.
#[tactic(auto, using(crate::proofs::History::Joins::pieces_join))]
pub fn pieces_join()
    ensures { PiecesJoin }
{
    fibs_lines::laws::lines_only_grow();
}

/// No bytes are no input.
#[tactic(auto, using(crate::proofs::History::Joins::empty_piece))]
pub fn empty_piece_is_nothing()
    ensures { EmptyPieceIsNothing }
{}

/// No line opens or ends a connection.
#[tactic(auto, using(crate::proofs::History::Joins::lines_open_none))]
pub fn lines_open_no_connection()
    ensures { LinesOpenNoConnection }
{}

/// An order is due exactly if four facts hold.
#[tactic(auto, using(crate::proofs::History::Due::due_orders))]
pub fn a_due_order_says()
    ensures { DueOrders }
{}

/// What a piece makes a client hand out is taken from what is owed on the connection: 18 bytes of commands, line ends
/// included, before message 1, 44 before message 2, and 6 at each line to come while a standing order is in force.
pub fn pieces_take_from_what_is_owed()
    ensures { PiecesTakeFromWhatIsOwed }
{}

/// What a piece makes a client note is taken from what is owed: an entry at each line to come, and while a standing
/// order is in force one more.
pub fn pieces_take_from_the_entries_owed()
    ensures { PiecesTakeFromTheEntriesOwed }
{}
