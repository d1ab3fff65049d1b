//! Laws of directories.

ghost use Rattle.fibs_messages.specs.Directory.Laws.{EachListHasADirectory, NoListHasTwoDirectories, OtherMessagesChangeNothing};

/// Each list of messages has a directory, and no second one.
pub fn each_list_of_messages_has_one_directory()
    ensures some { EachListHasADirectory }
    ensures one { NoListHasTwoDirectories }
{}

/// A message that is neither 5 nor 8 leaves the directory as it is.
pub fn other_messages_change_nothing()
    ensures { OtherMessagesChangeNothing }
{}
