//! Small games, with the laws at them: a counter that two sides raise in turn, and the same with a spelling that two
//! decisions share.

ghost use Rattle.std.specs.Prelude.{◌≡◌};
ghost use Rattle.fibs_game.specs.Examples.{game_of, IsFalse};
ghost use Rattle.fibs_game.specs.declared.examples.Example.TheVariants.{Counter, SharedSpelling};
ghost use Rattle.fibs_game.specs.Lawful.{Lawful};
ghost use Rattle.fibs_game.specs.Laws.{HeadlineHolds, NothingServedIsStale, JointStatement, AgreesHolds, OnlyLoginHolds, CanRestHolds, ThisWayLeadsToRest};
ghost use Rattle.fibs_game.specs.Once.{OneStep, OnceHolds};

/// A game.
#[derive(Clone, Copy, Debug, PartialEq, Eq)]
pub enum Example {
    /// A counter that two sides raise in turn, by one or by two.
    Counter,
    /// The same, but both raises are spelled alike.
    SharedSpelling,
}

impl Example {
    /// The one that keeps the laws of a game, so that all that is said of games holds of it.
    pub fn lawful() -> Example
        ensures which { result ≡ Counter }
        ensures lawful { Lawful (game_of result) }
        ensures headline { HeadlineHolds (game_of result) }
        ensures stale { NothingServedIsStale (game_of result) }
        ensures joint_statement { JointStatement (game_of result) }
        ensures agrees { AgreesHolds (game_of result) }
        ensures only_login { OnlyLoginHolds (game_of result) }
        ensures can_rest { CanRestHolds (game_of result) }
        ensures way { ThisWayLeadsToRest (game_of result) }
        ensures one_step { OneStep (game_of result) }
        ensures once { OnceHolds (game_of result) }
    {
        Example::Counter
    }

    /// The one that does not: after some list of events the headline is false.
    pub fn unlawful() -> Example
        ensures which { result ≡ SharedSpelling }
        ensures false_headline { IsFalse (game_of result) }
    {
        Example::SharedSpelling
    }
}
