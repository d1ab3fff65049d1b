//! Laws of lines and of the definitions, for proofs in the crates above.
//!
//! The functions without parameters do nothing: the contract is the law, stated in `specs/StreamLaws.antt`.

ghost use Rattle.std.specs.Prelude.{◌≡◌, ◌↔◌, IsTrue};
ghost use Rattle.fibs_lines.specs.Lines.{value_of, line_value, kept_limit};
ghost use Rattle.fibs_lines.specs.StreamLaws.{PartsAreLinesAndRest, EmptyStreamHasNoLine, LinesOnlyGrow, LinesAreAtMostTheLineEnds, LineEndIsALineStart, LineEndEndsALine, LineStartReadsAlone, WhatFollowsALineEndReadsAlone, LinesFit, SendableTextIsItsLine, PromptsAreRemoved};

use crate::{Fed, LIMIT, Line};

/// The code keeps as many bytes of a line as the definitions say.
pub fn limit_is_that_of_the_definitions()
    ensures { LIMIT ≡ kept_limit }
{}

/// Two lines are equal exactly if their bytes are and both are cut or neither is.
pub fn lines_are_their_bytes(a: &Line<'_>, b: &Line<'_>) -> bool
    ensures { IsTrue result ↔ (value_of a.now ≡ value_of b.now) }
{
    *a == *b
}

/// Two answers of `Lines::feed` are equal exactly if as many bytes were read and the same line was lent, or none.
pub fn answers_are_their_lines(a: &Fed<'_>, b: &Fed<'_>) -> bool
    ensures { IsTrue result ↔ ((a.now.used ≡ b.now.used) × (line_value a.now.line ≡ line_value b.now.line)) }
{
    a == b
}

/// The finished lines and the rest are all the parts between the line ends.
#[tactic(auto, using(crate::proofs::StreamLawProofs::parts_are_lines_and_rest))]
pub fn parts_are_lines_and_rest()
    ensures { PartsAreLinesAndRest }
{}

/// The empty stream has no line, and is at a line's start.
#[tactic(auto, using(crate::proofs::StreamLawProofs::empty_stream_has_no_line))]
pub fn empty_stream_has_no_line()
    ensures { EmptyStreamHasNoLine }
{}

/// What comes later takes no line back and changes none.
#[tactic(auto, using(crate::proofs::StreamLawProofs::lines_only_grow))]
pub fn lines_only_grow()
    ensures { LinesOnlyGrow }
{}

/// A piece gives at most as many lines as it has bytes LF.
#[tactic(auto, using(crate::proofs::EndsCounted::lines_are_at_most_the_line_ends))]
pub fn lines_are_at_most_the_line_ends()
    ensures { LinesAreAtMostTheLineEnds }
{}

/// After CR LF a stream is at a line's start, whatever came before.
pub fn line_end_is_a_line_start()
    ensures { LineEndIsALineStart }
{}

/// CR LF ends just one line, whatever came before.
#[tactic(auto, using(crate::proofs::LineEnds::line_end_ends_a_line))]
pub fn line_end_ends_a_line()
    ensures { LineEndEndsALine }
{}

/// What follows a line's start is read as if it were alone.
pub fn line_start_reads_alone()
    ensures { LineStartReadsAlone }
{}

/// The lines of `t CR LF s` are those of `t CR LF` and then those of `s`, for every `t`.
pub fn what_follows_a_line_end_reads_alone()
    ensures { WhatFollowsALineEndReadsAlone }
{}

/// No line is longer than `LIMIT` bytes.
#[tactic(auto, using(crate::proofs::StreamLawProofs::lines_fit))]
pub fn lines_fit()
    ensures { LinesFit }
{}

/// A text that fits, begins with no prompt and has no LF and no byte 255 is read as it was sent.
#[tactic(auto, using(crate::proofs::StreamLawProofs::sendable_text_is_its_line))]
pub fn sendable_text_is_its_line()
    ensures { SendableTextIsItsLine }
{}

/// The prompts at the start of a line are removed, all of them and nothing else.
#[tactic(auto, using(crate::proofs::StreamLawProofs::prompts_are_removed))]
pub fn prompts_are_removed()
    ensures { PromptsAreRemoved }
{}
