//! Moves as players type them: `8/5 6/5`, `8-5 6-5`, `8/5(2)`, `bar/20`, `6/off`, `24/18/13`.
ghost use Rattle.std.specs.Prelude.{◌≡◌, ◌≤◌, ◌<◌, ℕ, [], true, IfSome, Some, length, map, option_map, replicate};
ghost use Rattle.std.specs.Str.{bytes_eq};
ghost use Rattle.fibs_fields.specs.Decimal.{decimal_up_to};
ghost use Rattle.fibs_fields.specs.Split.{seen};
ghost use Rattle.fibs_rules.specs.Hop.{hop_of};
ghost use Rattle.fibs_rules.specs.PlayValue.{hops_of};
ghost use Rattle.fibs_commands.specs.CommandReading.{numbered_place, step_between};
ghost use Rattle.fibs_advice.specs.Spelling.{ChangesSame, LeadsSame, along, between, brought_to, cut_of, is_closed, is_end, is_filler, is_move_word, place_named, place_typed, steps_of_line, steps_of_word, steps_of_words, steps_shown, taken_from, times_in};
ghost use Rattle.fibs_advice.specs.SpellingSteps.{onto};

use fibs_commands::BAR;
use fibs_fields::decimal::read_decimal;
use fibs_fields::split::split;
use fibs_position::{Direction, Play, Step};

/// The place of a number from 1 to 24.
fn numbered_place(name: &[u8], direction: Direction) -> Option<u8>
    ensures value { result ≡ numbered_place direction (decimal_up_to 24 name.now) }
    ensures place { IfSome result (λ place. place ≤ 25) }
{
    let number = read_decimal(name, 24)?;
    if number == 0 {
        return None;
    }
    Some(direction.line_place(number as u8))
}

/// The place of a name, in the player's own numbering.
#[tactic(auto, unfolding(crate::specs::Spelling::place_named))]
pub(crate) fn place_of(name: &[u8], direction: Direction) -> Option<u8>
    ensures value { result ≡ place_named direction name.now }
    ensures place { IfSome result (λ place. place ≤ 25) }
{
    if name.eq_ignore_ascii_case(b"bar") || name.eq_ignore_ascii_case(b"b") {
        Some(BAR)
    } else if name.eq_ignore_ascii_case(b"off") || name.eq_ignore_ascii_case(b"o") {
        Some(0)
    } else {
        numbered_place(name, direction)
    }
}

/// Whether a text is empty.
fn is_nothing(text: &[u8]) -> bool
    ensures { result ≡ bytes_eq text.now [] }
{
    text == b"".as_slice()
}

/// Whether nothing follows.
fn is_end(rest: Option<&[u8]>) -> bool
    ensures { result ≡ is_end (seen rest.entry) }
{
    match rest {
        None => true,
        Some(rest) => is_nothing(rest),
    }
}

/// The place of a name, behind which the `*` of a hit may stand.
#[tactic(auto, unfolding(crate::specs::Spelling::place_typed))]
fn typed_place(name: &[u8], way: Direction) -> Option<u8>
    ensures value { result ≡ place_typed way name.now }
    ensures place { IfSome result (λ place. place ≤ 25) }
{
    let (name, rest) = split(name, b'*');
    if !is_end(rest) {
        return None;
    }
    place_of(name, way)
}

/// Whether a word says nothing.
#[tactic(auto, unfolding(crate::specs::Spelling::is_filler))]
fn is_filler(word: &[u8]) -> bool
    ensures { result ≡ is_filler word.now }
{
    is_nothing(word) || word == b"*".as_slice()
}

/// Whether nothing but a `*` follows a bracket.
fn is_closed(rest: Option<&[u8]>) -> bool
    ensures { result ≡ is_closed (seen rest.entry) }
{
    match rest {
        None => false,
        Some(rest) => is_filler(rest),
    }
}

/// How often each step of a word is made, by what follows its bracket, if it has one: from once to four times.
#[tactic(auto, unfolding(crate::specs::Spelling::times_in))]
fn times_in(rest: Option<&[u8]>) -> Option<u64>
    ensures { result ≡ times_in (seen rest.entry) }
{
    let Some(rest) = rest else {
        return Some(1);
    };
    let (number, after) = split(rest, b')');
    if !is_closed(after) {
        return None;
    }
    let times = read_decimal(number, 4)?;
    if times == 0 { None } else { Some(times) }
}

/// The step from a place to the one of a name.
fn step_to(source: u8, name: &[u8], way: Direction) -> Option<Step>
    requires { source ≤ 25 }
    ensures { option_map hop_of result ≡ step_between (Some source) (place_typed way name.now) }
{
    let target = typed_place(name, way)?;
    Step::new(source, target)
}

/// A play and a step after it, so often, if there is room.
fn with_times(step: Step, times: u64, play: Play) -> Option<Play>
    ensures { option_map hops_of result ≡ onto (hops_of play) (Some (replicate times (hop_of step))) }
{
    if times == 0 {
        return Some(play);
    }
    let mut play = play;
    if !play.push(step) {
        return None;
    }
    with_times(step, times - 1, play)
}

/// A play and after it the steps from a place to the first that is named, and on, each so often.
fn with_names(
    source: u8,
    text: &[u8],
    cut: u8,
    times: u64,
    way: Direction,
    play: Play,
) -> Option<Play>
    requires { source ≤ 25 }
    ensures { option_map hops_of result
        ≡ onto (hops_of play) (along way times (Some source) (between cut text.now)) }
{
    let (name, rest) = split(text, cut);
    let step = step_to(source, name, way)?;
    let play = with_times(step, times, play)?;
    match rest {
        None => Some(play),
        Some(rest) => with_names(step.target(), rest, cut, times, way, play),
    }
}

/// Between which bytes the names of places stand.
#[tactic(auto, unfolding(crate::specs::Spelling::cut_of))]
fn cut_of(text: &[u8]) -> u8
    ensures { result ≡ cut_of text.now }
{
    if text.contains(&b'/') { b'/' } else { b'-' }
}

/// A play and the steps of a word after it.
fn with_word(word: &[u8], way: Direction, play: Play) -> Option<Play>
    ensures { option_map hops_of result ≡ onto (hops_of play) (steps_of_word way word.now) }
{
    if is_filler(word) {
        return Some(play);
    }
    let (names, rest) = split(word, b'(');
    let times = times_in(rest)?;
    let cut = cut_of(names);
    let (first, rest) = split(names, cut);
    let rest = rest?;
    let source = typed_place(first, way)?;
    with_names(source, rest, cut, times, way, play)
}

/// A play and the steps of words after it.
fn with_words(text: &[u8], way: Direction, play: Play) -> Option<Play>
    ensures { option_map hops_of result ≡ onto (hops_of play) (steps_of_words way (between 32 text.now)) }
{
    let (word, rest) = split(text, b' ');
    let play = with_word(word, way, play)?;
    match rest {
        None => Some(play),
        Some(rest) => with_words(rest, way, play),
    }
}

/// Whether a word says that a move follows.
#[tactic(auto, unfolding(crate::specs::Spelling::is_move_word))]
fn is_move_word(word: &[u8]) -> bool
    ensures { result ≡ is_move_word word.now }
{
    word.eq_ignore_ascii_case(b"move") || word.eq_ignore_ascii_case(b"m")
}

/// The steps of the words of a line, before which the word for a move may stand.
fn line_steps(text: &[u8], way: Direction) -> Option<Play>
    ensures { option_map hops_of result ≡ onto [] (steps_of_line way (between 32 text.now)) }
{
    let (word, rest) = split(text, b' ');
    if is_nothing(word) {
        return match rest {
            None => Some(Play::new()),
            Some(rest) => line_steps(rest, way),
        };
    }
    if is_move_word(word) {
        return match rest {
            None => Some(Play::new()),
            Some(rest) => with_words(rest, way, Play::new()),
        };
    }
    with_words(text, way, Play::new())
}

/// The play of the steps that a line shows, in the numbers of a board of this direction, if it shows some.
pub fn typed_move(text: &[u8], way: Direction) -> Option<Play>
    ensures { option_map hops_of result ≡ steps_shown way text.now }
{
    let play = line_steps(text, way)?;
    if play.steps().is_empty() {
        return None;
    }
    Some(play)
}

/// How many checkers steps take from a place.
fn taken_from(place: u8, steps: &[Step]) -> usize
    ensures value { result ≡ taken_from place (map hop_of steps.now) }
    ensures most { result ≤ length steps.now }
{
    if steps.is_empty() {
        return 0;
    }
    let others = taken_from(place, &steps[1..]);
    if steps[0].source() == place {
        others + 1
    } else {
        others
    }
}

/// How many checkers steps bring to a place.
fn brought_to(place: u8, steps: &[Step]) -> usize
    ensures value { result ≡ brought_to place (map hop_of steps.now) }
    ensures most { result ≤ length steps.now }
{
    if steps.is_empty() {
        return 0;
    }
    let others = brought_to(place, &steps[1..]);
    if steps[0].target() == place {
        others + 1
    } else {
        others
    }
}

/// Whether two plays change one place the same.
fn changes_same(place: u8, one: &Play, other: &Play) -> bool
    ensures { result ≡ true → ChangesSame place (hops_of one.now) (hops_of other.now) }
{
    taken_from(place, one.steps()) + brought_to(place, other.steps())
        == taken_from(place, other.steps()) + brought_to(place, one.steps())
}

/// Whether two plays change each place up to one the same.
fn leads_same_to(place: u8, one: &Play, other: &Play) -> bool
    ensures { result ≡ true → (p : ℕ) → p ≤ place → ChangesSame p (hops_of one.now) (hops_of other.now) }
{
    if !changes_same(place, one, other) {
        return false;
    }
    if place == 0 {
        return true;
    }
    leads_same_to(place - 1, one, other)
}

/// Whether the checkers stand the same after two plays.
fn leads_same(one: &Play, other: &Play) -> bool
    ensures { result ≡ true → LeadsSame (hops_of one.now) (hops_of other.now) }
{
    leads_same_to(BAR, one, other)
}

/// The legal move after which the checkers stand as after the steps that were typed, if there is just one.
pub fn only_meaning(typed: &Play, legal: &[Play]) -> Option<Play>
    ensures { IfSome result (λ play. LeadsSame (hops_of typed.now) (hops_of play)) }
{
    let mut found = None;
    for play in legal {
        if leads_same(typed, play) {
            if found.is_some() {
                return None;
            }
            found = Some(*play);
        }
    }
    found
}
