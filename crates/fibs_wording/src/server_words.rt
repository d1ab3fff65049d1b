//! The commands of a server that the client does not have.
ghost use Rattle.std.specs.Prelude.{◌≡◌};
ghost use Rattle.fibs_wording.specs.ServerWords.{is_leaving_word, is_passed, is_passed_word};

use fibs_fields::split::split;

/// Their first words. Some are words of the client too, which takes them with other arguments.
static SERVER_WORDS: [&[u8]; 48] = [
    b"about",
    b"address",
    b"average",
    b"away",
    b"back",
    b"beaver",
    b"blind",
    b"clear",
    b"cls",
    b"date",
    b"dicetest",
    b"erase",
    b"invite",
    b"last",
    b"leave",
    b"list",
    b"look",
    b"man",
    b"motd",
    b"off",
    b"oldboard",
    b"oldmoves",
    b"otter",
    b"panic",
    b"password",
    b"pip",
    b"raccoon",
    b"ratings",
    b"rawboard",
    b"rawwho",
    b"redouble",
    b"save",
    b"set",
    b"show",
    b"shutdown",
    b"sortwho",
    b"stat",
    b"time",
    b"tinyfugue",
    b"toggle",
    b"unwatch",
    b"version",
    b"waitfor",
    b"watch",
    b"wave",
    b"where",
    b"who",
    b"whois",
];

/// Their first words that a terminal sends as they are typed: to watch others, to leave a match, to say that one is
/// away.
const PASSED_WORDS: [&[u8]; 8] = [
    b"away",
    b"back",
    b"leave",
    b"pip",
    b"redouble",
    b"unwatch",
    b"watch",
    b"whois",
];

/// One more, of two words.
const SHOW_SAVED: &[u8] = b"show saved";

/// Words for leaving, none of which the client has.
const LEAVING_WORDS: [&[u8]; 6] = [b"adios", b"ciao", b"end", b"exit", b"logout", b"q"];

/// The first words of the commands of a server.
fn server_words() -> &'static [&'static [u8]] {
    &SERVER_WORDS
}

/// Whether a command that a terminal sends as it is typed begins with a word.
fn is_passed_word(word: &[u8]) -> bool
    ensures { result ≡ is_passed_word word.now }
{
    PASSED_WORDS.contains(&word)
}

/// Whether a command of a server begins with a word, which goes to it as it is.
pub fn is_server_word(word: &[u8]) -> bool {
    server_words().contains(&word)
}

/// Whether a line is a command of a server that a terminal sends as it is typed, without `send`.
pub fn is_passed(line: &[u8]) -> bool
    ensures { result ≡ is_passed line.now }
{
    line == SHOW_SAVED || is_passed_word(split(line, b' ').0)
}

/// Whether a word is one by which people leave.
pub fn is_leaving_word(word: &[u8]) -> bool
    ensures { result ≡ is_leaving_word word.now }
{
    LEAVING_WORDS.contains(&word)
}
