//! The help of a terminal.

/// One screen of help.
const SCREEN: &[u8] = b"\
The game    roll  double  accept  reject  move 8-5 6-5  resign n|g|b
            also: r, m 8-5 6-5, 8/5 6/5, bar/20, 6/off, 8/5(2), 24/18/13
            plays: the legal moves, plays 24: those from there, plays more
            try 8-5 6-5: the board after it; go: sends it   moves: so far
            board: again   board above: stays in sight   board below: scrolls
            order roll: rolls for you if you may not double   withdraw roll
Matches     invite NAME POINTS   invite NAME (to resume)   join NAME   join
            toggle ready   who   players   players ready   players bo
            matches: those of yours that have ended   matches bob: with bob
Talk        say TEXT   tell NAME TEXT   kibitz TEXT   whisper TEXT   shout TEXT
            message NAME TEXT (for later)   also: t NAME TEXT, k TEXT
            re TEXT: answers who spoke to you last   talk: the last 20 rows
            gag NAME: hides what NAME says   ungag NAME: shows it again
            quiet: no shouts or arrivals   loud: again   arrivals: in matches
Server      watch NAME  unwatch  leave  whois NAME  away TEXT  back  pip
            redouble  show saved   (these go to the server as they are)
            send LINE: sends LINE as it is, unchecked (send ratings bob)
            bye: leave   open: connect again   quit: end   words: in words
            reconnect: opens a lost connection by itself   stay: ends that
            toggle automove, toggle greedy: off   fix: off, and logs in again
            numbers own: 24 to 1   numbers server   columns 60   rows 40: size
help WORD says more about a word.
";

/// The same in sentences, for a player who hears them.
const SENTENCES: &[u8] = b"\
roll rolls your dice; r is the same.
double offers to double; accept takes a double, reject gives up the game.
move 8-5 6-5 moves; you may also type m 8-5 6-5, 8/5 6/5, bar/20, 6/off.
plays lists the legal moves, plays 24 those from there, plays more goes on.
try 8-5 6-5 tells what that move changes; go sends it.
words tells the board, board asks for it again, moves tells the game so far.
resign n offers to give up a game, resign g a gammon, resign b a backgammon.
order roll rolls for you if you may not double; withdraw roll ends that.
invite NAME POINTS invites to a match, invite NAME to resume one.
join NAME accepts an invitation; join goes on to the next game.
players tells who is here, players ready who can be invited.
who asks the server who is here. matches tells your matches that have ended.
say TEXT talks to your opponent, tell NAME TEXT to a player.
re TEXT answers who spoke to you last; talk tells what people said.
kibitz TEXT, whisper TEXT and shout TEXT talk to others.
message NAME TEXT waits for a player who is not here.
gag NAME hides what NAME says, ungag NAME tells it again.
quiet hides shouts and who comes and goes, loud tells them.
arrivals tells who comes and goes in a match too.
watch NAME shows the game of a player, unwatch ends that.
leave leaves a match, toggle ready says whether you are ready to play.
toggle automove and toggle greedy turn them off; fix does, and logs in again.
whois NAME, show saved, pip, away TEXT and back go to the server as they are.
send LINE sends LINE to the server as it is, unchecked.
numbers own counts places from 24 to 1, numbers server as the server does.
bye leaves the server, open connects again, quit ends.
reconnect opens a lost connection by itself, stay ends that.
help WORD says more about a word.
";

// What is said of two words.

const ROLL: &[u8] = b"roll (or r): rolls your dice.\n";

const MOVE: &[u8] = b"\
move 8-5 6-5: each step from its place to its place, in the numbers of the
board. bar-20 enters a checker, 3-off bears one off. You may also type:
  8-5 6-5    8/5 6/5    m 8/5 6/5
  8/5(2)     twice
  24/18/13   one checker, two steps; 24/13 too, if it can go one way only
plays lists the legal moves.
";

const ORDER: &[u8] = b"\
order roll: from the next board on the client rolls if you may not double.\n\
withdraw roll: it no longer does.\n";

const TELL: &[u8] = b"tell NAME TEXT (or t NAME TEXT): talks to a player.\n";

const KIBITZ: &[u8] = b"kibitz TEXT (or k TEXT): talks to all who play and watch at your board.\n";

const GAG: &[u8] = b"\
gag NAME: hides what NAME says. ungag NAME: shows it again.\n\
Only this terminal hides it: the server does not know.\n";

const QUIET: &[u8] = b"\
quiet: hides shouts, and who comes and goes. loud: shows them again. In a match\n\
you see only those who come and go with whom you have to do: your opponent, who\n\
has talked with you, or with whom a match is saved. arrivals: shows you all.\n";

const WATCH: &[u8] = b"\
watch NAME: shows you the game of a player. unwatch: ends it. Both are\n\
sent as they are typed.\n";

const AWAY: &[u8] = b"\
away TEXT: who talks to you is told TEXT. back: ends it. Both are\n\
sent as they are typed.\n";

const TRY: &[u8] = b"\
try 8-5 6-5: shows the board after that move, and sends nothing. If boards are\n\
told in words, it tells what the move changes.\n\
go: sends the move that you tried last, if the board is still the same.\n";

const MOVES: &[u8] = b"\
moves: the rolls and plays of this game so far, as the boards show them; ? is a\n\
play that they do not show. moves all: not only the last 20.\n";

const COLUMNS: &[u8] = b"\
columns 60: how wide the terminal is, from 20 to 999. With rlwrap fibs-play\n\
says it by itself before the next line, if the window has another size.\n";

const ROWS: &[u8] = b"\
rows 40: how high the terminal is, from 1 to 999. With rlwrap fibs-play says it\n\
by itself before the next line, if the window has another size.\n";

const BOARD: &[u8] = b"\
board: the server shows the board once more.\n\
board above: the newest board stays in the upper rows, and what is said scrolls\n\
below it, if there is room. board below: boards scroll too.\n";

const NUMBERS: &[u8] = b"\
numbers own: places have your own numbers, and your checkers go from 24 down\n\
to 1, whichever way the server counts. numbers server: they have the server's.\n\
What you type is read so. send LINE goes as it is, in the server's numbers.\n";

const RECONNECT: &[u8] = b"\
reconnect: a connection that is lost is opened again by itself, after 1, 2, 4\n\
seconds and so on, up to 60. stay: it stays closed until you type open.\n\
What you decide is never sent again by itself.\n";

const HELP: &[u8] = b"help (or ?): lists what you can type. help WORD: says more about a word.\n";

/// What there is to say of each word: of the game, of matches, of talk, of the terminal.
static WORDS: [(&[u8], &[u8]); 58] = [
    (b"roll", ROLL),
    (b"r", ROLL),
    (
        b"double",
        b"double: offers to double the stake, before you roll. No short form.\n",
    ),
    (
        b"accept",
        b"accept: takes the double, or the game that is given up. No short form.\n",
    ),
    (
        b"reject",
        b"reject: gives up the game instead of taking the double, or declines an offer\n\
to resign. No short form.\n",
    ),
    (b"move", MOVE),
    (b"m", MOVE),
    (
        b"resign",
        b"resign n, resign g, resign b: offers to give up a game, a gammon, a backgammon.\n\
If it is declined, roll or move: the screen says which.\n",
    ),
    (b"order", ORDER),
    (b"withdraw", ORDER),
    (b"board", BOARD),
    (
        b"invite",
        b"invite NAME POINTS: to a match of so many points. invite NAME: to resume one.\n",
    ),
    (
        b"join",
        b"join NAME: accepts NAME's invitation. join: goes on to the next game.\n",
    ),
    (
        b"toggle",
        b"toggle ready: says whether you are ready to play.\n\
toggle automove, toggle greedy: turns off what the server plays by itself.\n\
It counts from the next login on: fix does both, as far as it is needed.\n",
    ),
    (
        b"fix",
        b"fix: if the server plays for you by itself, turns that off (toggle automove,\n\
toggle greedy), and if it did at the login, leaves and logs in again.\n\
Nothing else is sent. In a match bye asks first, and a second bye leaves.\n",
    ),
    (
        b"who",
        b"who: asks for the list of players, which is shown when it comes.\n",
    ),
    (
        b"players",
        b"players: the players that the server has listed, those of a rating near yours\n\
first. players ready: who can be invited. players playing: who plays.\n\
players bo: whose name begins so. players all, players ready all: all of them.\n",
    ),
    (b"say", b"say TEXT: talks to your opponent.\n"),
    (b"tell", TELL),
    (b"t", TELL),
    (b"kibitz", KIBITZ),
    (b"k", KIBITZ),
    (b"whisper", b"whisper TEXT: talks to those who watch.\n"),
    (b"shout", b"shout TEXT: talks to all.\n"),
    (
        b"message",
        b"message NAME TEXT: leaves TEXT for a player who is not here.\n",
    ),
    (b"gag", GAG),
    (b"ungag", GAG),
    (b"quiet", QUIET),
    (b"loud", QUIET),
    (b"arrivals", QUIET),
    (
        b"send",
        b"send LINE: sends LINE to the server as it is. The client doesn't check it.\n\
For what the client can't do: send ratings bob, send toggle double ..\n",
    ),
    (
        b"plays",
        b"plays: lists the legal moves of the board, ready to be typed, 20 rows at most;\n\
* marks a step that hits. plays more: the next ones.\n\
plays 24, plays bar: those that play from there.\n",
    ),
    (b"moves", MOVES),
    (
        b"matches",
        b"matches: the last of your matches that have ended, as this computer recorded\n\
them. matches bob: those with bob, and how many you won and lost.\n",
    ),
    (b"try", TRY),
    (b"go", TRY),
    (
        b"talk",
        b"talk: shows the last 20 rows of talk once more.\n",
    ),
    (
        b"re",
        b"re TEXT: tells TEXT to the player who spoke to you last.\n",
    ),
    (b"watch", WATCH),
    (b"unwatch", WATCH),
    (
        b"leave",
        b"leave: leaves a match, which the server then saves. It is sent as it is.\n",
    ),
    (
        b"whois",
        b"whois NAME: asks the server who that is. It is sent as it is.\n",
    ),
    (b"away", AWAY),
    (b"back", AWAY),
    (
        b"redouble",
        b"redouble: redoubles at once. It is sent as it is, unchecked.\n",
    ),
    (
        b"pip",
        b"pip: asks the server for the pips. It is sent as it is.\n",
    ),
    (
        b"show",
        b"show saved: asks for your saved matches. It is sent as it is.\n",
    ),
    (
        b"words",
        b"words: tells the board in words, a fact a row; words score, words cube: a row.\n\
If FIBS_WORDS is set, each board is told so, in place of its picture.\n\
words short: of a board that comes, what is as it was before is left out:\n\
score, cube, direction, held places, blots. words long: it is told whole.\n",
    ),
    (
        b"bye",
        b"bye: leaves the server, which ends the connection, and mostly saves a match.\n\
In a match the first one only asks, and a second one leaves.\n",
    ),
    (
        b"open",
        b"open: connects again. invite NAME then resumes a match that was saved.\n",
    ),
    (b"reconnect", RECONNECT),
    (b"stay", RECONNECT),
    (b"columns", COLUMNS),
    (b"rows", ROWS),
    (b"numbers", NUMBERS),
    (
        b"quit",
        b"quit: ends the program. In a match the first one only asks, and a second one\n\
ends it.\n",
    ),
    (b"help", HELP),
    (b"?", HELP),
];

/// The words, each with what there is to say of it.
pub(crate) fn words() -> &'static [(&'static [u8], &'static [u8])] {
    &WORDS
}

/// One screen of help: a table, or if boards are told in words sentences. What is advised now follows.
pub fn screen(is_told: bool) -> &'static [u8] {
    if is_told { SENTENCES } else { SCREEN }
}

/// What there is to say of a word, if anything.
pub fn word_help(word: &[u8]) -> Option<&'static [u8]> {
    for (name, help) in words() {
        if *name == word {
            return Some(*help);
        }
    }
    None
}
