//! The engine `plays`.
use super::outcomes::assert_is;
use fibs_engine::fault::EngineFault;
use fibs_show::plays::plays;
use fibs_test_tools::outcome::Outcome;
use fibs_test_tools::pipe::{After, Pipe};
use std::alloc::Global;
use std::process::Abort;

/// A word of the command line, and what is printed for it.
struct Case {
    name: &'static str,
    word: &'static [u8],
    printed: &'static [u8],
}

/// What is printed for good boards.
static PRINTED: [Case; 12] = [
    Case {
        name: "the larger die alone, since both can't be played",
        word: b"board:You:bob:5:0:0:0:0:0:0:0:0:0:0:0:0:0:0:0:-2:0:0:0:0:0:0:0:0:0:0:1:0:\
        1:6:5:0:0:1:1:1:0:1:-1:0:25:14:13:0:0:1:0:0:0",
        printed: b"phase Move\nmove 24-18\n",
    },
    Case {
        name: "one die",
        word: b"board:You:bob:5:0:0:0:0:0:0:0:0:0:0:0:0:0:0:0:-2:0:0:0:0:0:0:0:0:0:0:1:0:\
        1:6:0:0:0:1:1:1:0:1:-1:0:25:14:13:0:0:1:0:0:0",
        printed: b"phase Move\nmove 24-18\n",
    },
    Case {
        name: "two checkers borne off",
        word: b"board:You:bob:5:0:0:0:0:1:1:0:0:0:0:0:0:0:0:0:-2:0:0:0:0:0:0:0:0:0:0:0:0:\
        1:6:5:0:0:1:1:1:0:1:-1:0:25:13:13:0:0:2:0:0:0",
        printed: b"phase Move\nmove 3-off 2-off\n",
    },
    Case {
        name: "a checker on the bar that cannot enter",
        word: b"board:You:bob:5:0:0:0:0:0:0:0:0:14:0:0:0:0:0:0:0:0:0:0:0:0:-2:-2:-2:-2:-2:-2:1:\
        1:3:1:0:0:1:1:1:0:1:-1:0:25:0:3:1:0:0:0:0:0",
        printed: b"phase Passing\n",
    },
    Case {
        name: "three of four equal dice, going up",
        word: b"board:You:bob:5:0:0:0:0:0:0:0:-1:0:0:0:0:0:0:0:0:0:0:0:2:0:0:0:0:0:0:0:0:\
        -1:3:3:0:0:1:1:1:0:-1:1:25:0:14:13:0:0:3:0:0:0",
        printed: b"phase Move\nmove 5-8 8-11 11-14\n",
    },
    Case {
        name: "two orders that reach one place",
        word: b"board:You:bob:5:0:0:0:0:-2:0:0:0:0:0:0:0:0:0:0:0:0:0:0:0:0:0:0:0:0:0:1:0:\
        1:6:5:0:0:1:1:1:0:1:-1:0:25:14:13:0:0:2:0:0:0",
        printed: b"phase Move\nmove 24-19 19-13\n",
    },
    Case {
        name: "two checkers and two dice",
        word: b"board:You:bob:5:0:0:0:0:0:0:1:0:0:0:1:0:0:0:0:0:0:0:0:0:0:0:0:0:0:0:-2:0:\
        1:2:1:0:0:1:1:1:0:1:-1:0:25:13:13:0:0:2:0:0:0",
        printed: b"phase Move\nmove 8-7 7-5\nmove 8-7 4-2\nmove 8-6 4-3\nmove 4-3 3-1\n",
    },
    Case {
        name: "a hit, and a held place behind it",
        word: b"board:You:bob:5:0:0:0:0:0:0:0:0:0:0:0:0:0:0:-2:0:0:0:0:0:-1:0:0:0:0:0:1:0:\
        1:6:6:0:0:1:1:1:0:1:-1:0:25:14:12:0:0:1:0:0:0",
        printed: b"phase Move\nmove 24-18\n",
    },
    Case {
        name: "no dice",
        word: b"board:You:bob:5:0:0:0:0:0:0:0:0:0:0:0:0:0:0:0:-2:0:0:0:0:0:0:0:0:0:0:1:0:\
        1:0:0:0:0:1:1:1:0:1:-1:0:25:14:13:0:0:1:0:0:0",
        printed: b"phase RollOrDouble\n",
    },
    Case {
        name: "a double to be answered",
        word: b"board:You:bob:5:0:0:0:0:0:0:0:0:0:0:0:0:0:0:0:-2:0:0:0:0:0:0:0:0:0:0:1:0:\
        1:0:0:0:0:1:1:1:1:1:-1:0:25:14:13:0:0:1:0:0:0",
        printed: b"phase AnswerDouble\n",
    },
    Case {
        name: "the opponent's turn",
        word: b"board:You:bob:5:0:0:0:0:0:0:0:0:0:0:0:0:0:0:0:-2:0:0:0:0:0:0:0:0:0:0:1:0:\
        -1:0:0:0:0:1:1:1:0:1:-1:0:25:14:13:0:0:1:0:0:0",
        printed: b"phase OpponentActs\n",
    },
    Case {
        name: "a game that is over",
        word: b"board:You:bob:5:0:0:0:0:0:0:0:0:0:0:0:0:0:0:0:-2:0:0:0:0:0:0:0:0:0:0:1:0:\
        0:0:0:0:0:1:1:1:0:1:-1:0:25:14:13:0:0:1:0:0:0",
        printed: b"phase Over\n",
    },
];

/// The good boards, and what is printed for them.
fn printed_words() -> &'static [Case; 12] {
    &PRINTED
}

/// How `plays` ends if so many bytes may be printed on both writers, and what it prints.
fn listed(alloc: Global, word: &[u8], out_room: usize, err_room: usize) -> Outcome {
    let mut out = Pipe::new(b"", 1, After::End, out_room);
    let mut err = Pipe::new(b"", 1, After::End, err_room);
    let ending = plays(alloc, word, &mut out, &mut err);
    Outcome::new(ending, out.output(), err.output())
}

/// Asserts how `plays` ends, and what it prints on both writers.
fn assert_listed(rt: &(impl Abort + AllocGlobal), case: &Case, status: u8, printed: [&[u8]; 2]) {
    let outcome = listed(rt.alloc(), case.word, 512, 512);
    assert_is(rt, case.name, 0, &outcome, Ok(status), printed);
}

/// If a growth is refused, nothing is written, and the next call lists the plays.
fn assert_listed_again(rt: &(impl Abort + AllocGlobal), case: &Case) {
    let outcome = listed(rt.alloc(), case.word, 512, 512);
    let refused = Err(EngineFault::Memory);
    if outcome.ending == refused {
        assert_is(rt, case.name, 1, &outcome, refused, [b"", b""]);
        assert_listed(rt, case, 0, [case.printed, b""]);
    } else {
        assert_is(rt, case.name, 2, &outcome, Ok(0), [case.printed, b""]);
    }
}

#[test]
fn prints_plays_under_refused_memory(rt: HostRuntime) {
    for case in printed_words() {
        assert_listed_again(&rt, case);
    }
}
