//! The words for the messages, and the names of their fields.
ghost use Rattle.std.specs.Prelude.{◌≡◌};
ghost use Rattle.fibs_json.specs.Columns.{fields_of_columns, row_of};

/// A field of a message: its name, and its number in the message.
#[derive(Clone, Copy)]
pub(crate) struct Column {
    pub(crate) name: &'static [u8],
    pub(crate) number: usize,
}

/// The fields of a name.
const NAME: &[Column] = &[Column {
    name: b"name",
    number: 1,
}];

/// The fields of a text.
const TEXT: &[Column] = &[Column {
    name: b"text",
    number: 1,
}];

/// The fields of a name and a text.
const NAME_AND_TEXT: &[Column] = &[
    Column {
        name: b"name",
        number: 1,
    },
    Column {
        name: b"text",
        number: 2,
    },
];

/// The fields of message 1.
const WELCOME: &[Column] = &[
    Column {
        name: b"name",
        number: 1,
    },
    Column {
        name: b"last_login",
        number: 2,
    },
    Column {
        name: b"last_host",
        number: 3,
    },
];

/// The fields of message 2.
const OWN_INFO: &[Column] = &[
    Column {
        name: b"name",
        number: 1,
    },
    Column {
        name: b"allowpip",
        number: 2,
    },
    Column {
        name: b"autoboard",
        number: 3,
    },
    Column {
        name: b"autodouble",
        number: 4,
    },
    Column {
        name: b"automove",
        number: 5,
    },
    Column {
        name: b"away",
        number: 6,
    },
    Column {
        name: b"bell",
        number: 7,
    },
    Column {
        name: b"crawford",
        number: 8,
    },
    Column {
        name: b"double",
        number: 9,
    },
    Column {
        name: b"experience",
        number: 10,
    },
    Column {
        name: b"greedy",
        number: 11,
    },
    Column {
        name: b"moreboards",
        number: 12,
    },
    Column {
        name: b"moves",
        number: 13,
    },
    Column {
        name: b"notify",
        number: 14,
    },
    Column {
        name: b"rating",
        number: 15,
    },
    Column {
        name: b"ratings",
        number: 16,
    },
    Column {
        name: b"ready",
        number: 17,
    },
    Column {
        name: b"redoubles",
        number: 18,
    },
    Column {
        name: b"report",
        number: 19,
    },
    Column {
        name: b"silent",
        number: 20,
    },
    Column {
        name: b"timezone",
        number: 21,
    },
];

/// The fields of message 5.
const WHO_INFO: &[Column] = &[
    Column {
        name: b"name",
        number: 1,
    },
    Column {
        name: b"opponent",
        number: 2,
    },
    Column {
        name: b"watching",
        number: 3,
    },
    Column {
        name: b"ready",
        number: 4,
    },
    Column {
        name: b"away",
        number: 5,
    },
    Column {
        name: b"rating",
        number: 6,
    },
    Column {
        name: b"experience",
        number: 7,
    },
    Column {
        name: b"idle",
        number: 8,
    },
    Column {
        name: b"login",
        number: 9,
    },
    Column {
        name: b"hostname",
        number: 10,
    },
    Column {
        name: b"client",
        number: 11,
    },
    Column {
        name: b"email",
        number: 12,
    },
];

/// The fields of message 9.
const MESSAGE: &[Column] = &[
    Column {
        name: b"name",
        number: 1,
    },
    Column {
        name: b"time",
        number: 2,
    },
    Column {
        name: b"text",
        number: 3,
    },
];

/// The word for the message of a number.
#[tactic(auto, unfolding(crate::specs::Columns::row_of))]
pub(crate) fn word_of(number: u8) -> &'static [u8]
    ensures { result.now ≡ (row_of number).word }
{
    match number {
        1 => b"welcome",
        2 => b"own_info",
        3 => b"motd_begin",
        4 => b"motd_end",
        5 => b"who_info",
        6 => b"who_info_end",
        7 => b"login",
        8 => b"logout",
        9 => b"message",
        10 => b"message_delivered",
        11 => b"message_saved",
        12 => b"says",
        13 => b"shouts",
        14 => b"whispers",
        15 => b"kibitzes",
        16 => b"you_say",
        17 => b"you_shout",
        18 => b"you_whisper",
        19 => b"you_kibitz",
        _ => b"",
    }
}

/// The fields of the message of a number.
#[tactic(auto, unfolding(crate::specs::Columns::row_of))]
pub(crate) fn columns_of(number: u8) -> &'static [Column]
    ensures { fields_of_columns result.now ≡ (row_of number).fields }
{
    match number {
        1 => WELCOME,
        2 => OWN_INFO,
        5 => WHO_INFO,
        9 => MESSAGE,
        10 | 11 => NAME,
        7 | 8 | 12 | 13 | 14 | 15 | 16 => NAME_AND_TEXT,
        17 | 18 | 19 => TEXT,
        _ => &[],
    }
}
