//! What the environment says of a terminal.

use crate::environment::settings::Settings;
use crate::environment::zone::Zone;
use fibs_fields::split::split;
use fibs_position::Numbers;
use std::env;

/// The columns of a terminal if the environment does not say them.
const COLUMNS: usize = 80;

/// Whether a variable is there, and is not empty.
fn is_set(rt: &HostRuntime, name: &str) -> bool {
    match env::var(rt, name) {
        Ok(value) => !value.is_empty(),
        Err(_) => false,
    }
}

/// Whether a variable has this value.
fn is(rt: &HostRuntime, name: &str, wanted: &str) -> bool {
    match env::var(rt, name) {
        Ok(value) => value.as_str() == wanted,
        Err(_) => false,
    }
}

/// The number that a variable says, if it is one from 1 on.
fn number(rt: &HostRuntime, name: &str, else_this: usize) -> usize {
    match env::var(rt, name) {
        Ok(value) => match value.as_str().parse::<usize>() {
            Ok(0) | Err(_) => else_this,
            Ok(number) => number,
        },
        Err(_) => else_this,
    }
}

/// The coding that a locale names, as `de_DE.UTF-8@euro` does: what comes between the full stop and the `@`.
fn coding_of(locale: &[u8]) -> &[u8] {
    let named = match split(locale, b'.').1 {
        Some(named) => named,
        None => locale,
    };
    split(named, b'@').0
}

/// Whether a variable names a locale of UTF-8; None if it names no locale.
fn names_utf8(rt: &HostRuntime, name: &str) -> Option<bool> {
    match env::var(rt, name) {
        Ok(value) => {
            if value.is_empty() {
                return None;
            }
            let coding = coding_of(value.as_str().as_bytes());
            Some(coding.eq_ignore_ascii_case(b"UTF-8") || coding.eq_ignore_ascii_case(b"utf8"))
        }
        Err(_) => None,
    }
}

/// Whether the locale is of UTF-8: by the first of these that is set.
fn is_utf8(rt: &HostRuntime) -> bool {
    for name in ["LC_ALL", "LC_CTYPE", "LANG"] {
        if let Some(answer) = names_utf8(rt, name) {
            return answer;
        }
    }
    false
}

/// The kinds of terminals whose windows have a title that can be kept and put back: how their names begin.
const TITLED: [&str; 4] = ["xterm", "screen", "tmux", "rxvt"];

/// The kinds of terminals whose lower rows can scroll while the upper ones stay: how their names begin.
const SCROLLING: [&str; 12] = [
    "xterm",
    "screen",
    "tmux",
    "rxvt",
    "linux",
    "alacritty",
    "kitty",
    "foot",
    "st-",
    "konsole",
    "wezterm",
    "putty",
];

/// Whether the terminal is of one of these kinds.
fn is_one_of(rt: &HostRuntime, kinds: &[&str]) -> bool {
    match env::var(rt, "TERM") {
        Ok(kind) => kinds
            .iter()
            .any(|begins| kind.as_str().starts_with(*begins)),
        Err(_) => false,
    }
}

/// The settings of the terminal at which a person talks with this server, by the clock of this zone.
pub fn terminal_settings<'a>(
    rt: &HostRuntime,
    zone: Zone<'a>,
    host: &'a str,
    port: u16,
) -> Settings<'a> {
    let dumb = is(rt, "TERM", "dumb") || !is_set(rt, "TERM");
    Settings {
        columns: number(rt, "COLUMNS", COLUMNS),
        rows: number(rt, "LINES", 0),
        scrolls_below: is_one_of(rt, &SCROLLING),
        above: None,
        colour: !dumb && !is_set(rt, "NO_COLOR"),
        bell: !is_set(rt, "FIBS_QUIET"),
        title: is_one_of(rt, &TITLED) && !is_set(rt, "FIBS_QUIET"),
        letters: None,
        is_turned: false,
        numbers: Numbers::TheOwn,
        words: is_set(rt, "FIBS_WORDS"),
        is_short: false,
        utf8: is_utf8(rt),
        zone,
        host: host.as_bytes(),
        port,
    }
}
