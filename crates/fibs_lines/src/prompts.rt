//! The prompts of the server at a line's start.

ghost use Rattle.std.specs.List.{starts_with};
ghost use Rattle.std.specs.Prelude.{◌≡◌, ◌<◌, ◌≤◌, true, length, drop, nat_eq};
ghost use Rattle.fibs_lines.specs.Lines.{without_prompts};

/// What the server prints when it waits for a login.
pub const LOGIN_PROMPT: &[u8] = b"login: ";

const COMMAND: &[u8] = b"> ";

/// Whether a text begins with this prompt. Nearly every text begins with another byte, and is compared no further.
fn begins_with(text: &[u8], prompt: &[u8]) -> bool
    requires { 0 < length prompt.now }
    ensures value { result ≡ starts_with nat_eq text.now prompt.now }
    ensures bound { result ≡ true → length prompt.now ≤ length text.now }
{
    !text.is_empty() && text[0] == prompt[0] && text.starts_with(prompt)
}

/// How long the prompts at the start of `line` are together.
pub(crate) fn prompts_len(line: &[u8]) -> usize
    ensures in_range { result ≤ length line.now }
    ensures rest { drop result line.now ≡ without_prompts line.now }
{
    let mut at = 0;
    loop {
        let rest = &line[at..];
        if begins_with(rest, LOGIN_PROMPT) {
            at += LOGIN_PROMPT.len();
        } else if begins_with(rest, COMMAND) {
            at += COMMAND.len();
        } else {
            return at;
        }
    }
}
