//! How a user logs in.

ghost use Rattle.std.specs.Prelude.{◌≡◌, ◌≤◌, ◌&&◌, IfOk, length, nat_lt, true};
ghost use Rattle.std.specs.List.{list_all};
ghost use Rattle.std.specs.Result.{result_err};
ghost use Rattle.fibs_fields.specs.Name.{is_name};
ghost use Rattle.fibs_commands.specs.Logins.{is_password, is_password_byte, login_fault, password_fault};
ghost use Rattle.fibs_commands.specs.TextOf.{text_of};

use super::plain::{PlainFault, checked_name};
use super::text::{CommandText, command, printed};
use arrayvec::ArrayString;

/// A user's name and password: the name is one, and the password has 1 to 64 bytes of 33 to 126.
#[derive(Clone, Copy)]
pub struct Login {
    name: ArrayString<64>,
    password: ArrayString<64>,
    pub ghost user: { is_name name.bytes ≡ true },
    pub ghost secret: { is_password password.bytes ≡ true },
}

/// Whether it is a byte of 33 to 126.
fn is_password_byte(byte: &u8) -> bool
    ensures { result ≡ is_password_byte byte.now }
{
    *byte >= 33 && *byte <= 126
}

/// True if each byte may be in a password.
fn are_password_bytes(text: &[u8]) -> bool
    ensures { result ≡ list_all is_password_byte text.now }
{
    text.iter().all(is_password_byte)
}

/// Whether it is one or more such bytes.
fn is_secret(text: &[u8]) -> bool
    ensures { result ≡ nat_lt 0 (length text.now) && list_all is_password_byte text.now }
{
    !text.is_empty() && are_password_bytes(text)
}

/// The password as a text, or what is wrong with it.
#[tactic(auto, using(crate::proofs::PrintedLemmas::secret_is_printed))]
fn checked_password(password: &[u8]) -> Result<&str, PlainFault>
    ensures text { IfOk result (λ text. text.now ≡ password.now) }
    ensures valid { IfOk result (λ text. is_password text.now ≡ true) }
    ensures short { IfOk result (λ text. length text.now ≤ 64) }
    ensures fault { result_err result ≡ password_fault password.now }
{
    if password.len() > 64 {
        return Err(PlainFault::TooLong);
    }
    if !is_secret(password) {
        return Err(PlainFault::BadText);
    }
    Ok(printed(password))
}

/// A copy of a short text.
fn kept(text: &str) -> ArrayString<64>
    requires { length text.now ≤ 64 }
    ensures { text_of result ≡ text.now }
{
    let mut copy = ArrayString::new();
    copy.push_str(text);
    copy
}

impl Login {
    ghost use Rattle.fibs_commands.specs.Logins.{IsLogin};
    ghost use Rattle.fibs_commands.specs.LoginOf.{name_of, password_of, login_of};

    /// The login of a name and a password.
    ///
    /// The first fault of: `BadName`, if the name is not valid; `TooLong`, if the password has more than 64 bytes;
    /// `BadText`, if it has no byte, or one outside 33 to 126.
    #[tactic(auto, unfolding(crate::specs::Logins::login_fault))]
    pub fn new(name: &[u8], password: &[u8]) -> Result<Login, PlainFault>
        ensures name { IfOk result (λ login. name_of login ≡ name.now) }
        ensures password { IfOk result (λ login. password_of login ≡ password.now) }
        ensures fault { result_err result ≡ login_fault name.now password.now }
    {
        let name = checked_name(name)?;
        let password = checked_password(password)?;
        Ok(Login {
            name: kept(name),
            password: kept(password),
        })
    }

    /// The command of the login, without its line end: `login fibs_client 1008 NAME PASSWORD`.
    #[tactic(auto, unfolding(crate::specs::Logins::login_text))]
    pub fn command(&self) -> CommandText
        ensures text { text_of result ≡ login_of self.now }
        ensures valid { IsLogin (name_of self.now) (password_of self.now) }
    {
        let mut text = command("login fibs_client 1008 ");
        text.push_str(self.name.as_str());
        text.push_str(" ");
        text.push_str(self.password.as_str());
        text
    }
}
