//! The words of `login`: which options are chosen, and their values.

ghost use Rattle.loginctl.specs.LoginWords.{Becomes, Choice, Chooses, IsChosen, IsFit, IsName, Puts, choice_of, chosen_by, is_flag, login_word, named, no_choice, text_of, with_flag, with_value};
ghost use Rattle.login_client.specs.Zeros.{HasNoZero};
ghost use Rattle.std.specs.Prelude.{◌≡◌, ◌↔◌, IfOk, IfSome, IsSomeAnd, IsTrue, MatchOption, None, Some, map, string_bytes};

use lg_base::Memory;
use login_client::has_no_zero;
use std::alloc::Global;

/// An option of `login`.
#[derive(Clone, Copy, Debug, PartialEq, Eq)]
pub enum LoginOption {
    Socket,
    User,
    Password,
    Factor2,
    Factor3,
    Clear,
    Expired,
    Other,
}

/// The options of a `login`, and their values.
#[derive(Debug, Drop)]
pub struct Chosen {
    pub socket: Option<String>,
    pub user: Option<String>,
    pub password: Option<String>,
    pub factor2: Option<String>,
    pub factor3: Option<String>,
    pub clear: bool,
    pub expired: bool,
}

/// The option that a word names.
#[tactic(auto, unfolding(crate::specs::LoginWords::named, crate::specs::LoginWords::socket_name, crate::specs::LoginWords::user_name, crate::specs::LoginWords::password_name, crate::specs::LoginWords::factor2_name, crate::specs::LoginWords::factor3_name, crate::specs::LoginWords::clear_flag, crate::specs::LoginWords::expired_flag))]
fn named(word: &[u8]) -> LoginOption
    ensures { result ≡ named word.now }
{
    if word == b"--socket".as_slice() {
        return LoginOption::Socket;
    }
    if word == b"--user".as_slice() {
        return LoginOption::User;
    }
    if word == b"--password".as_slice() {
        return LoginOption::Password;
    }
    if word == b"--factor2".as_slice() {
        return LoginOption::Factor2;
    }
    if word == b"--factor3".as_slice() {
        return LoginOption::Factor3;
    }
    if word == b"--clear".as_slice() {
        return LoginOption::Clear;
    }
    if word == b"--expired".as_slice() {
        return LoginOption::Expired;
    }
    LoginOption::Other
}

/// Whether the option has no value.
fn is_flag(option: LoginOption) -> bool
    ensures { result ≡ is_flag option }
{
    matches!(option, LoginOption::Clear | LoginOption::Expired)
}

/// Keeps a value where none is kept yet, and answers whether it does.
fn put(alloc: Global, place: &mut Option<String>, value: &String) -> Result<bool, Memory>
    ensures { IfOk result (λ kept. Puts (text_of place.old) kept (text_of place.new) (string_bytes value.now)) }
{
    match place {
        Some(_) => Ok(false),
        None => {
            *place = Some(String::from_str(alloc, value.as_str())?);
            Ok(true)
        }
    }
}

/// Whether there is a text, which is neither empty nor holds a 00.
fn is_name(place: &Option<String>) -> bool
    ensures { IsTrue result ↔ IsSomeAnd (text_of place.now) IsName }
{
    match place {
        Some(text) => !text.as_bytes().is_empty() && has_no_zero(text.as_bytes()),
        None => false,
    }
}

/// Whether a text, if there is one, holds no 00.
fn is_whole(place: &Option<String>) -> bool
    ensures { IsTrue result ↔ IfSome (text_of place.now) HasNoZero }
{
    match place {
        Some(text) => has_no_zero(text.as_bytes()),
        None => true,
    }
}

impl Chosen {
    /// No option.
    #[tactic(auto, unfolding(crate::specs::LoginWords::choice_of))]
    fn none() -> Chosen
        ensures { choice_of result ≡ no_choice }
    {
        Chosen {
            socket: None,
            user: None,
            password: None,
            factor2: None,
            factor3: None,
            clear: false,
            expired: false,
        }
    }

    /// Keeps the value of an option that wasn't there, and answers whether it does.
    fn add_value(
        &mut self,
        alloc: Global,
        option: LoginOption,
        value: &String,
    ) -> Result<bool, Memory>
        ensures { IfOk result (λ kept. Becomes kept (with_value option (string_bytes value.now) (choice_of self.old)) (choice_of self.new)) }
    {
        match option {
            LoginOption::Socket => {
                let kept = put(alloc, &mut self.socket, value)?;
                Ok(kept)
            }
            LoginOption::User => {
                let kept = put(alloc, &mut self.user, value)?;
                Ok(kept)
            }
            LoginOption::Password => {
                let kept = put(alloc, &mut self.password, value)?;
                Ok(kept)
            }
            LoginOption::Factor2 => {
                let kept = put(alloc, &mut self.factor2, value)?;
                Ok(kept)
            }
            LoginOption::Factor3 => {
                let kept = put(alloc, &mut self.factor3, value)?;
                Ok(kept)
            }
            LoginOption::Clear => Ok(false),
            LoginOption::Expired => Ok(false),
            LoginOption::Other => Ok(false),
        }
    }

    /// Sets a flag that wasn't set, and answers whether it does.
    #[tactic(auto, unfolding(crate::specs::LoginWords::choice_of))]
    fn add_flag(&mut self, option: LoginOption) -> bool
        ensures { Becomes result (with_flag option (choice_of self.old)) (choice_of self.new) }
    {
        match option {
            LoginOption::Clear => {
                if self.clear {
                    return false;
                }
                self.clear = true;
                true
            }
            LoginOption::Expired => {
                if self.expired {
                    return false;
                }
                self.expired = true;
                true
            }
            _ => false,
        }
    }

    /// Whether the options that a login needs are there, and their values fit.
    #[tactic(auto, unfolding(crate::specs::LoginWords::choice_of))]
    fn is_fit(&self) -> bool
        ensures { IsTrue result ↔ IsFit (choice_of self.now) }
    {
        if !is_name(&self.socket) {
            return false;
        }
        if !is_name(&self.user) {
            return false;
        }
        if !is_whole(&self.password) {
            return false;
        }
        if !is_whole(&self.factor2) {
            return false;
        }
        if !is_whole(&self.factor3) {
            return false;
        }
        self.factor3.is_none() || self.factor2.is_some()
    }
}

/// The options that words are, or none where they are no options, or one stands twice.
fn read_chosen(alloc: Global, words: &[String]) -> Result<Option<Chosen>, Memory>
    ensures { IfOk result (λ found. MatchOption found (chosen_by no_choice (map string_bytes words.now) ≡ None)
        (λ chosen. chosen_by no_choice (map string_bytes words.now) ≡ Some (choice_of chosen))) }
{
    let mut chosen = Chosen::none();
    let mut rest = words;
    'options: while let [word, behind @ ..] = rest {
        let option = named(word.as_bytes());
        if is_flag(option) {
            let kept = chosen.add_flag(option);
            if !kept {
                return Ok(None);
            }
            rest = behind;
        } else {
            match behind {
                [value, after @ ..] => {
                    let kept = chosen.add_value(alloc, option, value)?;
                    if !kept {
                        return Ok(None);
                    }
                    rest = after;
                }
                [] => return Ok(None),
            }
        }
    }
    Ok(Some(chosen))
}

/// Whether a word is `login`.
#[tactic(auto, unfolding(crate::specs::LoginWords::login_word))]
fn is_login(word: &[u8]) -> bool
    ensures { IsTrue result ↔ (word.now ≡ login_word) }
{
    word == b"login".as_slice()
}

/// What the words of a `login` choose, or none where they are no such words.
pub fn choose(alloc: Global, words: &[String]) -> Result<Option<Chosen>, Memory>
    ensures { IfOk result (λ found. IsChosen (map string_bytes words.now) found) }
{
    let (first, options) = match words {
        [first, options @ ..] => (first, options),
        [] => return Ok(None),
    };
    if !is_login(first.as_bytes()) {
        return Ok(None);
    }
    let chosen = match read_chosen(alloc, options)? {
        Some(chosen) => chosen,
        None => return Ok(None),
    };
    if !chosen.is_fit() {
        return Ok(None);
    }
    Ok(Some(chosen))
}
