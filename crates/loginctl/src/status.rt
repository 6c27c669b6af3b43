//! The exit statuses of the program.

ghost use Rattle.loginctl.specs.Statuses.{code_of};
ghost use Rattle.std.specs.Prelude.{◌≡◌};

/// Why the program ended.
#[derive(Clone, Copy, Debug, PartialEq, Eq)]
pub enum Status {
    /// What the words ask for was done.
    Done,
    /// The server refused the login.
    LoginRefused,
    /// The words are of no form.
    Usage,
    /// The input is no script, or no stream of packets.
    BadInput,
    /// The input can't be read, or the link to the server failed.
    InputFault,
    /// The output can't be written.
    OutputFault,
    /// There was no memory.
    NoMemory,
    /// What the server sent is of no form, or it closed the link.
    BadAnswer,
    /// The client won't send what it was asked for.
    NotSent,
}

impl Status {
    /// The program's exit status.
    pub fn code(self) -> u8
        ensures { result ≡ code_of self }
    {
        match self {
            Status::Done => 0,
            Status::LoginRefused => 1,
            Status::Usage => 2,
            Status::BadInput => 3,
            Status::InputFault => 4,
            Status::OutputFault => 5,
            Status::NoMemory => 6,
            Status::BadAnswer => 7,
            Status::NotSent => 8,
        }
    }
}
