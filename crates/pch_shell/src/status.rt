ghost use Rattle.std.specs.Prelude.{◌≡◌};
ghost use Rattle.pch_shell.specs.Statuses.{code_of};

/// How a command ended, in the order of the exit statuses.
#[derive(Clone, Copy, Debug, PartialEq, Eq)]
pub enum Status {
    /// 0: what the command is for was done.
    Done,
    /// 1: a proof was refused.
    NotAccepted,
    /// 2: the words have none of the forms.
    Words,
    /// 3: a file couldn't be loaded or saved.
    Store,
    /// 4: the output couldn't be written.
    Sink,
    /// 5: memory was wanting.
    Memory,
    /// 6: a specification and a design differ.
    Differs,
    /// 7: a design doesn't fit a fabric.
    Unroutable,
    /// 8: the budget of a search was spent.
    Spent,
    /// 9: a file that was read isn't as its format says.
    BadInput,
}

impl Status {
    /// The exit status, 0 to 9.
    pub fn code(self) -> u8
        ensures { result ≡ code_of self }
    {
        self as u8
    }
}
