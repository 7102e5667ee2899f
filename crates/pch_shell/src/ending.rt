ghost use Rattle.std.specs.Prelude.{◌≡◌, ◌≢◌, None, length, IfOk};
ghost use Rattle.std.specs.Option.{option_map};
ghost use Rattle.pch_shell.specs.Outcomes.{done, done_with, refused, differs, unroutable, spent_with, bad_input, written_line, no_words, not_stored};
ghost use Rattle.pch_io.specs.declared.store.LoadFail.{LoadFail};

use crate::status::Status;
use pch_base::NoMemory;
use pch_io::LoadFail;
use pch_lines::Line;
use std::alloc::Global;
use std::marker::Model;

/// What a command comes to. Contracts see the record of it.
#[derive(Drop)]
pub struct Ending {
    /// The status that is due.
    pub status: Status,
    /// The text that is due with it: nothing, or whole lines.
    pub text: Vec<u8>,
    /// The bytes that are to be saved before the text is written.
    pub saved: Option<Vec<u8>>,
}

impl Model for Ending {
    ghost use Rattle.std.specs.Option.{option_map};
    ghost use Rattle.pch_shell.specs.Outcomes.{Outcome};

    ghost Value = { Outcome };

    ghost view = { λ e. record {
      status = e.status;
      text = e.text.items;
      saved = option_map (λ bytes. bytes.items) e.saved;
    } };
}

impl Ending {
    /// A status with its text.
    fn with(status: Status, text: Vec<u8>) -> Ending
        ensures { result ≡ record { status = status; text = text.items; saved = None } }
    {
        Ending {
            status,
            text,
            saved: None,
        }
    }

    /// What was asked for is done.
    pub fn done(text: Vec<u8>) -> Ending
        ensures { result ≡ done text.items }
    {
        Ending::with(Status::Done, text)
    }

    /// What was asked for is done, and these bytes are to be saved.
    pub fn done_with(bytes: Vec<u8>, text: Vec<u8>) -> Ending
        ensures { result ≡ done_with bytes.items text.items }
    {
        Ending {
            status: Status::Done,
            text,
            saved: Some(bytes),
        }
    }

    /// These bytes are to be saved, and the line says how many there are.
    pub fn written(alloc: Global, bytes: Vec<u8>) -> Result<Ending, NoMemory>
        ensures { IfOk result (λ e. e ≡ done_with bytes.items (written_line (length bytes.items))) }
    {
        let line = Line::new(alloc, "written")?.long_number(bytes.len() as u64)?;
        Ok(Ending::done_with(bytes, line.end()?))
    }

    /// What was delivered isn't accepted.
    pub fn refused(text: Vec<u8>) -> Ending
        ensures { result ≡ refused text.items }
    {
        Ending::with(Status::NotAccepted, text)
    }

    /// A specification and a design differ.
    pub fn differs(text: Vec<u8>) -> Ending
        ensures { result ≡ differs text.items }
    {
        Ending::with(Status::Differs, text)
    }

    /// A budget is spent, and these bytes, what it was spent on, are to be saved.
    pub fn spent_with(bytes: Vec<u8>, text: Vec<u8>) -> Ending
        ensures { result ≡ spent_with bytes.items text.items }
    {
        Ending {
            status: Status::Spent,
            text,
            saved: Some(bytes),
        }
    }

    /// A design needs more than a fabric has.
    pub fn unroutable(text: Vec<u8>) -> Ending
        ensures { result ≡ unroutable text.items }
    {
        Ending::with(Status::Unroutable, text)
    }

    /// A file isn't as its format says.
    pub fn bad_input(text: Vec<u8>) -> Ending
        ensures { result ≡ bad_input text.items }
    {
        Ending::with(Status::BadInput, text)
    }

    /// The words have none of the forms.
    pub fn words(alloc: Global) -> Result<Ending, NoMemory>
        ensures { IfOk result (λ e. e ≡ no_words) }
    {
        Ok(Ending::with(Status::Words, Line::new(alloc, "words")?.end()?))
    }

    /// A file wasn't loaded or saved. None is made for want of memory.
    pub fn not_stored(alloc: Global, name: &str, fail: LoadFail) -> Result<Ending, NoMemory>
        ensures ending { IfOk result (λ e. e ≡ not_stored name.now fail) }
        ensures fault { IfOk result (λ _. fail ≢ LoadFail.NoMemory) }
    {
        let what = match fail {
            LoadFail::Failed => "failed",
            LoadFail::Absent => "absent",
            LoadFail::TooLong => "too-long",
            LoadFail::NoMemory => return Err(NoMemory),
        };
        let line = Line::new(alloc, "store")?.word(name)?.word(what)?;
        Ok(Ending::with(Status::Store, line.end()?))
    }
}
