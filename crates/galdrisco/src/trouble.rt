// What is said where something that was asked for is not granted.
use crate::text::Quoted;
use faults::Fault;
use service::refusal::Refusal;
use std::{fmt, io};

// What the program can be told to do.
pub const HELP: &str =
    "galdrisco checks tree files of term lists, shows what they hold, looks terms up in them and counts jobs.

  galdrisco check FILE..   says of each file how many lists and entries it holds, or why it is refused
  galdrisco show FILE      prints the lists of a file with their entries, or why it is refused
  galdrisco lookup FILE TERM LIST [low|high]
                           prints the place of a term in each list from the root to the list of that number: before
                           entries of the same term (low, also where no side is given) or behind them (high)
  galdrisco offer FILE TERM LIST
                           prints where entries of a term stand in each of these lists, and their marks together
  galdrisco verdict FILE TERM LIST
                           prints whether the term may be offered at the list of that number, is withheld or absent
  galdrisco job FILE SHEET LIST
                           prints the verdict on each line of a sheet, which has one term a line, and how many lines
                           come to what
  galdrisco help           prints this text

The status is 0 where every file was read and all was granted, otherwise 1.
";

// Why the words make no command.
#[derive(Drop)]
pub enum Usage {
    // A word is missing, is no number, or is one too many.
    Unclear,
    NoCommand(String),
}

impl fmt::Display for Usage {
    fn fmt<W: fmt::Write>(&self, f: &mut fmt::Formatter<W>) -> fmt::Result {
        if let Usage::NoCommand(name) = self {
            write!(f, "galdrisco: no such command: {name}\n\n")?;
        }
        f.write_str(HELP)
    }
}

// Why a command did not come to its end.
#[derive(Drop)]
pub enum Trouble<'c> {
    // A file cannot be read.
    Unread(&'c str, io::Error),
    // A text is no term.
    NoTerm(&'c str, Fault),
    // A file, or a question on it, is refused.
    Refused(&'c str, Refusal),
    // Something of many was not granted, and it was said of what.
    Told,
    // What was to be printed could not be.
    Output(io::Error),
}

impl<'c> Trouble<'c> {
    pub fn refused<E: Into<Refusal>>(what: &'c str, why: E) -> Trouble<'c> {
        Trouble::Refused(what, why.into())
    }

    // Says it where answers stand, but for what cannot be printed, which goes up.
    pub fn tell(self, rt: &HostRuntime) -> io::Result<()> {
        match self {
            Trouble::Output(error) => Err(error),
            trouble => print!(rt; "{trouble}"),
        }
    }
}

impl From<io::Error> for Trouble<'_> {
    fn from(error: io::Error) -> Self {
        Trouble::Output(error)
    }
}

// On lines of its own.
impl fmt::Display for Trouble<'_> {
    fn fmt<W: fmt::Write>(&self, f: &mut fmt::Formatter<W>) -> fmt::Result {
        match self {
            Trouble::Unread(file, error) => writeln!(f, "{file}: cannot be read: {error}"),
            Trouble::NoTerm(term, fault) => {
                let term = Quoted(term.as_bytes());
                writeln!(f, "{term}: {fault}")
            }
            Trouble::Refused(what, why) => writeln!(f, "{what}: {why}"),
            Trouble::Told => Ok(()),
            Trouble::Output(error) => writeln!(f, "{error}"),
        }
    }
}
