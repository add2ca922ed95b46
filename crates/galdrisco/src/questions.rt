// The words of the program's arguments.
use crate::trouble::{Trouble, Usage};
use faults::{Fault, Layer};
use orders::side::Side;
use service::refusal::Refusal;
use std::env;

// What is asked of a tree: its file, a term or a sheet, and the number of an end list.
#[derive(Drop)]
pub struct Question {
    pub file: String,
    pub subject: String,
    pub list: usize,
}

impl Question {
    // The next three words; none may be missing, and the last is a number.
    fn read(args: &mut env::Args) -> Option<Question> {
        let file = args.next()?;
        let subject = args.next()?;
        let list = args.next()?.as_str().parse::<usize>().ok()?;
        Some(Question {
            file,
            subject,
            list,
        })
    }

    // The same where no word follows.
    fn alone(args: &mut env::Args) -> Option<Question> {
        let question = Question::read(args)?;
        args.next().is_none().then_some(question)
    }

    // The tree's refusal of the question.
    pub fn refused<E: Into<Refusal>>(&self, why: E) -> Trouble<'_> {
        Trouble::refused(self.file.as_str(), why)
    }

    // The refusal of a job: of its sheet, or of the tree.
    pub fn refused_job(&self, fault: Fault) -> Trouble<'_> {
        let what = match fault.layer {
            Layer::Job => self.subject.as_str(),
            _ => self.file.as_str(),
        };
        Trouble::refused(what, fault)
    }
}

// The side that a last word names, the low side where there is none; nothing where other words follow.
fn side(args: &mut env::Args) -> Option<Side> {
    let Some(word) = args.next() else {
        return Some(Side::Low);
    };
    match (word.as_str(), args.next()) {
        ("low", None) => Some(Side::Low),
        ("high", None) => Some(Side::High),
        _ => None,
    }
}

// What the program is told to do.
#[derive(Drop)]
pub enum Command {
    // At least one file.
    Check(String, env::Args),
    Show(String),
    LookUp(Question, Side),
    Offer(Question),
    Verdict(Question),
    Job(Question),
    Help,
}

impl Command {
    // The command in the words behind the program's name.
    pub fn read(mut args: env::Args) -> Result<Command, Usage> {
        let name = args.next().ok_or(Usage::Unclear)?;
        let command = match name.as_str() {
            "check" => args.next().map(|first| Command::Check(first, args)),
            "show" => Command::show(&mut args),
            "lookup" => Command::look_up(&mut args),
            "offer" => Question::alone(&mut args).map(Command::Offer),
            "verdict" => Question::alone(&mut args).map(Command::Verdict),
            "job" => Question::alone(&mut args).map(Command::Job),
            "help" => Some(Command::Help),
            _ => return Err(Usage::NoCommand(name)),
        };
        command.ok_or(Usage::Unclear)
    }

    fn show(args: &mut env::Args) -> Option<Command> {
        let file = args.next()?;
        args.next().is_none().then_some(Command::Show(file))
    }

    fn look_up(args: &mut env::Args) -> Option<Command> {
        let question = Question::read(args)?;
        Some(Command::LookUp(question, side(args)?))
    }
}
