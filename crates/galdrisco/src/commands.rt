// Carrying commands out.
use crate::answers::{LookupTable, OfferTable};
use crate::questions::{Command, Question};
use crate::sheets::{CountWords, VerdictWords, print_lines};
use crate::text::{Counted, Noun, Quoted};
use crate::trees::print_tree;
use crate::trouble::{HELP, Trouble};
use jobs::job::count_job;
use orders::side::Side;
use service::tree::Tree;
use std::process::ExitCode;
use std::{env, fs, io};
use terms::key::Term;
use treefiles::load;

// Carries out the command in the program's arguments. The status is 0 where all that was asked for was granted.
pub fn run(rt: &HostRuntime) -> io::Result<ExitCode> {
    let mut args = env::args(rt)?;
    let _ = args.next();
    let mut command = match Command::read(args) {
        Ok(command) => command,
        Err(usage) => {
            print!(rt; "{usage}")?;
            return Ok(ExitCode::FAILURE);
        }
    };
    match carry_out(rt, &mut command) {
        Ok(()) => Ok(ExitCode::SUCCESS),
        Err(trouble) => {
            trouble.tell(rt)?;
            Ok(ExitCode::FAILURE)
        }
    }
}

fn carry_out<'c>(rt: &HostRuntime, command: &'c mut Command) -> Result<(), Trouble<'c>> {
    match command {
        Command::Check(first, others) => check_all(rt, first.as_str(), others),
        Command::Show(file) => show(rt, file.as_str()),
        Command::LookUp(question, side) => look_up(rt, question, *side),
        Command::Offer(question) => offer(rt, question),
        Command::Verdict(question) => judge(rt, question),
        Command::Job(question) => count(rt, question),
        Command::Help => Ok(rt.print(HELP)?),
    }
}

// The bytes of a file.
fn read<'c>(rt: &HostRuntime, file: &'c str) -> Result<Vec<u8>, Trouble<'c>> {
    fs::read(rt, file).map_err(|error| Trouble::Unread(file, error))
}

// Checks each file, and says of each what came of it.
fn check_all<'c>(
    rt: &HostRuntime,
    first: &'c str,
    others: &mut env::Args,
) -> Result<(), Trouble<'c>> {
    let mut all = checked(rt, first)?;
    for file in others {
        all = all.and(checked(rt, file.as_str())?);
    }
    all
}

// Checks a file, and says what stood in its way, so that it need not be said again. What cannot be printed ends it.
fn checked(rt: &HostRuntime, file: &str) -> io::Result<Result<(), Trouble<'static>>> {
    let Err(trouble) = check(rt, file) else {
        return Ok(Ok(()));
    };
    trouble.tell(rt)?;
    Ok(Err(Trouble::Told))
}

fn check<'c>(rt: &HostRuntime, file: &'c str) -> Result<(), Trouble<'c>> {
    let bytes = read(rt, file)?;
    let sizes = load::check(bytes.as_slice()).map_err(|fault| Trouble::refused(file, fault))?;
    let lists = Counted(sizes.lists, Noun::List);
    let entries = Counted(sizes.entries, Noun::Entry);
    println!(rt; "{file}: ok, {lists}, {entries}")?;
    Ok(())
}

// The tree of a file.
fn load<'c>(rt: &HostRuntime, file: &'c str) -> Result<Tree, Trouble<'c>> {
    let bytes = read(rt, file)?;
    Tree::load(rt.alloc(), bytes.as_slice()).map_err(|why| Trouble::refused(file, why))
}

fn show<'c>(rt: &HostRuntime, file: &'c str) -> Result<(), Trouble<'c>> {
    let tree = load(rt, file)?;
    print_tree(rt, &tree)?;
    Ok(())
}

// The key of the term that is asked for, and the tree that is asked. The term is judged first.
fn opened<'c>(rt: &HostRuntime, question: &'c Question) -> Result<(Term, Tree), Trouble<'c>> {
    let term = question.subject.as_str();
    let key = Term::new(term.as_bytes()).map_err(|fault| Trouble::NoTerm(term, fault))?;
    Ok((key, load(rt, question.file.as_str())?))
}

fn look_up<'c>(rt: &HostRuntime, question: &'c Question, side: Side) -> Result<(), Trouble<'c>> {
    let (key, tree) = opened(rt, question)?;
    let found = tree
        .look_up(rt.alloc(), question.list, &key, side)
        .map_err(|why| question.refused(why))?;
    let table = LookupTable(&found);
    print!(rt; "{table}")?;
    Ok(())
}

fn offer<'c>(rt: &HostRuntime, question: &'c Question) -> Result<(), Trouble<'c>> {
    let (key, tree) = opened(rt, question)?;
    let found = tree
        .offer(rt.alloc(), question.list, &key)
        .map_err(|why| question.refused(why))?;
    let table = OfferTable(&found);
    print!(rt; "{table}")?;
    Ok(())
}

fn judge<'c>(rt: &HostRuntime, question: &'c Question) -> Result<(), Trouble<'c>> {
    let (key, tree) = opened(rt, question)?;
    let found = tree
        .judge(rt.alloc(), question.list, &key)
        .map_err(|why| question.refused(why))?;
    let term = Quoted(key.text());
    let words = VerdictWords(Some(found));
    println!(rt; "{term}: {words}")?;
    Ok(())
}

fn count<'c>(rt: &HostRuntime, question: &'c Question) -> Result<(), Trouble<'c>> {
    let sheet = read(rt, question.subject.as_str())?;
    let tree = load(rt, question.file.as_str())?;
    let mut room = tree.room(rt.alloc()).map_err(|why| question.refused(why))?;
    let index = tree.index(&mut room).map_err(|why| question.refused(why))?;
    let count = count_job(&index, question.list, sheet.as_slice()).map_err(
        |fault| question.refused_job(fault),
    )?;
    print_lines(rt, &index, question.list, sheet.as_slice())?;
    let words = CountWords(count);
    print!(rt; "{words}")?;
    Ok(())
}
