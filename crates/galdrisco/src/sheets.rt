// What is printed of verdicts and of the jobs that sheets are.
use crate::text::{Counted, Noun, Quoted};
use index::Index;
use jobs::job::JobCount;
use jobs::judging::judge_line;
use jobs::lines::Lines;
use jobs::verdict::{Cause, Standing, Verdict};
use std::{fmt, io};
use terms::key::Term;
use terms::marks::Marks;

// The verdict on a line, or that the line is no term's text.
#[derive(Clone, Copy)]
pub struct VerdictWords(pub Option<Verdict>);

impl fmt::Display for VerdictWords {
    fn fmt<W: fmt::Write>(&self, f: &mut fmt::Formatter<W>) -> fmt::Result {
        f.pad(match self.0 {
            None => "unreadable",
            Some(Verdict::Absent) => "absent",
            Some(Verdict::Offered(Standing::Preferred)) => "offered, preferred",
            Some(Verdict::Offered(Standing::Plain)) => "offered, plain",
            Some(Verdict::Withheld(Cause::Withdrawn)) => "withheld, withdrawn",
            Some(Verdict::Withheld(Cause::Ban)) => "withheld, ban",
        })
    }
}

// Prints a table of the lines of a sheet, each with what it comes to at an end list.
pub fn print_lines(
    rt: &HostRuntime,
    index: &Index<Term, Marks>,
    list: usize,
    sheet: &[u8],
) -> io::Result<()> {
    rt.print("  line  verdict              term\n")?;
    for (number, line) in (1usize..).zip(Lines::of(sheet)) {
        let term = Quoted(line);
        match judge_line(index, list, line) {
            Ok(outcome) => {
                let words = VerdictWords(outcome);
                println!(rt; "{number:>6}  {words:<19}  {term}")?;
            }
            Err(fault) => println!(rt; "{number:>6}  {fault}")?,
        }
    }
    Ok(())
}

// How many lines came to what.
#[derive(Clone, Copy)]
pub struct CountWords(pub JobCount);

impl fmt::Display for CountWords {
    fn fmt<W: fmt::Write>(&self, f: &mut fmt::Formatter<W>) -> fmt::Result {
        let lines = Counted(self.0.lines, Noun::Line);
        let JobCount {
            offered,
            withheld,
            absent,
            unreadable,
            share,
            ..
        } = self.0;
        writeln!(
            f,
            "{lines}: {offered} offered, {withheld} withheld, {absent} absent, {unreadable} unreadable"
        )?;
        writeln!(f, "share of offered lines: {share} %")
    }
}
