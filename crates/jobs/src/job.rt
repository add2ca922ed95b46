// Job counts: before a job is begun, its terms are sent as a sheet, and the count says how many of them can be offered.
ghost use Rattle.std.specs.Prelude.{◌≡◌, ◌<◌, ◌≤◌};
ghost use Rattle.index.specs.Held.{machine_of};
ghost use Rattle.jobs.specs.Jobs.{longest_sheet, Adds, OneMore, Counts, share_of};

use crate::judging::{ask_list, judge_line};
use crate::lines::Lines;
use crate::verdict::Verdict;
use faults::{Fault, Reason};
use index::Index;
use terms::key::Term;
use terms::marks::Marks;

// How many bytes a sheet has at the most.
pub const LONGEST_SHEET: usize = 65_535;

// How many lines a sheet has, how many of them come to what, and the share of the offered ones in hundredths.
#[derive(Clone, Copy, PartialEq, Eq, Default, Debug)]
pub struct JobCount {
    pub lines: usize,
    pub offered: usize,
    pub withheld: usize,
    pub absent: usize,
    pub unreadable: usize,
    pub share: usize,
}

impl JobCount {
    // Counts one line more.
    fn add(&mut self, outcome: Option<Verdict>)
        requires { (Adds self.old) × (self.old.lines < longest_sheet) }
        ensures { OneMore outcome self.old self.new }
    {
        self.lines += 1;
        match outcome {
            None => self.unreadable += 1,
            Some(Verdict::Absent) => self.absent += 1,
            Some(Verdict::Offered(_)) => self.offered += 1,
            Some(Verdict::Withheld(_)) => self.withheld += 1,
        }
    }

    // The share of the offered lines in hundredths, rounded down; 0 where there are no lines.
    fn offered_share(&self) -> usize
        requires { (Adds self.now) × (self.now.lines ≤ longest_sheet) }
        ensures { result ≡ share_of self.now.offered self.now.lines }
    {
        (100 * self.offered).checked_div(self.lines).unwrap_or(0)
    }
}

// Counts what becomes of the lines of a sheet at an end list, or refuses: the sheet is too long, then no such list. The
// list is asked for before any line, since a sheet may have none that asks for it.
pub fn count_job(index: &Index<Term, Marks>, list: usize, sheet: &[u8]) -> Result<JobCount, Fault>
    ensures { Counts (machine_of index.now).register list sheet.now result }
{
    if sheet.len() > LONGEST_SHEET {
        return Err(Fault::new(Reason::SheetTooLong, sheet.len(), 0));
    }
    ask_list(index, list)?;
    let mut count = JobCount::default();
    for line in Lines::of(sheet) {
        count.add(judge_line(index, list, line)?);
    }
    count.share = count.offered_share();
    Ok(count)
}
