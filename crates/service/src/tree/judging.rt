// Verdicts and job counts on a tree.
ghost use Rattle.jobs.specs.Verdicts.{verdict_answer};
ghost use Rattle.service.specs.Asked.{Answers, asked};
ghost use Rattle.service.specs.Jobs.{TreeCounts};
ghost use Rattle.service.specs.Trees.{register_of};

use crate::refusal::Refusal;
use crate::tree::Tree;
use jobs::job::{JobCount, count_job};
use jobs::judging::verdict;
use jobs::verdict::Verdict;
use std::alloc::Global;
use terms::key::Term;

impl Tree {
    // The verdict on a key at an end list.
    pub fn judge(&self, heap: Global, list: usize, key: &Term) -> Result<Verdict, Refusal>
        ensures { Answers (λ v. v) (asked (register_of self.now) (λ reg. verdict_answer reg list key.now)) result }
    {
        self.ask(heap, |index| verdict(index, list, key))
    }

    // The count of a sheet at an end list.
    pub fn count_job(&self, heap: Global, list: usize, sheet: &[u8]) -> Result<JobCount, Refusal>
        ensures { TreeCounts (register_of self.now) list sheet.now result }
    {
        self.ask(heap, |index| count_job(index, list, sheet))
    }
}
