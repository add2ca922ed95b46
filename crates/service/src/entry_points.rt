// What a C program may call: `service_c` exports it.
ghost use Rattle.std.specs.Prelude.{◌≡◌, Err};
ghost use Rattle.service.specs.Reports.{FileCounts, count_report, report_of, Reports};

use crate::refusal::Refusal;
use crate::tree::Tree;
use jobs::job::JobCount;
use std::alloc::Global;

// In the place of a refusal's number: there was not enough memory.
const NO_MEMORY: usize = 255;

// A job count for C. Where it was refused all but the refusal's number is 0. C has no Result, so a number stands for the
// refusal, and 0 for none.
#[repr(C)]
#[derive(Clone, Copy, PartialEq, Eq, Default, Debug)]
pub struct JobReport {
    pub refusal: usize,
    pub lines: usize,
    pub offered: usize,
    pub withheld: usize,
    pub absent: usize,
    pub unreadable: usize,
    pub share: usize,
}

impl From<JobCount> for JobReport {
    ghost from_gives = { λ count report. report ≡ count_report count };

    fn from(count: JobCount) -> JobReport {
        JobReport {
            refusal: 0,
            lines: count.lines,
            offered: count.offered,
            withheld: count.withheld,
            absent: count.absent,
            unreadable: count.unreadable,
            share: count.share,
        }
    }
}

impl From<Refusal> for JobReport {
    ghost from_gives = { λ why report. report ≡ report_of (Err why) };

    fn from(why: Refusal) -> JobReport {
        let refusal = match why {
            Refusal::Fault(fault) => fault.reason.number() as usize,
            Refusal::NoMemory => NO_MEMORY,
        };
        JobReport {
            refusal,
            ..JobReport::default()
        }
    }
}

// The count of a sheet on the tree of a file.
fn count_in_file(heap: Global, file: &[u8], sheet: &[u8], list: usize) -> Result<JobCount, Refusal>
    ensures { FileCounts file.now sheet.now list result }
{
    let tree = Tree::load(heap, file)?;
    tree.count_job(heap, list, sheet)
}

// A whole job: the count of a sheet at an end list of the tree of a file.
pub fn galdrisco_count_job(heap: Global, tree: &[u8], sheet: &[u8], list: usize) -> JobReport
    ensures { Reports tree.now sheet.now list result }
{
    match count_in_file(heap, tree, sheet, list) {
        Ok(count) => count.into(),
        Err(why) => why.into(),
    }
}
