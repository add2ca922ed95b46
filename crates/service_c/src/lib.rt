// The function for whole jobs that a C program may call, as a static library.
#![tactic(auto)]

ghost use Rattle.service.specs.Reports.{Reports};

use service::entry_points;
use service::entry_points::JobReport;
use std::alloc::Global;

// A whole job: the count of a sheet at an end list of the tree of a file.
#[unsafe(no_mangle)]
pub extern "C" fn galdrisco_count_job(
    heap: Global,
    tree: &[u8],
    sheet: &[u8],
    list: usize,
) -> JobReport
    ensures { Reports tree.now sheet.now list result }
{
    entry_points::galdrisco_count_job(heap, tree, sheet, list)
}
