// The lists of a shelf while they are measured.
ghost use Rattle.std.specs.Prelude.{◌≡◌, ℕ, ◌<◌, ◌≤◌, length};
ghost use Rattle.layout.specs.KeyTrees.{key_tree};
ghost use Rattle.register.specs.Limits.{most_lists};
ghost use Rattle.plan.specs.Columns.{Smaller, parent_in, nth_run, run_read};

use crate::questions::{ask, ask_count, ask_parents};
use crate::table::{ListRun, ListTable, NO_RUN};
use faults::{Fault, Reason};
use register::limits::{MOST_CHILDREN, MOST_EDGES, MOST_ENTRIES, MOST_LISTS, SAMPLE_STEP};
use shelves::Shelf;

// The runs of `len` lists, as far as they are worked out. Each parent is smaller than its child.
#[derive(Clone, Copy)]
pub struct Lists {
    pub len: usize,
    pub runs: [ListRun; MOST_LISTS],
    pub ghost some: { 1 ≤ len },
    pub ghost few: { len ≤ 128 },
    pub ghost smaller: { Smaller len (parent_in runs) },
}

// The parent that a shelf names of each list, also of those that do not exist.
fn read_runs<S: Shelf>(shelf: &S) -> [ListRun; MOST_LISTS]
    ensures size { length result ≡ most_lists }
    ensures each { (v : ℕ) → v < most_lists → nth_run result v ≡ run_read (key_tree (S.meaning shelf.now)) v }
{
    let mut runs = [NO_RUN; MOST_LISTS];
    for (v, run) in runs.iter_mut().enumerate() {
        *run = ListRun {
            parent: shelf.parent(v).unwrap_or(0),
            ..NO_RUN
        };
    }
    runs
}

impl Lists {
    ghost use Rattle.std.specs.Prelude.{◌-◌, ◌^◌, take, sum_by};
    ghost use Rattle.faults.specs.declared.Reason.TheVariants.{TooDeep};
    ghost use Rattle.register.specs.Limits.{most_edges, most_entries};
    ghost use Rattle.register.specs.Questions.{unless};
    ghost use Rattle.plan.specs.Columns.{length_in, Holds, Depths, most_asked, entries_asked, length_by, run_by};
    ghost use Rattle.plan.specs.Lists.{Reads, Numbered, Counted};

    // Reads the lists of a shelf: their parents.
    pub fn read<S: Shelf>(shelf: &S) -> Result<Lists, Fault>
        ensures { Reads (key_tree (S.meaning shelf.now)) result }
    {
        let len = shelf.lists();
        ask_count(len)?;
        let runs = read_runs(shelf);
        ask_parents(&runs[..len])?;
        Ok(Lists { len, runs })
    }

    fn lists(&self) -> &[ListRun]
        ensures { result.now ≡ take self.now.len self.now.runs }
    {
        &self.runs[..self.len]
    }

    // Is each list at most 8 edges below the root?
    pub fn ask_depths(&self) -> Result<(), Fault>
        ensures { (depth : ℕ → ℕ) → Depths self.now.len (parent_in self.now.runs) depth → result ≡ unless (most_asked TooDeep most_edges self.now.len depth) tt }
    {
        let mut depths = [0; MOST_LISTS];
        for (v, list) in self.lists().iter().enumerate().skip(1) {
            let depth = depths[list.parent] + 1;
            ask(depth <= MOST_EDGES, Fault::new(Reason::TooDeep, v, 0))?;
            depths[v] = depth;
        }
        Ok(())
    }

    // The same lists, each but the root with the number of siblings before it, which is less than 4.
    pub fn numbered(&self) -> Result<Lists, Fault>
        ensures { Numbered self.now result }
    {
        let mut runs = self.runs;
        let mut children = [0; MOST_LISTS];
        for (v, list) in self.lists().iter().enumerate().skip(1) {
            let ordinal = children[list.parent];
            ask(
                ordinal < MOST_CHILDREN,
                Fault::new(Reason::TooManyChildren, v, 0),
            )?;
            runs[v].ordinal = ordinal;
            children[list.parent] += 1;
        }
        Ok(Lists {
            len: self.len,
            runs,
        })
    }

    // The same lists with how many entries a shelf says they have. It is asked only here, of lists that are shaped right: an
    // answer can cost it a walk over lists. An augmented list has its own keys at first.
    pub fn counted<S: Shelf>(&self, shelf: &S) -> Lists
        ensures { Counted (key_tree (S.meaning shelf.now)) self.now result }
    {
        let mut runs = self.runs;
        for (v, run) in runs.iter_mut().enumerate() {
            let count = shelf.count(v);
            *run = ListRun {
                length: count,
                count,
                ..*run
            };
        }
        Lists {
            len: self.len,
            runs,
        }
    }

    // Do the entries, list after list, stay within 40,000?
    pub fn ask_entries(&self) -> Result<(), Fault>
        ensures { result ≡ unless (entries_asked self.now.len self.now.runs) tt }
    {
        let mut entries = 0;
        for (v, list) in self.lists().iter().enumerate() {
            ask(
                list.count <= MOST_ENTRIES - entries,
                Fault::new(Reason::TooManyEntries, v, 0),
            )?;
            entries += list.count;
        }
        Ok(())
    }

    // The same lists with the keys of their augmented lists: from the last list to the first, each gives a fourth to its parent.
    pub fn sampled(&self) -> Lists
        requires { sum_by (λ r. r.length) (take self.now.len self.now.runs) ≤ most_entries }
        ensures len { result.len ≡ self.now.len }
        ensures size { length result.runs ≡ most_lists }
        ensures same { (v : ℕ) → v < self.now.len → nth_run result.runs v ≡ record (nth_run self.now.runs v) { length = length_in result.runs v } }
        ensures long { Holds self.now.len (length_by self.now.len (parent_in self.now.runs) (length_in self.now.runs) (length_in result.runs)) (length_in result.runs) }
    {
        let mut runs = self.runs;
        // Counted, since one list is read and another written.
        for v in (1..self.len).rev() {
            let list = runs[v];
            runs[list.parent].length += list.length / SAMPLE_STEP;
        }
        Lists {
            len: self.len,
            runs,
        }
    }

    // The table of the lists: runs follow one another.
    pub fn table(&self) -> ListTable
        requires keys { sum_by (λ r. r.length) (take self.now.len self.now.runs) < 2 ^ 64 }
        requires entries { sum_by (λ r. r.count) (take self.now.len self.now.runs) < 2 ^ 64 }
        ensures len { result.len ≡ self.now.len }
        ensures size { length result.runs ≡ most_lists }
        ensures each { (v : ℕ) → v < self.now.len → nth_run result.runs v ≡ run_by self.now.runs v }
    {
        let mut runs = self.runs;
        let mut start = 0;
        let mut first = 0;
        for (v, list) in self.lists().iter().enumerate() {
            runs[v] = ListRun {
                start,
                first,
                ..*list
            };
            start += list.length;
            first += list.count;
        }
        ListTable {
            len: self.len,
            runs,
        }
    }
}
