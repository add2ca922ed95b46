// Asking an index for verdicts.
ghost use Rattle.std.specs.Prelude.{◌≡◌};
ghost use Rattle.layout.specs.KeyTrees.{key_tree};
ghost use Rattle.register.specs.Questions.{unless, list_fault};
ghost use Rattle.index.specs.Held.{machine_of};
ghost use Rattle.jobs.specs.Jobs.{Judges};
ghost use Rattle.jobs.specs.Verdicts.{verdict_answer};

use crate::verdict::Verdict;
use faults::Fault;
use index::Index;
use orders::side::Side;
use terms::key::Term;
use terms::marks::Marks;

// The verdict on a term at an end list, or the refusal: no such list.
pub fn verdict(index: &Index<Term, Marks>, list: usize, key: &Term) -> Result<Verdict, Fault>
    ensures { result ≡ verdict_answer (machine_of index.now).register list key.now }
{
    let offer = index.offer(list, key)?;
    Ok(Verdict::of(offer.entries, offer.payload))
}

// Whether there is such a list. An index answers that only with a lookup, which any term will do for.
pub(crate) fn ask_list(index: &Index<Term, Marks>, list: usize) -> Result<(), Fault>
    ensures { result ≡ unless (list_fault (key_tree (machine_of index.now).register) list) tt }
{
    let any = Term::new(b"-")?;
    index.look_up(list, &any, Side::Low)?;
    Ok(())
}

// The verdict on a line at an end list, nothing where the line is the text of no term key; or the refusal: no such list.
pub fn judge_line(
    index: &Index<Term, Marks>,
    list: usize,
    line: &[u8],
) -> Result<Option<Verdict>, Fault>
    ensures { Judges (machine_of index.now).register list line.now result }
{
    let Ok(key) = Term::new(line) else {
        return Ok(None);
    };
    let found = verdict(index, list, &key)?;
    Ok(Some(found))
}
