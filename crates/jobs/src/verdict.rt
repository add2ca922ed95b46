// Verdicts: what the lists say of a term.
ghost use Rattle.std.specs.Prelude.{◌≡◌};
ghost use Rattle.jobs.specs.Verdicts.{verdict_of};

use terms::marks::Marks;

// How a term that may be offered stands among others of its meaning.
#[derive(Clone, Copy, PartialEq, Eq, Debug)]
pub enum Standing {
    Preferred,
    Plain,
}

// Why a term is withheld: it was withdrawn, so that nobody is to use it any more, or a client forbids it by a ban.
#[derive(Clone, Copy, PartialEq, Eq, Debug)]
pub enum Cause {
    Withdrawn,
    Ban,
}

// What is said of a term at an end list: no list from the root to there has it, it may be used, or it must not be.
#[derive(Clone, Copy, PartialEq, Eq, Debug)]
pub enum Verdict {
    Absent,
    Offered(Standing),
    Withheld(Cause),
}

impl Verdict {
    // The verdict by the number of matching entries and their joined marks. What withholds is asked first, so that no
    // list can make a withdrawn or banned term good again.
    pub(crate) fn of(entries: usize, marks: Marks) -> Verdict
        ensures { result ≡ verdict_of entries marks }
    {
        if entries == 0 {
            return Verdict::Absent;
        }
        if marks.has(Marks::WITHDRAWN) {
            return Verdict::Withheld(Cause::Withdrawn);
        }
        if marks.has(Marks::BANNED) {
            return Verdict::Withheld(Cause::Ban);
        }
        if marks.has(Marks::PREFERRED) {
            Verdict::Offered(Standing::Preferred)
        } else {
            Verdict::Offered(Standing::Plain)
        }
    }
}
