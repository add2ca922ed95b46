// Why a file was not loaded or a question not answered.
ghost use Rattle.std.specs.Prelude.{◌≡◌, Some};
ghost use Rattle.service.specs.Refusals.{told};
ghost use Rattle.service.specs.declared.refusal.Refusal.TheVariants.{Fault as FaultGiven, NoMemory as MemoryLacking};

use faults::Fault;
use std::alloc::AllocError;
use std::fmt;

#[derive(Clone, Copy, PartialEq, Eq, Debug)]
pub enum Refusal {
    Fault(Fault),
    NoMemory,
}

impl From<Fault> for Refusal {
    ghost from_gives = { λ f r. r ≡ FaultGiven f };

    fn from(fault: Fault) -> Refusal {
        Refusal::Fault(fault)
    }
}

impl From<AllocError> for Refusal {
    ghost from_gives = { λ _ r. r ≡ MemoryLacking };

    fn from(_: AllocError) -> Refusal {
        Refusal::NoMemory
    }
}

impl fmt::Display for Refusal {
    ghost output = { λ r. Some (told r) };

    fn fmt<W: fmt::Write>(&self, f: &mut fmt::Formatter<W>) -> fmt::Result {
        match self {
            Refusal::Fault(why) => write!(f, "{why}"),
            Refusal::NoMemory => f.write_str("there is not enough memory"),
        }
    }
}
