//! Why a line was refused: its own form, or what came up from the reading and the rig below.
ghost use Rattle.std.specs.Prelude.{◌≡◌};
ghost use Rattle.console.specs.Answering.{fault_length};
ghost use Rattle.console.specs.Faults.{cause_number, fault_number};
ghost use Rattle.console.specs.declared.fault.Cause.TheVariants.{Reading};
ghost use Rattle.console.specs.declared.fault.ConsoleFault.TheVariants.{Size};
ghost use Rattle.reading.specs.declared.ReadingFault.TheVariants.{Refused};

use answers::Answer;
use reading::ReadingFault;
use report::WrongSize;
use rig::Refusal;

/// The number by which a wrong form is known, after those of a rig and of a size.
pub const WRONG_FORM: u8 = 6;

/// Why a line was refused.
#[derive(Clone, Copy, Debug)]
pub enum Cause {
    /// It is no right line, from this column on.
    Form { column: usize },
    /// A reading or, in its fault, the rig refused.
    Reading(ReadingFault),
}

impl Cause {
    /// The number that the answer shows.
    pub fn number(self) -> u8
        ensures { result ≡ cause_number self }
    {
        match self {
            Cause::Form { .. } => WRONG_FORM,
            Cause::Reading(fault) => fault.number(),
        }
    }
}

// The `From`s are by hand, since `from_gives` says what each makes: proofs go by it at each `?`.
impl From<WrongSize> for ConsoleFault {
    ghost from_gives = { λ _ f. f ≡ Size };

    fn from(_: WrongSize) -> ConsoleFault {
        ConsoleFault::Size
    }
}

impl From<ReadingFault> for Cause {
    ghost from_gives = { λ e c. c ≡ Reading e };

    fn from(e: ReadingFault) -> Cause {
        Cause::Reading(e)
    }
}

impl From<Refusal> for Cause {
    ghost from_gives = { λ e c. c ≡ Reading (Refused e) };

    fn from(e: Refusal) -> Cause {
        Cause::Reading(ReadingFault::from(e))
    }
}

/// Why the console has nothing good to say.
#[derive(Clone, Copy, Debug)]
pub enum ConsoleFault {
    /// The buffer does not have the bytes of an answer. Nothing was done.
    Size,
    /// The line was refused. The buffer holds the answer that says so.
    Line { line: u32, cause: Cause },
}

impl ConsoleFault {
    /// The number by which the fault is known: what came up from below keeps its own.
    pub fn number(self) -> u8
        ensures { result ≡ fault_number self }
    {
        match self {
            ConsoleFault::Size => WrongSize.number(),
            ConsoleFault::Line { cause, .. } => cause.number(),
        }
    }

    /// How many bytes of the buffer are the answer.
    // From the answer again, so that a fault carries no length beside what it is the length of.
    #[tactic(auto, unfolding(crate::specs::Answering::said, answers::specs::Text::text_of))]
    pub fn length(self) -> usize
        ensures { result ≡ fault_length self }
    {
        match self {
            ConsoleFault::Size => 0,
            ConsoleFault::Line { line, cause } => {
                let number = cause.number();
                Answer::Refused { line, number }.length()
            }
        }
    }
}
