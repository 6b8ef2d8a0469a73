// What the entries of the library answer: the refusals by name, the test that gives one, the ring of an encoding, and the verdict of a check.
#![tactic(auto)]

ghost use Rattle.std.specs.Prelude.{◌≡◌, IfOk};
ghost use Rattle.parameters.specs.declared.Params.{Params};
ghost use Rattle.refusal.specs.Answer.{set_in, in_set_of};
ghost use Rattle.refusal.specs.Meaning.{refusal_number, ensured, number_in};

use split_tables::Ring;

// Document 01, "Refusals, by who can cause them", and document 02, with the documents' numbers.
#[derive(Clone, Copy, Debug, PartialEq, Eq, Hash)]
pub enum Refusal {
    WrongLength = 1,
    WrongSet = 2,
    NoSet = 3,
    WrongExponents = 4,
    WrongKey = 5,
    WrongMask = 6,
    WrongEvaluation = 7,
    TooManyMasks = 8,
    NonePasses = 9,
    NotHeld = 10,
    PoolSpent = 11,
    WrongEntries = 12,
    FileEnds = 13,
    UnknownCommand = 14,
    WrongTag = 15,
    BytesAfterEnd = 16,
    NoneLeft = 17,
    WrongRule = 18,
}

impl Refusal {
    // The documents' number, which a row and the C functions give. None is 0. By name and no `From`: a number is document 01's word for it.
    pub fn number(self) -> u32
        ensures { result ≡ refusal_number self }
    {
        self as u32
    }
}

// One test of an entry: the refusal where it fails.
pub fn ensure(holds: bool, refusal: Refusal) -> Result<(), Refusal>
    ensures { result ≡ ensured holds refusal }
{
    if holds { Ok(()) } else { Err(refusal) }
}

// The ring of the set that an encoding begins with. Refused are an empty encoding, then a first byte that is no set.
pub fn ring_in(encoding: &[u8]) -> Result<Ring<'static>, Refusal>
    ensures refusal { number_in result ≡ in_set_of encoding.now (λ (p : Params). 0) }
    ensures numbers { IfOk result (λ r. r.params ≡ set_in encoding.now) }
{
    let set = encoding.first().ok_or(Refusal::WrongLength)?;
    Ring::of(*set).ok_or(Refusal::WrongSet)
}

// What a check says of a signature that it does not refuse.
#[derive(Clone, Copy, Debug, PartialEq, Eq)]
pub enum Verdict {
    Yes,
    No,
}
