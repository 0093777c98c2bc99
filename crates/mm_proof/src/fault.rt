//! Why a proof's text spells no steps.

ghost use Rattle.std.specs.Prelude.{◌≡◌};
ghost use Rattle.mm_proof.specs.Faults.{number_of, place_of};
ghost use Rattle.mm_proof.specs.declared.fault.ProofFault.TheVariants.{Memory};

use std::alloc::{AllocError, AllocFailed};
use thiserror::Error;

/// Why a proof's text spells no steps. Tokens of the proof are counted from 1, the `(` too; places count the bytes of the
/// database from 0.
#[derive(Clone, Copy, Debug, PartialEq, Eq, Error)]
pub enum ProofFault {
    #[error("token {0} is no statement's label")]
    NoSuchLabel(u64),
    #[error("token {0} is an assertion that is not earlier")]
    NotEarlier(u64),
    #[error("token {0} is a hypothesis that is not active")]
    HypothesisNotActive(u64),
    #[error("token {0} lists a mandatory hypothesis")]
    MandatoryListed(u64),
    #[error("byte {0} is no letter, or a `?` inside a number")]
    BadLetter(u64),
    #[error("the number that ends with byte {0} is out of range")]
    NumberOutOfRange(u64),
    #[error("the `Z` at byte {0} follows no complete number")]
    TagMisplaced(u64),
    #[error("the list of labels is not closed")]
    ListNotClosed,
    #[error("the proof is empty")]
    EmptyProof,
    #[error("the letters end inside a number")]
    NumberOpen,
    #[error("out of memory")]
    Memory,
}

impl ProofFault {
    /// The number of the proof fault; 0 for want of memory, which is no fault of a proof.
    pub fn number(&self) -> u8
        ensures { result ≡ number_of self.now }
    {
        match *self {
            ProofFault::NoSuchLabel(_) => 1,
            ProofFault::NotEarlier(_) => 2,
            ProofFault::HypothesisNotActive(_) => 3,
            ProofFault::MandatoryListed(_) => 4,
            ProofFault::BadLetter(_) => 5,
            ProofFault::NumberOutOfRange(_) => 6,
            ProofFault::TagMisplaced(_) => 7,
            ProofFault::ListNotClosed => 8,
            ProofFault::EmptyProof => 9,
            ProofFault::NumberOpen => 10,
            ProofFault::Memory => 0,
        }
    }

    /// The token or the byte that has it; 0 where the fault is of none.
    pub fn place(&self) -> u64
        ensures { result ≡ place_of self.now }
    {
        match *self {
            ProofFault::NoSuchLabel(place)
            | ProofFault::NotEarlier(place)
            | ProofFault::HypothesisNotActive(place)
            | ProofFault::MandatoryListed(place)
            | ProofFault::BadLetter(place)
            | ProofFault::NumberOutOfRange(place)
            | ProofFault::TagMisplaced(place) => place,
            ProofFault::ListNotClosed
            | ProofFault::EmptyProof
            | ProofFault::NumberOpen
            | ProofFault::Memory => 0,
        }
    }
}

impl From<AllocError> for ProofFault {
    ghost from_gives = { λ _ e. e ≡ Memory };

    fn from(_e: AllocError) -> ProofFault {
        ProofFault::Memory
    }
}

impl<T: Drop> From<AllocFailed<T>> for ProofFault {
    ghost from_gives = { λ _ e. e ≡ Memory };

    fn from(_e: AllocFailed<T>) -> ProofFault {
        ProofFault::Memory
    }
}
