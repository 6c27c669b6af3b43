//! Why payloads can't be read.

ghost use Rattle.result_sets.specs.declared.fault.PayloadFault.TheVariants.{Malformed, Memory};
ghost use Rattle.result_sets.specs.Faults.{in_payload};
ghost use Rattle.std.specs.Prelude.{◌≡◌};
ghost use Rattle.wire_form.specs.Fields.{place_of};

use lg_base::ReadFault;

/// Why a list of payloads can't be read as a table.
#[derive(Clone, Copy, Debug, PartialEq, Eq)]
pub enum TableFault {
    /// No table has these payloads. `index`, counted from 0, is that of the first payload that doesn't fit, and `at` the
    /// length of its longest front that does. Of a list that ends too early `index` is the length, and `at` is 0.
    Malformed { index: usize, at: usize },
    /// No memory was to be had.
    Memory,
}

/// A payload is no spelling. `at` is the length of its longest front that goes on to one.
#[derive(Clone, Copy, Debug, PartialEq, Eq)]
pub(crate) struct Misfit {
    pub(crate) at: usize,
}

/// Why a payload can't be read.
#[derive(Clone, Copy, Debug, PartialEq, Eq)]
pub(crate) enum PayloadFault {
    /// The payload is no spelling. `at` is the length of its longest front that goes on to one.
    Malformed { at: usize },
    /// No memory was to be had.
    Memory,
}

impl PayloadFault {
    /// The fault of a list in which the payload stands at `index`.
    pub(crate) fn in_payload(self, index: usize) -> TableFault
        ensures { result ≡ in_payload self index }
    {
        match self {
            PayloadFault::Malformed { at } => TableFault::Malformed { index, at },
            PayloadFault::Memory => TableFault::Memory,
        }
    }
}

impl From<ReadFault> for Misfit {
    ghost from_gives = { λ fault e. e.at ≡ place_of fault };

    fn from(fault: ReadFault) -> Misfit {
        match fault {
            ReadFault::Short { at } | ReadFault::BadLenenc { at } => Misfit { at },
        }
    }
}

impl From<ReadFault> for PayloadFault {
    ghost from_gives = { λ fault e. e ≡ Malformed (place_of fault) };

    fn from(fault: ReadFault) -> PayloadFault {
        match fault {
            ReadFault::Short { at } | ReadFault::BadLenenc { at } => PayloadFault::Malformed { at },
        }
    }
}

impl From<Misfit> for PayloadFault {
    ghost from_gives = { λ misfit e. e ≡ Malformed misfit.at };

    fn from(misfit: Misfit) -> PayloadFault {
        PayloadFault::Malformed { at: misfit.at }
    }
}

impl From<lg_base::Memory> for PayloadFault {
    ghost from_gives = { λ _ e. e ≡ Memory };

    fn from(_refused: lg_base::Memory) -> PayloadFault {
        PayloadFault::Memory
    }
}
