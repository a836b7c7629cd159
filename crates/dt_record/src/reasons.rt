ghost use Rattle.std.specs.Prelude.{◌≡◌};
ghost use Rattle.dt_record.specs.Reasons.{reason_number, reason_name};

/// Why a record is not allowed: the first check that it fails. This project's own list, in the
/// order of the numbers 1 to 23 that reports print.
#[derive(Clone, Copy, Debug, PartialEq, Eq)]
pub enum Reason {
    Pc,
    Fetch,
    Raises,
    Kind,
    Cause,
    Tval,
    Interrupt,
    Value,
    Address,
    StoreData,
    Order,
    LoadSource,
    Adopt,
    Counter,
    Undrained,
    AtomicValue,
    AtomicWrite,
    Refill,
    ScSuccess,
    DrainCount,
    DrainData,
    Barrier,
    State,
}

impl Reason {
    /// The number that reports print, from 1 to 23.
    pub fn number(self) -> u8
        ensures { result ≡ reason_number self }
    {
        match self {
            Reason::Pc => 1,
            Reason::Fetch => 2,
            Reason::Raises => 3,
            Reason::Kind => 4,
            Reason::Cause => 5,
            Reason::Tval => 6,
            Reason::Interrupt => 7,
            Reason::Value => 8,
            Reason::Address => 9,
            Reason::StoreData => 10,
            Reason::Order => 11,
            Reason::LoadSource => 12,
            Reason::Adopt => 13,
            Reason::Counter => 14,
            Reason::Undrained => 15,
            Reason::AtomicValue => 16,
            Reason::AtomicWrite => 17,
            Reason::Refill => 18,
            Reason::ScSuccess => 19,
            Reason::DrainCount => 20,
            Reason::DrainData => 21,
            Reason::Barrier => 22,
            Reason::State => 23,
        }
    }

    /// The name that reports print.
    pub fn name(self) -> &'static str
        ensures { result.now ≡ reason_name self }
    {
        match self {
            Reason::Pc => "Pc",
            Reason::Fetch => "Fetch",
            Reason::Raises => "Raises",
            Reason::Kind => "Kind",
            Reason::Cause => "Cause",
            Reason::Tval => "Tval",
            Reason::Interrupt => "Interrupt",
            Reason::Value => "Value",
            Reason::Address => "Address",
            Reason::StoreData => "StoreData",
            Reason::Order => "Order",
            Reason::LoadSource => "LoadSource",
            Reason::Adopt => "Adopt",
            Reason::Counter => "Counter",
            Reason::Undrained => "Undrained",
            Reason::AtomicValue => "AtomicValue",
            Reason::AtomicWrite => "AtomicWrite",
            Reason::Refill => "Refill",
            Reason::ScSuccess => "ScSuccess",
            Reason::DrainCount => "DrainCount",
            Reason::DrainData => "DrainData",
            Reason::Barrier => "Barrier",
            Reason::State => "State",
        }
    }
}
