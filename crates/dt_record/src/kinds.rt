ghost use Rattle.std.specs.Prelude.{◌≡◌};
ghost use Rattle.dt_record.specs.Kinds.{kind_of, kind_number, kind_with};

use crate::records::Body;

/// The kinds of records, in the order of their tags.
#[derive(Clone, Copy, Debug, PartialEq, Eq)]
pub enum Kind {
    Commit,
    Trap,
    Regs,
    Csrs,
    Load,
    Store,
    Atomic,
    Drain,
    Refill,
    Beat,
}

impl Kind {
    /// The tag of the kind, from 1 to 10, as probe files spell it.
    pub fn tag(self) -> u8
        ensures { result ≡ kind_number self }
    {
        match self {
            Kind::Commit => 1,
            Kind::Trap => 2,
            Kind::Regs => 3,
            Kind::Csrs => 4,
            Kind::Load => 5,
            Kind::Store => 6,
            Kind::Atomic => 7,
            Kind::Drain => 8,
            Kind::Refill => 9,
            Kind::Beat => 10,
        }
    }

    /// The kind with this tag.
    pub fn with_tag(tag: u8) -> Option<Kind>
        ensures { result ≡ kind_with tag }
    {
        match tag {
            1 => Some(Kind::Commit),
            2 => Some(Kind::Trap),
            3 => Some(Kind::Regs),
            4 => Some(Kind::Csrs),
            5 => Some(Kind::Load),
            6 => Some(Kind::Store),
            7 => Some(Kind::Atomic),
            8 => Some(Kind::Drain),
            9 => Some(Kind::Refill),
            10 => Some(Kind::Beat),
            _ => None,
        }
    }
}

/// The kind of a record with this body.
pub fn kind_of(body: &Body) -> Kind
    ensures { result ≡ kind_of body.now }
{
    match body {
        Body::Commit { .. } => Kind::Commit,
        Body::Trap { .. } => Kind::Trap,
        Body::Regs { .. } => Kind::Regs,
        Body::Csrs { .. } => Kind::Csrs,
        Body::Load { .. } => Kind::Load,
        Body::Store { .. } => Kind::Store,
        Body::Atomic { .. } => Kind::Atomic,
        Body::Drain { .. } => Kind::Drain,
        Body::Refill { .. } => Kind::Refill,
        Body::Beat => Kind::Beat,
    }
}
