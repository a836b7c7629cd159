ghost use Rattle.std.specs.Prelude.{◌≡◌, ◌≤◌, length};
ghost use Rattle.dt_record.specs.declared.limits.TheConstants.{HART_LIMIT};
ghost use Rattle.dt_permissions.specs.Events.{ArePerms};

use crate::events::PermEvent;
use std::marker::Model;

/// How many events a permission file may have.
pub const EVENT_LIMIT: u32 = 4_194_304;

/// The number of harts and the events of a permission file, as `read_perms` gives them. A contract
/// sees both.
#[derive(Debug, Drop)]
pub struct Perms {
    harts: u8,
    events: Vec<PermEvent>,
}

impl Model for Perms {
    ghost use Rattle.dt_permissions.specs.Events.{PermsView, ArePerms};

    ghost Value = { PermsView };

    ghost view = { λ p. record { harts = p.harts; events = p.events.items } };

    ghost invariant = { λ p. ArePerms p.harts p.events.items };
}

impl Perms {
    /// The permissions of so many harts, with these events.
    pub(crate) fn of(harts: u8, events: Vec<PermEvent>) -> Perms
        requires { ArePerms harts events.items }
        ensures harts { result.harts ≡ harts }
        ensures events { result.events ≡ events.items }
    {
        Perms { harts, events }
    }

    pub fn harts(&self) -> u8
        ensures harts { result ≡ self.now.harts }
        ensures lawful { ArePerms self.now.harts self.now.events }
    {
        self.harts
    }

    /// The events, in the order of their cycles.
    pub fn events(&self) -> &[PermEvent]
        ensures events { result.now ≡ self.now.events }
        ensures lawful { ArePerms self.now.harts result.now }
    {
        self.events.as_slice()
    }
}
