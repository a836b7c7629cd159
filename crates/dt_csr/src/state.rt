ghost use Rattle.std.specs.Prelude.{◌≡◌};

use crate::mstatus;

/// The control and status registers that a hart keeps, and the floors of its counters.
#[derive(Clone, Copy, Debug, PartialEq, Eq)]
pub struct Csrs {
    pub mstatus: u64,
    pub medeleg: u64,
    pub mideleg: u64,
    pub mie: u64,
    pub mtvec: u64,
    pub mcounteren: u64,
    pub mscratch: u64,
    pub mepc: u64,
    pub mcause: u64,
    pub mtval: u64,
    pub stvec: u64,
    pub scounteren: u64,
    pub sscratch: u64,
    pub sepc: u64,
    pub scause: u64,
    pub stval: u64,
    pub satp: u64,
    /// The least value that mcycle and cycle may show next.
    pub cycle_floor: u64,
    /// The least value that minstret and instret may show next.
    pub instret_floor: u64,
    /// The least value that time may show next.
    pub time_floor: u64,
    /// Whether satp also keeps the MODE of Sv48.
    pub wide: bool,
}

impl Csrs {
    ghost use Rattle.dt_csr.specs.Registers.{reset_csrs};
    ghost use Rattle.dt_csr.specs.Access.{floor_of, with_floor};
    ghost use Rattle.dt_csr.specs.Kept.{AreKeptInBounds, values_of};

    /// The registers after a reset. They are not wide.
    pub fn reset() -> Csrs
        ensures value { result ≡ reset_csrs }
        ensures keeps { AreKeptInBounds result }
    {
        Csrs {
            mstatus: mstatus::RESET,
            medeleg: 0,
            mideleg: 0,
            mie: 0,
            mtvec: 0,
            mcounteren: 0,
            mscratch: 0,
            mepc: 0,
            mcause: 0,
            mtval: 0,
            stvec: 0,
            scounteren: 0,
            sscratch: 0,
            sepc: 0,
            scause: 0,
            stval: 0,
            satp: 0,
            cycle_floor: 0,
            instret_floor: 0,
            time_floor: 0,
            wide: false,
        }
    }

    /// The 17 registers that are kept, in the order of a record of them: mstatus, medeleg, mideleg, mie,
    /// mtvec, mcounteren, mscratch, mepc, mcause, mtval, stvec, scounteren, sscratch, sepc, scause,
    /// stval, satp.
    pub fn values(&self) -> [u64; 17]
        ensures { result ≡ values_of self.now }
    {
        [
            self.mstatus,
            self.medeleg,
            self.mideleg,
            self.mie,
            self.mtvec,
            self.mcounteren,
            self.mscratch,
            self.mepc,
            self.mcause,
            self.mtval,
            self.stvec,
            self.scounteren,
            self.sscratch,
            self.sepc,
            self.scause,
            self.stval,
            self.satp,
        ]
    }

    /// The floor of a counter: 0 is cycle, 1 is time, and any other number instret.
    pub fn floor(&self, counter: u8) -> u64
        ensures { result ≡ floor_of self.now counter }
    {
        match counter {
            0 => self.cycle_floor,
            1 => self.time_floor,
            _ => self.instret_floor,
        }
    }

    /// Sets the floor of a counter, by the same numbers.
    pub fn set_floor(&mut self, counter: u8, value: u64)
        ensures floor { self.new ≡ with_floor self.old counter value }
        ensures mpp { self.new.mstatus ≡ self.old.mstatus }
        ensures keeps { AreKeptInBounds self.old → AreKeptInBounds self.new }
    {
        match counter {
            0 => self.cycle_floor = value,
            1 => self.time_floor = value,
            _ => self.instret_floor = value,
        }
    }
}
