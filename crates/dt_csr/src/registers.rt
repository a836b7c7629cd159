ghost use Rattle.std.specs.Prelude.{◌≡◌};

/// The registers that can be named by a number.
#[derive(Clone, Copy, Debug, PartialEq, Eq)]
pub enum Register {
    Mstatus,
    Misa,
    Medeleg,
    Mideleg,
    Mie,
    Mtvec,
    Mcounteren,
    Mscratch,
    Mepc,
    Mcause,
    Mtval,
    Mip,
    Mcycle,
    Minstret,
    Mvendorid,
    Marchid,
    Mimpid,
    Mhartid,
    Mconfigptr,
    Sstatus,
    Sie,
    Stvec,
    Scounteren,
    Sscratch,
    Sepc,
    Scause,
    Stval,
    Sip,
    Satp,
    Cycle,
    Time,
    Instret,
}

impl Register {
    ghost use Rattle.dt_csr.specs.Registers.{register_at};

    /// The register with this number, if there is one.
    #[tactic(auto, unfolding(crate::specs::Registers::register_at))]
    pub fn with_number(number: u16) -> Option<Register>
        ensures { result ≡ register_at number }
    {
        Some(match number {
            0x300 => Register::Mstatus,
            0x301 => Register::Misa,
            0x302 => Register::Medeleg,
            0x303 => Register::Mideleg,
            0x304 => Register::Mie,
            0x305 => Register::Mtvec,
            0x306 => Register::Mcounteren,
            0x340 => Register::Mscratch,
            0x341 => Register::Mepc,
            0x342 => Register::Mcause,
            0x343 => Register::Mtval,
            0x344 => Register::Mip,
            0xB00 => Register::Mcycle,
            0xB02 => Register::Minstret,
            0xF11 => Register::Mvendorid,
            0xF12 => Register::Marchid,
            0xF13 => Register::Mimpid,
            0xF14 => Register::Mhartid,
            0xF15 => Register::Mconfigptr,
            0x100 => Register::Sstatus,
            0x104 => Register::Sie,
            0x105 => Register::Stvec,
            0x106 => Register::Scounteren,
            0x140 => Register::Sscratch,
            0x141 => Register::Sepc,
            0x142 => Register::Scause,
            0x143 => Register::Stval,
            0x144 => Register::Sip,
            0x180 => Register::Satp,
            0xC00 => Register::Cycle,
            0xC01 => Register::Time,
            0xC02 => Register::Instret,
            _ => return None,
        })
    }
}
