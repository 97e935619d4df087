ghost use Rattle.std.specs.Prelude.{◌≡◌, ◌<◌, IfSome, Some, slice_get};
ghost use Rattle.armcaps_enc.specs.Registers.{is_id_register, name_of, number_of, place_of, register_named, register_numbered, registers, short_name_of};

use crate::encoding::encode;

// The registers in order, one line each: the variant, its op0, op1, CRn, CRm and op2, and its name. `$write` gets the
// lines of the registers that are not tracked and then those of the tracked ones.
macro_rules! registers {
    ($write:ident $($with:tt)*) => {
        $write! { $($with)*
            {
                MidrEl1(3, 0, 0, 0, 0) "midr_el1",
                MpidrEl1(3, 0, 0, 0, 5) "mpidr_el1",
                RevidrEl1(3, 0, 0, 0, 6) "revidr_el1",
            } {
                IdAa64Pfr0El1(3, 0, 0, 4, 0) "id_aa64pfr0_el1",
                IdAa64Pfr1El1(3, 0, 0, 4, 1) "id_aa64pfr1_el1",
                IdAa64Zfr0El1(3, 0, 0, 4, 4) "id_aa64zfr0_el1",
                IdAa64Smfr0El1(3, 0, 0, 4, 5) "id_aa64smfr0_el1",
                IdAa64Dfr0El1(3, 0, 0, 5, 0) "id_aa64dfr0_el1",
                IdAa64Isar0El1(3, 0, 0, 6, 0) "id_aa64isar0_el1",
                IdAa64Isar1El1(3, 0, 0, 6, 1) "id_aa64isar1_el1",
                IdAa64Isar2El1(3, 0, 0, 6, 2) "id_aa64isar2_el1",
                IdAa64Mmfr0El1(3, 0, 0, 7, 0) "id_aa64mmfr0_el1",
                IdAa64Mmfr1El1(3, 0, 0, 7, 1) "id_aa64mmfr1_el1",
                IdAa64Mmfr2El1(3, 0, 0, 7, 2) "id_aa64mmfr2_el1",
                IdAa64Mmfr3El1(3, 0, 0, 7, 3) "id_aa64mmfr3_el1",
                CtrEl0(3, 3, 0, 0, 1) "ctr_el0",
                DczidEl0(3, 3, 0, 0, 7) "dczid_el0",
            }
        }
    };
}

macro_rules! all_registers {
    ({ $($one:ident $code:tt $name:literal,)* } { $($tracked:ident $number:tt $text:literal,)* }) => {
        [$(SysReg::$one,)* $(SysReg::$tracked,)*]
    };
}

macro_rules! tracked_registers {
    ({ $($one:ident $code:tt $name:literal,)* } { $($tracked:ident $number:tt $text:literal,)* }) => {
        [$(SysReg::$tracked,)*]
    };
}

macro_rules! number_by_register {
    ($register:tt $({ $($one:ident($($part:literal),*) $name:literal,)* })*) => {
        match $register {
            $($(SysReg::$one => encode($($part),*),)*)*
        }
    };
}

macro_rules! name_by_register {
    ($register:tt $({ $($one:ident($($part:literal),*) $name:literal,)* })*) => {
        match $register {
            $($(SysReg::$one => $name,)*)*
        }
    };
}

/// A system register that describes a core (Arm ARM DDI 0487). The first three tell which core it is. Of the other
/// fourteen, the tracked ones, all cores together decide each field.
#[derive(Clone, Copy, Debug, PartialEq, Eq)]
pub enum SysReg {
    MidrEl1,
    MpidrEl1,
    RevidrEl1,
    IdAa64Pfr0El1,
    IdAa64Pfr1El1,
    IdAa64Zfr0El1,
    IdAa64Smfr0El1,
    IdAa64Dfr0El1,
    IdAa64Isar0El1,
    IdAa64Isar1El1,
    IdAa64Isar2El1,
    IdAa64Mmfr0El1,
    IdAa64Mmfr1El1,
    IdAa64Mmfr2El1,
    IdAa64Mmfr3El1,
    CtrEl0,
    DczidEl0,
}

impl SysReg {
    /// All registers in order.
    pub const ALL: [SysReg; 17] = registers!(all_registers);

    /// The tracked registers in order.
    pub const TRACKED: [SysReg; 14] = registers!(tracked_registers);

    /// The register's place in the order, from 0.
    pub fn place(self) -> usize
        ensures value { result ≡ place_of self }
        ensures own { slice_get registers result ≡ Some self }
    {
        self as usize
    }

    /// The register's number, which no other register has, as an instruction that reads it has it from bit 5 on.
    #[tactic(auto, unfolding(crate::specs::Registers::number_of, crate::specs::Registers::register_numbered))]
    pub fn number(self) -> u32
        ensures value { result ≡ number_of self }
        ensures own { register_numbered result ≡ Some self }
    {
        registers!(number_by_register self)
    }

    /// The register with this number; `None` where no register has it.
    #[tactic(auto, unfolding(crate::specs::Registers::register_numbered))]
    pub fn of_number(number: u32) -> Option<SysReg>
        ensures value { result ≡ register_numbered number }
        ensures found { IfSome result (λ register. number_of register ≡ number) }
    {
        SysReg::ALL
            .iter()
            .copied()
            .find(|register| register.number() == number)
    }

    /// The register's name in lower case, which no other register has, as `id_aa64pfr0_el1`.
    #[tactic(auto, unfolding(crate::specs::Registers::register_named))]
    pub fn name(self) -> &'static str
        ensures value { result.now ≡ name_of self }
        ensures own { register_named result.now ≡ Some self }
    {
        registers!(name_by_register self)
    }

    /// The register's name without its exception level, as `id_aa64pfr0` and `ctr`.
    pub fn short_name(self) -> &'static str
        ensures { result.now ≡ short_name_of self }
    {
        let name = self.name();
        &name[..name.len() - "_el1".len()]
    }

    /// Whether the register is one of those that the manual calls ID registers, whose names begin with `id_`.
    pub fn is_id_register(self) -> bool
        ensures { result ≡ is_id_register self }
    {
        self.name().as_bytes().starts_with(b"id_")
    }

    /// The register with this name; `None` where no register has it.
    #[tactic(auto, unfolding(crate::specs::Registers::register_named))]
    pub fn of_name(name: &[u8]) -> Option<SysReg>
        ensures value { result ≡ register_named name.now }
        ensures found { IfSome result (λ register. name_of register ≡ name.now) }
    {
        SysReg::ALL
            .iter()
            .copied()
            .find(|register| register.name().as_bytes() == name)
    }
}
