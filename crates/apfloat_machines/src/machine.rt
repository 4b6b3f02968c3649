//! Machines, as records of their choices.

ghost use Rattle.std.specs.Prelude.{◌≡◌, true, [], ◌∷◌};
ghost use Rattle.std.specs.{List.list_all, Result.is_ok};
ghost use Rattle.apfloat_machines.specs.Machines.{checked, machines};

use crate::flushing::Flush;

/// A machine: what an instruction set does where IEEE 754 leaves a choice, or where it is not followed. The constants
/// are the machines of `docs/MACHINES.md`; any other is composed, as `Machine { has_unsigned: false, ..Machine::X86 }`,
/// and all that is proved of a machine holds for it too; `checked` refuses one that contradicts itself.
#[derive(Clone, Copy, PartialEq, Eq, Debug)]
pub struct Machine {
    /// Which operand is the result if operands are NaNs.
    pub nan_choice: NanChoice,
    /// Whether the NaN of an invalid operation, the default NaN, is negative.
    pub default_is_negative: bool,
    /// The payload of the default NaN, of which a format keeps what it has room for.
    pub default_payload: u128,
    /// Whether the machine has fused sums.
    pub has_fused: bool,
    /// The order in which the operands of a fused sum are looked at for a NaN.
    pub fused_order: FusedOrder,
    /// Whether an infinity times a zero, plus a quiet NaN, is the default NaN.
    pub drops_quiet_addend: bool,
    /// Whether an infinity times a zero, plus a signaling NaN, is the default NaN.
    pub drops_signaling_addend: bool,
    /// Whether an infinity times a zero, plus a quiet NaN, raises INVALID_OP.
    pub flags_quiet_addend: bool,
    /// Whether the machine has conversions to unsigned integers.
    pub has_unsigned: bool,
    /// The signed integer that a NaN gives.
    pub signed_of_nan: WholeOfNan,
    /// The unsigned integer that a NaN gives.
    pub unsigned_of_nan: WholeOfNan,
    /// Whether what is out of range gives the integer that a NaN gives, instead of the nearer end of the range.
    pub has_one_invalid_integer: bool,
    /// Whether what is out of range raises INEXACT beside INVALID_OP.
    pub invalid_integer_is_inexact: bool,
    /// Whether a result is tiny by its exact magnitude: then the format is `IeeeFlags<TinyBefore<S>>`. Otherwise it is
    /// tiny as rounded with an unbounded exponent, and the format is `IeeeFlags<S>`.
    pub tiny_before_rounding: bool,
    /// The flags of results that are flushed to zero, for `flushed`; none if the machine cannot flush them.
    pub flush: Option<Flush>,
}

/// Which operand is the result if operands are NaNs. Each is quieted.
#[derive(Clone, Copy, PartialEq, Eq, Debug)]
pub enum NanChoice {
    /// The first NaN.
    First,
    /// The first signaling NaN, or else the first NaN.
    SignalingFirst,
    /// The last signaling NaN, or else the last NaN.
    SignalingLast,
    /// A quiet NaN before a signaling one, then the one with the greater significand, then the positive one; and the
    /// default if the integer bit of one is not set.
    Greater,
    /// None: the default.
    AlwaysDefault,
}

/// Two choices of a machine of which one says what the other excludes.
#[derive(Clone, Copy, PartialEq, Eq, Debug)]
pub enum Contradiction {
    /// Every NaN is the default, but not that of an infinity times a zero, plus a quiet NaN.
    QuietAddendKept,
    /// Every NaN is the default, but not that of an infinity times a zero, plus a signaling NaN.
    SignalingAddendKept,
}

/// The order in which the operands of a fused sum are looked at for a NaN.
#[derive(Clone, Copy, PartialEq, Eq, Debug)]
pub enum FusedOrder {
    /// The two factors, and the addend.
    FactorsFirst,
    /// The addend, and the two factors.
    AddendFirst,
    /// The first factor, the addend, and the second factor.
    AddendSecond,
}

/// The integer that a NaN gives.
#[derive(Clone, Copy, PartialEq, Eq, Debug)]
pub enum WholeOfNan {
    /// 0.
    Zero,
    /// The least of the range.
    Least,
    /// The greatest of the range.
    Greatest,
    /// The least of the range if the NaN is negative, and otherwise the greatest.
    BySign,
}

impl Machine {
    /// SSE, AVX and AVX-512.
    pub const X86: Machine = Machine {
        nan_choice: NanChoice::First,
        default_is_negative: true,
        default_payload: 0,
        has_fused: true,
        fused_order: FusedOrder::FactorsFirst,
        drops_quiet_addend: false,
        drops_signaling_addend: false,
        flags_quiet_addend: false,
        has_unsigned: true,
        signed_of_nan: WholeOfNan::Least,
        unsigned_of_nan: WholeOfNan::Greatest,
        has_one_invalid_integer: true,
        invalid_integer_is_inexact: false,
        tiny_before_rounding: false,
        flush: Some(Flush::X86),
    };

    /// The x87 unit, whose registers have the format `x87`.
    pub const X87: Machine = Machine {
        nan_choice: NanChoice::Greater,
        has_fused: false,
        has_unsigned: false,
        flush: None,
        ..Machine::X86
    };

    /// AArch64 with FPCR.DN and FPCR.AH clear.
    pub const ARM: Machine = Machine {
        nan_choice: NanChoice::SignalingFirst,
        default_is_negative: false,
        default_payload: 0,
        has_fused: true,
        fused_order: FusedOrder::AddendFirst,
        drops_quiet_addend: true,
        drops_signaling_addend: false,
        flags_quiet_addend: true,
        has_unsigned: true,
        signed_of_nan: WholeOfNan::Zero,
        unsigned_of_nan: WholeOfNan::Zero,
        has_one_invalid_integer: false,
        invalid_integer_is_inexact: false,
        tiny_before_rounding: true,
        flush: Some(Flush::Arm),
    };

    /// AArch64 with FPCR.DN set and FPCR.AH clear.
    pub const ARM_DEFAULT_NAN: Machine = Machine {
        nan_choice: NanChoice::AlwaysDefault,
        drops_signaling_addend: true,
        ..Machine::ARM
    };

    /// AArch64 with FPCR.AH set and FPCR.DN clear.
    pub const ARM_ALTERNATE: Machine = Machine {
        nan_choice: NanChoice::First,
        default_is_negative: true,
        fused_order: FusedOrder::FactorsFirst,
        drops_quiet_addend: false,
        flags_quiet_addend: false,
        tiny_before_rounding: false,
        flush: Some(Flush::X86),
        ..Machine::ARM
    };

    /// AArch64 with FPCR.AH and FPCR.DN set.
    pub const ARM_ALTERNATE_DEFAULT_NAN: Machine = Machine {
        nan_choice: NanChoice::AlwaysDefault,
        drops_quiet_addend: true,
        drops_signaling_addend: true,
        ..Machine::ARM_ALTERNATE
    };

    /// RISC-V: F, D, Q and Zfh.
    pub const RISC_V: Machine = Machine {
        fused_order: FusedOrder::FactorsFirst,
        signed_of_nan: WholeOfNan::Greatest,
        unsigned_of_nan: WholeOfNan::Greatest,
        tiny_before_rounding: false,
        flush: None,
        ..Machine::ARM_DEFAULT_NAN
    };

    /// POWER: VSX, and the floating-point instructions.
    pub const POWER: Machine = Machine {
        nan_choice: NanChoice::First,
        fused_order: FusedOrder::AddendSecond,
        drops_quiet_addend: false,
        signed_of_nan: WholeOfNan::Least,
        flush: None,
        ..Machine::ARM
    };

    /// z/Architecture: binary floating point, and the vector facility.
    pub const S390X: Machine = Machine {
        fused_order: FusedOrder::FactorsFirst,
        drops_signaling_addend: true,
        signed_of_nan: WholeOfNan::Least,
        invalid_integer_is_inexact: true,
        flush: None,
        ..Machine::ARM
    };

    /// WebAssembly with canonical NaNs (its deterministic profile). It has no flags.
    pub const WEBASSEMBLY: Machine = Machine {
        signed_of_nan: WholeOfNan::Zero,
        unsigned_of_nan: WholeOfNan::Zero,
        ..Machine::RISC_V
    };

    /// PTX in single, half and bfloat. It has no flags.
    pub const PTX: Machine = Machine {
        default_payload: u128::MAX,
        flush: Some(Flush::X86),
        ..Machine::WEBASSEMBLY
    };

    /// MIPS with FCSR.NAN2008 set, as from Release 6 on.
    pub const MIPS_2008: Machine = Machine {
        drops_quiet_addend: false,
        has_unsigned: false,
        tiny_before_rounding: false,
        flush: None,
        ..Machine::ARM
    };

    /// LoongArch, with LSX and LASX.
    pub const LOONGARCH: Machine = Machine {
        has_unsigned: true,
        ..Machine::MIPS_2008
    };

    /// SPARC V9, with fused sums.
    pub const SPARC: Machine = Machine {
        nan_choice: NanChoice::SignalingLast,
        default_payload: u128::MAX,
        fused_order: FusedOrder::FactorsFirst,
        drops_quiet_addend: false,
        has_unsigned: false,
        signed_of_nan: WholeOfNan::BySign,
        unsigned_of_nan: WholeOfNan::BySign,
        flush: None,
        ..Machine::ARM
    };

    /// The 68881 and its successors, whose registers have the format `x87`.
    pub const M68K: Machine = Machine {
        nan_choice: NanChoice::First,
        has_fused: false,
        ..Machine::SPARC
    };

    /// The machine, if no choice contradicts another: one whose result is always the default NaN keeps no NaN that is
    /// added to an infinity times a zero.
    ///
    /// # Errors
    ///
    /// The first contradiction, in the order of the fields.
    pub fn checked(self) -> Result<Machine, Contradiction>
        ensures { result ≡ checked self }
    {
        match self.nan_choice {
            NanChoice::AlwaysDefault => {
                if !self.drops_quiet_addend {
                    Err(Contradiction::QuietAddendKept)
                } else if !self.drops_signaling_addend {
                    Err(Contradiction::SignalingAddendKept)
                } else {
                    Ok(self)
                }
            }
            _ => Ok(self),
        }
    }
}

/// The constants are the records of the tables, and none contradicts itself.
pub fn machines_are_those_of_the_tables()
    ensures tables { Machine.X86 ∷ Machine.X87 ∷ Machine.ARM ∷ Machine.ARM_DEFAULT_NAN
        ∷ Machine.ARM_ALTERNATE ∷ Machine.ARM_ALTERNATE_DEFAULT_NAN ∷ Machine.RISC_V
        ∷ Machine.POWER ∷ Machine.S390X ∷ Machine.WEBASSEMBLY ∷ Machine.PTX
        ∷ Machine.MIPS_2008 ∷ Machine.LOONGARCH ∷ Machine.SPARC ∷ Machine.M68K ∷ []
        ≡ machines }
    ensures consistent { list_all (λ machine. is_ok (checked machine)) machines ≡ true }
{}
