//! What the operations of RV32IM give, on registers of 32 bits.

ghost use Rattle.std.specs.Prelude.{◌≡◌, ◌<◌, ◌^◌, ◌*ℤ◌, FitsSigned};
ghost use Rattle.std.specs.Int.{w64};
ghost use Rattle.sl_model.specs.Arithmetic as value;

use sl_model::{Bits, BranchOp, ImmediateOp, LoadOp, MulDivOp, RegisterOp, ShiftOp, StoreOp};

/// The word that imm[11:0] stands for.
#[inline(always)]
pub fn immediate_word(imm: Bits<12>) -> u32
    ensures { result ≡ value.immediate_word imm }
{
    sign_extend(12, imm.value())
}

/// The word that imm[31:12] stands for.
#[inline(always)]
pub fn upper_word(imm: Bits<20>) -> u32
    ensures { result ≡ value.upper_word imm }
{
    imm.value() << 12
}

/// The word that imm[12:1] stands for, which is half an offset.
#[inline(always)]
pub fn branch_word(half_offset: Bits<12>) -> u32
    ensures { result ≡ value.branch_word half_offset }
{
    sign_extend(13, 2 * half_offset.value())
}

/// The word that imm[20:1] stands for, which is half an offset.
#[inline(always)]
pub fn jump_word(half_offset: Bits<20>) -> u32
    ensures { result ≡ value.jump_word half_offset }
{
    sign_extend(21, 2 * half_offset.value())
}

/// A number of some bits, of which the highest is its sign, as a word.
#[inline(always)]
fn sign_extend(width: u32, n: u32) -> u32
    requires some_bits { 0 < width }
    requires width { width < 32 }
    requires fits { n < 2 ^ width }
    ensures { result ≡ value.sign_extend width n }
{
    let sign = 1 << (width - 1);
    if n < sign {
        n
    } else {
        n.wrapping_sub(2 * sign)
    }
}

/// Whether a branch is taken.
#[inline(always)]
pub fn is_taken(op: BranchOp, a: u32, b: u32) -> bool
    ensures { result ≡ value.is_taken op a b }
{
    match op {
        BranchOp::Beq => a == b,
        BranchOp::Bne => a != b,
        BranchOp::Blt => a.cast_signed() < b.cast_signed(),
        BranchOp::Bge => a.cast_signed() >= b.cast_signed(),
        BranchOp::Bltu => a < b,
        BranchOp::Bgeu => a >= b,
    }
}

/// The value of an operation of a register and an immediate.
#[inline(always)]
pub fn immediate_value(op: ImmediateOp, a: u32, imm: u32) -> u32
    ensures { result ≡ value.immediate_value op a imm }
{
    match op {
        ImmediateOp::Addi => a.wrapping_add(imm),
        ImmediateOp::Slti => u32::from(a.cast_signed() < imm.cast_signed()),
        ImmediateOp::Sltiu => u32::from(a < imm),
        ImmediateOp::Xori => a ^ imm,
        ImmediateOp::Ori => a | imm,
        ImmediateOp::Andi => a & imm,
    }
}

/// The value of a shift by a number below 32.
#[inline(always)]
pub fn shift_value(op: ShiftOp, a: u32, amount: u32) -> u32
    requires { amount < 32 }
    ensures { result ≡ value.shift_value op a amount }
{
    match op {
        ShiftOp::Slli => a << amount,
        ShiftOp::Srli => a >> amount,
        ShiftOp::Srai => (a.cast_signed() >> amount).cast_unsigned(),
    }
}

/// The value of an operation of two registers.
#[inline(always)]
pub fn register_value(op: RegisterOp, a: u32, b: u32) -> u32
    ensures { result ≡ value.register_value op a b }
{
    match op {
        RegisterOp::Add => a.wrapping_add(b),
        RegisterOp::Sub => a.wrapping_sub(b),
        RegisterOp::Sll => a << (b % 32),
        RegisterOp::Slt => u32::from(a.cast_signed() < b.cast_signed()),
        RegisterOp::Sltu => u32::from(a < b),
        RegisterOp::Xor => a ^ b,
        RegisterOp::Srl => a >> (b % 32),
        RegisterOp::Sra => (a.cast_signed() >> (b % 32)).cast_unsigned(),
        RegisterOp::Or => a | b,
        RegisterOp::And => a & b,
    }
}

/// The value of an operation of the "M" extension.
#[inline(never)]
pub fn mul_div_value(op: MulDivOp, a: u32, b: u32) -> u32
    ensures { result ≡ value.mul_div_value op a b }
{
    match op {
        MulDivOp::Mul => a.wrapping_mul(b),
        MulDivOp::Mulh => multiply_high(i64::from(a.cast_signed()), i64::from(b.cast_signed())),
        MulDivOp::Mulhsu => multiply_high(i64::from(a.cast_signed()), i64::from(b)),
        MulDivOp::Mulhu => (u64::from(a) * u64::from(b) >> 32) as u32,
        MulDivOp::Div => if b == 0 {
            u32::MAX
        } else {
            a.cast_signed()
                .wrapping_div(b.cast_signed())
                .cast_unsigned()
        },
        MulDivOp::Divu => if b == 0 { u32::MAX } else { a / b },
        MulDivOp::Rem => if b == 0 {
            a
        } else {
            a.cast_signed()
                .wrapping_rem(b.cast_signed())
                .cast_unsigned()
        },
        MulDivOp::Remu => if b == 0 { a } else { a % b },
    }
}

/// The upper 32 bits of a product of 64 bits.
fn multiply_high(a: i64, b: i64) -> u32
    requires { FitsSigned w64 (a *ℤ b) }
    ensures { result ≡ value.upper_half (a *ℤ b) }
{
    ((a * b).cast_unsigned() >> 32) as u32
}

/// What a load puts into its register, of the number in memory.
#[inline(always)]
pub fn load_value(op: LoadOp, n: u32) -> u32
    requires { n < 256 ^ value.load_width op }
    ensures { result ≡ value.load_value op n }
{
    match op {
        LoadOp::Lb => sign_extend(8, n),
        LoadOp::Lh => sign_extend(16, n),
        LoadOp::Lw | LoadOp::Lbu | LoadOp::Lhu => n,
    }
}

/// How many bytes a load takes.
#[inline(always)]
pub fn load_width(op: LoadOp) -> u8
    ensures { result ≡ value.load_width op }
{
    match op {
        LoadOp::Lb | LoadOp::Lbu => 1,
        LoadOp::Lh | LoadOp::Lhu => 2,
        LoadOp::Lw => 4,
    }
}

/// How many bytes a store takes.
#[inline(always)]
pub fn store_width(op: StoreOp) -> u8
    ensures { result ≡ value.store_width op }
{
    match op {
        StoreOp::Sb => 1,
        StoreOp::Sh => 2,
        StoreOp::Sw => 4,
    }
}
