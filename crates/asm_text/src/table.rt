//! The table of mnemonics.

ghost use Rattle.std.specs.Prelude.{◌≡◌};
ghost use Rattle.asm_text.specs.Names.{no_operation, return_to_ra, full_fence, branch_named, load_named, store_named, immediate_named, shift_named, operation_named, mul_div_named, alone_named, plain_named, short_named, directive_named, mnemonic_named};

use crate::mnemonic::{Mnemonic, Section, Width};
use rv_decode::{
    Bits, BranchOp, ImmediateOp, Instr, LoadOp, MulDivOp, RegisterOp, ShiftOp, StoreOp,
};

#[tactic(auto, unfolding(crate::specs::Names::branch_named))]
fn branch_named(name: &[u8]) -> Option<BranchOp>
    ensures { result ≡ branch_named name.now }
{
    match name {
        b"beq" => Some(BranchOp::Beq),
        b"bne" => Some(BranchOp::Bne),
        b"blt" => Some(BranchOp::Blt),
        b"bge" => Some(BranchOp::Bge),
        b"bltu" => Some(BranchOp::Bltu),
        b"bgeu" => Some(BranchOp::Bgeu),
        _ => None,
    }
}

#[tactic(auto, unfolding(crate::specs::Names::load_named))]
fn load_named(name: &[u8]) -> Option<LoadOp>
    ensures { result ≡ load_named name.now }
{
    match name {
        b"lb" => Some(LoadOp::Lb),
        b"lh" => Some(LoadOp::Lh),
        b"lw" => Some(LoadOp::Lw),
        b"lbu" => Some(LoadOp::Lbu),
        b"lhu" => Some(LoadOp::Lhu),
        _ => None,
    }
}

#[tactic(auto, unfolding(crate::specs::Names::store_named))]
fn store_named(name: &[u8]) -> Option<StoreOp>
    ensures { result ≡ store_named name.now }
{
    match name {
        b"sb" => Some(StoreOp::Sb),
        b"sh" => Some(StoreOp::Sh),
        b"sw" => Some(StoreOp::Sw),
        _ => None,
    }
}

#[tactic(auto, unfolding(crate::specs::Names::immediate_named))]
fn immediate_named(name: &[u8]) -> Option<ImmediateOp>
    ensures { result ≡ immediate_named name.now }
{
    match name {
        b"addi" => Some(ImmediateOp::Addi),
        b"slti" => Some(ImmediateOp::Slti),
        b"sltiu" => Some(ImmediateOp::Sltiu),
        b"xori" => Some(ImmediateOp::Xori),
        b"ori" => Some(ImmediateOp::Ori),
        b"andi" => Some(ImmediateOp::Andi),
        _ => None,
    }
}

#[tactic(auto, unfolding(crate::specs::Names::shift_named))]
fn shift_named(name: &[u8]) -> Option<ShiftOp>
    ensures { result ≡ shift_named name.now }
{
    match name {
        b"slli" => Some(ShiftOp::Slli),
        b"srli" => Some(ShiftOp::Srli),
        b"srai" => Some(ShiftOp::Srai),
        _ => None,
    }
}

#[tactic(auto, unfolding(crate::specs::Names::operation_named))]
fn operation_named(name: &[u8]) -> Option<RegisterOp>
    ensures { result ≡ operation_named name.now }
{
    match name {
        b"add" => Some(RegisterOp::Add),
        b"sub" => Some(RegisterOp::Sub),
        b"sll" => Some(RegisterOp::Sll),
        b"slt" => Some(RegisterOp::Slt),
        b"sltu" => Some(RegisterOp::Sltu),
        b"xor" => Some(RegisterOp::Xor),
        b"srl" => Some(RegisterOp::Srl),
        b"sra" => Some(RegisterOp::Sra),
        b"or" => Some(RegisterOp::Or),
        b"and" => Some(RegisterOp::And),
        _ => None,
    }
}

#[tactic(auto, unfolding(crate::specs::Names::mul_div_named))]
fn mul_div_named(name: &[u8]) -> Option<MulDivOp>
    ensures { result ≡ mul_div_named name.now }
{
    if name == b"mul".as_slice() {
        Some(MulDivOp::Mul)
    } else if name == b"mulh".as_slice() {
        Some(MulDivOp::Mulh)
    } else if name == b"mulhsu".as_slice() {
        Some(MulDivOp::Mulhsu)
    } else if name == b"mulhu".as_slice() {
        Some(MulDivOp::Mulhu)
    } else if name == b"div".as_slice() {
        Some(MulDivOp::Div)
    } else if name == b"divu".as_slice() {
        Some(MulDivOp::Divu)
    } else if name == b"rem".as_slice() {
        Some(MulDivOp::Rem)
    } else if name == b"remu".as_slice() {
        Some(MulDivOp::Remu)
    } else {
        None
    }
}

/// addi zero, zero, 0.
fn no_operation() -> Instr
    ensures { result ≡ no_operation }
{
    Instr::OpImm {
        op: ImmediateOp::Addi,
        rd: Bits::low(0),
        rs1: Bits::low(0),
        imm: Bits::low(0),
    }
}

/// jalr zero, 0(ra).
fn return_to_ra() -> Instr
    ensures { result ≡ return_to_ra }
{
    Instr::Jalr {
        rd: Bits::low(0),
        rs1: Bits::low(1),
        offset: Bits::low(0),
    }
}

/// The word 0x0FF0000F.
fn full_fence() -> Instr
    ensures { result ≡ full_fence }
{
    Instr::Fence {
        high: Bits::low(0x1fe0),
        rd: Bits::low(0),
    }
}

/// Instructions without operands, and short forms of some.
#[tactic(auto, unfolding(crate::specs::Names::alone_named))]
fn alone_named(name: &[u8]) -> Option<Instr>
    ensures { result ≡ alone_named name.now }
{
    if name == b"fence".as_slice() {
        Some(full_fence())
    } else if name == b"ecall".as_slice() {
        Some(Instr::Ecall)
    } else if name == b"ebreak".as_slice() {
        Some(Instr::Ebreak)
    } else if name == b"nop".as_slice() {
        Some(no_operation())
    } else if name == b"ret".as_slice() {
        Some(return_to_ra())
    } else {
        None
    }
}

#[tactic(auto, unfolding(crate::specs::Names::plain_named))]
fn plain_named(name: &[u8]) -> Option<Mnemonic>
    ensures { result ≡ plain_named name.now }
{
    match name {
        b"lui" => Some(Mnemonic::Lui),
        b"auipc" => Some(Mnemonic::Auipc),
        b"jal" => Some(Mnemonic::Jal),
        b"jalr" => Some(Mnemonic::Jalr),
        _ => None,
    }
}

#[tactic(auto, unfolding(crate::specs::Names::short_named))]
fn short_named(name: &[u8]) -> Option<Mnemonic>
    ensures { result ≡ short_named name.now }
{
    match name {
        b"mv" => Some(Mnemonic::Move),
        b"j" => Some(Mnemonic::JumpTo(Bits::low(0))),
        b"call" => Some(Mnemonic::JumpTo(Bits::low(1))),
        b"beqz" => Some(Mnemonic::BranchZero(BranchOp::Beq)),
        b"bnez" => Some(Mnemonic::BranchZero(BranchOp::Bne)),
        b"li" => Some(Mnemonic::LoadImmediate),
        b"la" => Some(Mnemonic::LoadAddress),
        _ => None,
    }
}

#[tactic(auto, unfolding(crate::specs::Names::directive_named))]
fn directive_named(name: &[u8]) -> Option<Mnemonic>
    ensures { result ≡ directive_named name.now }
{
    if name == b".text".as_slice() {
        Some(Mnemonic::Enter(Section::Text))
    } else if name == b".data".as_slice() {
        Some(Mnemonic::Enter(Section::Data))
    } else if name == b".word".as_slice() {
        Some(Mnemonic::Values(Width::Word))
    } else if name == b".half".as_slice() {
        Some(Mnemonic::Values(Width::Half))
    } else if name == b".byte".as_slice() {
        Some(Mnemonic::Values(Width::Byte))
    } else if name == b".space".as_slice() {
        Some(Mnemonic::Space)
    } else if name == b".balign".as_slice() {
        Some(Mnemonic::Align)
    } else if name == b".globl".as_slice() {
        Some(Mnemonic::Global)
    } else {
        None
    }
}

/// What a name at the front of a statement stands for.
#[tactic(auto, unfolding(crate::specs::Names::mnemonic_named))]
pub fn mnemonic_named(name: &[u8]) -> Option<Mnemonic>
    ensures { result ≡ mnemonic_named name.now }
{
    if let Some(op) = operation_named(name) {
        Some(Mnemonic::Operation(op))
    } else if let Some(op) = immediate_named(name) {
        Some(Mnemonic::Immediate(op))
    } else if let Some(op) = load_named(name) {
        Some(Mnemonic::Load(op))
    } else if let Some(op) = store_named(name) {
        Some(Mnemonic::Store(op))
    } else if let Some(op) = branch_named(name) {
        Some(Mnemonic::Branch(op))
    } else if let Some(short) = short_named(name) {
        Some(short)
    } else if let Some(op) = shift_named(name) {
        Some(Mnemonic::Shift(op))
    } else if let Some(op) = mul_div_named(name) {
        Some(Mnemonic::MulDiv(op))
    } else if let Some(instr) = alone_named(name) {
        Some(Mnemonic::Alone(instr))
    } else if let Some(plain) = plain_named(name) {
        Some(plain)
    } else {
        directive_named(name)
    }
}
