//! What compiled code uses the registers for.

ghost use Rattle.std.specs.Prelude.{◌≡◌};
ghost use Rattle.tracer_compile.specs.Roles.{number_of};

use sl_model::{Bits, Register};

/// What a register is used for.
#[derive(Clone, Copy, Debug, PartialEq, Eq)]
pub enum Role {
    /// x0, which is always 0.
    Zero,
    /// x1: where a body returns to.
    Link,
    /// x2: the address behind the topmost temporary. Temporaries grow upwards.
    Top,
    /// x5, for use within a block.
    First,
    /// x6, for use within a block.
    Second,
    /// x7, for use within a block.
    Third,
    /// x8: the address of the body's first local.
    Frame,
    /// x9: how many units of the budget are left.
    Units,
    /// x10: the value of an expression; at the end the number of the outcome.
    Value,
    /// x11: the address of an access; at the end the value of the outcome.
    Detail,
    /// x18: how many further calls may be open.
    Calls,
    /// x19: the break of this call of the tracer.
    Break,
    /// x28, for use within a block.
    Fourth,
    /// x29, for use within a block.
    Fifth,
    /// x30, for use within a block.
    Sixth,
}

/// The register of a role.
pub fn register(role: Role) -> Register
    ensures { result ≡ number_of role }
{
    let number = match role {
        Role::Zero => 0,
        Role::Link => 1,
        Role::Top => 2,
        Role::First => 5,
        Role::Second => 6,
        Role::Third => 7,
        Role::Frame => 8,
        Role::Units => 9,
        Role::Value => 10,
        Role::Detail => 11,
        Role::Calls => 18,
        Role::Break => 19,
        Role::Fourth => 28,
        Role::Fifth => 29,
        Role::Sixth => 30,
    };
    Bits::low(number)
}
