//! The classes of micro-ops, and their codes.
#![tactic(auto)]

ghost use Rattle.std.specs.Prelude.{◌≡◌, ◌<◌};
ghost use Rattle.swi_micro.specs.Classes.{bit, class_of, code_of};

/// What a micro-op does with rs1 and `b`, which is the sum of rs2 and the immediate: of these two one is 0.
#[derive(Clone, Copy, PartialEq, Eq, Debug)]
pub enum Class {
    /// rs1 + b: ADD, ADDI, AUIPC and FENCE.
    Add,
    Sub,
    And,
    Or,
    Xor,
    Sll,
    Srl,
    Sra,
    Slt,
    Sltu,
    Mul,
    /// An operation of the M extension but MUL; the immediate is its funct3.
    MulDiv,
    /// The immediate: LUI.
    Lui,
    Lw,
    Lbu,
    Lhu,
    Lh,
    Lb,
    Sw,
    Sb,
    Sh,
    /// BEQ and BNE.
    Equal,
    /// BLT and BGE.
    Less,
    /// BLTU and BGEU.
    Below,
    Jal,
    Jalr,
    /// Nothing: the word is left to who executes instructions.
    Stop,
}

/// The code of a class. The codes are a prefix code, read from the lowest bit on, by Huffman's method over the counts
/// of steps of 21 programs: so the classes that programs execute most are told by the fewest tests.
pub fn code(class: Class) -> u8
    ensures { result ≡ code_of class }
{
    match class {
        Class::Add => 0b00,
        Class::Sub => 0b10_1001,
        Class::And => 0b10_1010,
        Class::Or => 0b01_1001,
        Class::Xor => 0b00_1010,
        Class::Sll => 0b1_1111,
        Class::Srl => 0b1_1010,
        Class::Sra => 0b001_1101,
        Class::Slt => 0b10_0111,
        Class::Sltu => 0b100_1001,
        Class::Mul => 0b0_0010,
        Class::MulDiv => 0b100_0111,
        Class::Lui => 0b0_1111,
        Class::Lw => 0b011,
        Class::Lbu => 0b0101,
        Class::Lhu => 0b01_0111,
        Class::Lh => 0b101_1101,
        Class::Lb => 0b000_1001,
        Class::Sw => 0b0001,
        Class::Sb => 0b1_0010,
        Class::Sh => 0b111_0111,
        Class::Equal => 0b110,
        Class::Less => 0b11_1101,
        Class::Below => 0b11_1001,
        Class::Jal => 0b0_1101,
        Class::Jalr => 0b000_0111,
        Class::Stop => 0b011_0111,
    }
}

/// Whether the bit of a code with this number is set, counted from the lowest on from 0.
#[inline(always)]
fn has_bit(code: u8, n: u32) -> bool
    requires { n < 8 }
    ensures { result ≡ bit n code }
{
    code >> n & 1 == 1
}

/// The class of a code.
// Tests of bits, in a nest: a `match` on the code would be made a jump through a table, which on many machines costs more
// than they do. Who matches on the class is compiled to the tests alone.
#[inline(always)]
pub fn class_of_code(code: u8) -> Class
    ensures { result ≡ class_of code }
{
    macro_rules! fork {
        ($bit:literal, $clear:expr, $set:expr) => {
            if has_bit(code, $bit) { $set } else { $clear }
        };
    }
    use Class::*;
    fork!(
        0,
        fork!(
            1,
            Add,
            fork!(
                2,
                fork!(3, fork!(4, Mul, Sb), fork!(4, fork!(5, Xor, And), Srl)),
                Equal
            )
        ),
        fork!(
            1,
            fork!(
                2,
                fork!(
                    3,
                    Sw,
                    fork!(4, fork!(5, fork!(6, Lb, Sltu), Sub), fork!(5, Or, Below))
                ),
                fork!(3, Lbu, fork!(4, Jal, fork!(5, fork!(6, Sra, Lh), Less)))
            ),
            fork!(
                2,
                Lw,
                fork!(
                    3,
                    fork!(
                        4,
                        fork!(5, fork!(6, Jalr, MulDiv), Slt),
                        fork!(5, Lhu, fork!(6, Stop, Sh))
                    ),
                    fork!(4, Lui, Sll)
                )
            )
        )
    )
}
