//! The operations on words that take more than one of Rust's.
#![tactic(auto)]

ghost use Rattle.std.specs.Prelude.{◌^◌, ◌≡◌};
ghost use Rattle.swi_exec.specs.Arithmetic.{word, floor_div, less_of, signed_right_shift_of, high_product_of, high_product_mixed_of, high_product_unsigned_of, quotient_of, quotient_unsigned_of, remainder_of, remainder_unsigned_of, least_of, greatest_of};

/// 1 where `a` is less than `b`, read as signed, and else 0.
#[inline(always)]
pub fn less(a: u32, b: u32) -> u32
    ensures { result ≡ less_of a b }
{
    u32::from(a.cast_signed() < b.cast_signed())
}

/// `a` shifted to the right by the lowest five bits of `b`, with its sign from above.
#[inline(always)]
pub fn signed_right_shift(a: u32, b: u32) -> u32
    ensures { result ≡ signed_right_shift_of a b }
{
    (a.cast_signed() >> (b & 31)).cast_unsigned()
}

#[inline(always)]
fn high_word(product: i64) -> u32
    ensures { result ≡ word (floor_div product (2 ^ 32)) }
{
    ((product >> 32) as i32).cast_unsigned()
}

/// The high word of the product of two signed numbers.
#[inline(always)]
pub fn high_product(a: u32, b: u32) -> u32
    ensures { result ≡ high_product_of a b }
{
    high_word(i64::from(a.cast_signed()) * i64::from(b.cast_signed()))
}

/// The high word of the product of a signed and an unsigned number.
#[inline(always)]
pub fn high_product_mixed(a: u32, b: u32) -> u32
    ensures { result ≡ high_product_mixed_of a b }
{
    high_word(i64::from(a.cast_signed()) * i64::from(b))
}

/// The high word of the product of two unsigned numbers.
#[inline(always)]
pub fn high_product_unsigned(a: u32, b: u32) -> u32
    ensures { result ≡ high_product_unsigned_of a b }
{
    (u64::from(a) * u64::from(b) >> 32) as u32
}

/// The quotient of two signed numbers, rounded towards zero; by zero it is all ones.
#[inline(always)]
pub fn quotient(a: u32, b: u32) -> u32
    ensures { result ≡ quotient_of a b }
{
    if b == 0 {
        return u32::MAX;
    }
    a.cast_signed()
        .wrapping_div(b.cast_signed())
        .cast_unsigned()
}

/// The quotient of two unsigned numbers; by zero it is all ones.
#[inline(always)]
pub fn quotient_unsigned(a: u32, b: u32) -> u32
    ensures { result ≡ quotient_unsigned_of a b }
{
    if b == 0 { u32::MAX } else { a / b }
}

/// What the quotient of two signed numbers leaves; by zero it is `a`.
#[inline(always)]
pub fn remainder(a: u32, b: u32) -> u32
    ensures { result ≡ remainder_of a b }
{
    if b == 0 {
        return a;
    }
    a.cast_signed()
        .wrapping_rem(b.cast_signed())
        .cast_unsigned()
}

/// What the quotient of two unsigned numbers leaves; by zero it is `a`.
#[inline(always)]
pub fn remainder_unsigned(a: u32, b: u32) -> u32
    ensures { result ≡ remainder_unsigned_of a b }
{
    if b == 0 { a } else { a % b }
}

/// The least of two words, read as signed.
pub fn least(a: u32, b: u32) -> u32
    ensures { result ≡ least_of a b }
{
    a.cast_signed().min(b.cast_signed()).cast_unsigned()
}

/// The greatest of two words, read as signed.
pub fn greatest(a: u32, b: u32) -> u32
    ensures { result ≡ greatest_of a b }
{
    a.cast_signed().max(b.cast_signed()).cast_unsigned()
}
