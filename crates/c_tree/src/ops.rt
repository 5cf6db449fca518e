//! The binary operators, in one table.

ghost use Rattle.std.specs.Prelude.{◌≡◌};
ghost use Rattle.c_tree.specs.declared.expr.BinOp.TheVariants.{Shl, Shr};
ghost use Rattle.c_tree.specs.Values.{word_bin};

/// Hands the table of binary operators to another macro: the variant, how tightly it binds, its
/// symbol, its mark, and its value at the words `a` and `b`.
#[macro_export]
macro_rules! ops {
    ($then:ident $($args:tt)*) => {
        $then! {
            [$($args)*]
            Or 1 Bar b"|" (a, b, a | b)
            Xor 2 Caret b"^" (a, b, a ^ b)
            And 3 Ampersand b"&" (a, b, a & b)
            Shl 4 ShiftLeft b"<<" (a, b, $crate::shifted_left(a, b))
            Shr 4 ShiftRight b">>" (a, b, $crate::shifted_right(a, b))
            Add 5 Plus b"+" (a, b, a.wrapping_add(b))
            Sub 5 Minus b"-" (a, b, a.wrapping_sub(b))
            Mul 6 Star b"*" (a, b, a.wrapping_mul(b))
            Div 6 Slash b"/" (a, b, a.checked_div(b).unwrap_or(0))
            Rem 6 Percent b"%" (a, b, a.checked_rem(b).unwrap_or(a))
        }
    };
}

/// The word shifted to the left; 0 where that is by 64 or more.
#[inline(always)]
pub fn shifted_left(a: u64, b: u64) -> u64
    ensures { result ≡ word_bin Shl a b }
{
    if b < 64 { a << b } else { 0 }
}

/// The word shifted to the right; 0 where that is by 64 or more.
#[inline(always)]
pub fn shifted_right(a: u64, b: u64) -> u64
    ensures { result ≡ word_bin Shr a b }
{
    if b < 64 { a >> b } else { 0 }
}
