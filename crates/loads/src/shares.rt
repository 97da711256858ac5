//! What costs come to, each over its period: a sum of fractions, which no rounding touches.
ghost use Rattle.std.specs.Prelude.{◌≡◌, ◌+◌, ◌*◌, ◌<◌, ◌≤◌, nat_lt, length, All, IfOk};
ghost use Rattle.std.specs.Int.{div_ceil};
ghost use Rattle.loads.specs.Digits.{AreDigits, bottom_of, top_of};
ghost use Rattle.loads.specs.Shares.{IsShare, load_in};

use std::alloc::{AllocError, Global};

/// What is taken in each period; times in microseconds, up to 10,000,000.
#[derive(Clone, Copy)]
pub struct Share {
    pub cost: u64,
    pub period: u64,
}

// The digits of a number are below this.
const BASE: u64 = 0x1_0000_0000;

// One digit of a fraction: of its numerator, and of its denominator.
#[derive(Clone, Copy)]
pub(crate) struct Digit {
    pub top: u64,
    pub bottom: u64,
}

// A fraction and a share together, over the product of both denominators.
fn plus(alloc: Global, fraction: &[Digit], share: Share) -> Result<Vec<Digit>, AllocError>
    requires digits { AreDigits fraction.now }
    requires valid { IsShare share }
    ensures top { IfOk result (λ v. top_of v.items
        ≡ top_of fraction.now * share.period + bottom_of fraction.now * share.cost) }
    ensures bottom { IfOk result (λ v. bottom_of v.items ≡ bottom_of fraction.now * share.period) }
    ensures digits { IfOk result (λ v. AreDigits v.items) }
{
    let mut sum = Vec::new(alloc);
    let mut carry = Digit { top: 0, bottom: 0 };
    for digit in fraction {
        let top = digit.top * share.period + digit.bottom * share.cost + carry.top;
        let bottom = digit.bottom * share.period + carry.bottom;
        sum.push(Digit {
            top: top % BASE,
            bottom: bottom % BASE,
        })?;
        carry = Digit {
            top: top / BASE,
            bottom: bottom / BASE,
        };
    }
    sum.push(carry)?;
    Ok(sum)
}

// Whether a fraction is above a number: its numerator is above so many times the denominator.
fn is_above(fraction: &[Digit], number: u64) -> bool
    requires digits { AreDigits fraction.now }
    requires short { number ≤ 1000 }
    ensures { result ≡ nat_lt (number * bottom_of fraction.now) (top_of fraction.now) }
{
    let mut excess = 0;
    for i in (0..fraction.len()).rev() {
        let has = excess * BASE + fraction[i].top;
        let needs = number * fraction[i].bottom;
        if has < needs {
            return false;
        }
        excess = has - needs;
        if excess > number {
            return true;
        }
    }
    excess > 0
}

// A fraction, rounded up.
fn rounded_up(fraction: &[Digit]) -> u64
    requires digits { AreDigits fraction.now }
    requires some { 0 < bottom_of fraction.now }
    requires short { top_of fraction.now ≤ 1000 * bottom_of fraction.now }
    ensures { result ≡ div_ceil (top_of fraction.now) (bottom_of fraction.now) }
{
    let mut number = 0;
    while is_above(fraction, number) {
        number += 1;
    }
    number
}

/// What shares come to together, in so many parts of the processor: exactly, and then rounded up once (Liu and Layland
/// 1973). The error is out of memory.
pub fn load_in(alloc: Global, parts: u64, shares: &[Share]) -> Result<u64, AllocError>
    requires short { parts ≤ 1000000 }
    requires valid { All IsShare shares.now }
    requires few { length shares.now ≤ 1000 }
    ensures { IfOk result (λ n. n ≡ load_in parts shares.now) }
{
    let mut whole = 0;
    let mut rest = Vec::new(alloc);
    rest.push(Digit { top: 0, bottom: 1 })?;
    for share in shares {
        let times = share.cost * parts;
        let left = Share {
            cost: times % share.period,
            period: share.period,
        };
        rest = plus(alloc, &rest, left)?;
        whole += times / share.period;
    }
    Ok(whole + rounded_up(&rest))
}
