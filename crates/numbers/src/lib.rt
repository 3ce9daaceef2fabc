// Complex numbers as pairs of doubles, by value, and a number's place in a list of doubles.
// Each operation rounds once for each of the doubles' operations that it is made of, in the order of docs/SPECIFICATION.md, 1.

#![tactic(auto)]

ghost use Rattle.std.specs.Prelude.{◌≡◌, ◌+◌, ◌*◌, ◌<◌, length};
ghost use Rattle.numbers.specs.Complex.{zero_number, one_number, sum, difference, product, squares, quotient, real_over, over_real, real_times, negation, conjugate, one_minus, inverse, finite, is_zero};
ghost use Rattle.numbers.specs.Places.{number_at, set_number, found_at};

use std::ops::{Add, Div, Mul, Neg, Sub};

pub mod collect;
pub mod lists;
pub mod terms;
pub mod transpose;

// A complex number: real part, then imaginary part.
#[derive(Clone, Copy)]
pub struct C64 {
    pub re: f64,
    pub im: f64,
}

impl C64 {
    // (0, 0), where sums start.
    #[tactic(auto, unfolding(crate::specs::Complex::zero_number))]
    pub fn zero() -> C64
        ensures { result ≡ zero_number }
    {
        C64 { re: 0.0, im: 0.0 }
    }

    // (1, 0), where products start.
    #[tactic(auto, unfolding(crate::specs::Complex::one_number))]
    pub fn one() -> C64
        ensures { result ≡ one_number }
    {
        C64 { re: 1.0, im: 0.0 }
    }

    // The sum of the squares of the parts.
    #[tactic(auto, unfolding(crate::specs::Complex::squares))]
    pub fn norm_sqr(self) -> f64
        ensures { result ≡ squares self }
    {
        self.re * self.re + self.im * self.im
    }

    #[tactic(auto, unfolding(crate::specs::Complex::conjugate))]
    pub fn conj(self) -> C64
        ensures { result ≡ conjugate self }
    {
        C64 {
            re: self.re,
            im: -self.im,
        }
    }

    #[tactic(auto, unfolding(crate::specs::Complex::one_minus))]
    pub fn one_minus(self) -> C64
        ensures { result ≡ one_minus self }
    {
        C64 {
            re: 1.0 - self.re,
            im: 0.0 - self.im,
        }
    }

    #[tactic(auto, unfolding(crate::specs::Complex::inverse))]
    pub fn inv(self) -> C64
        ensures { result ≡ inverse self }
    {
        let n = self.norm_sqr();
        C64 {
            re: self.re / n,
            im: -self.im / n,
        }
    }

    // Both parts finite.
    pub fn is_finite(self) -> bool
        ensures { result ≡ finite self }
    {
        self.re.is_finite() && self.im.is_finite()
    }

    // Both parts zero, of either sign.
    pub fn is_zero(self) -> bool
        ensures { result ≡ is_zero self }
    {
        self.re == 0.0 && self.im == 0.0
    }
}

impl Add for C64 {
    type Output = C64;

    #[tactic(auto, unfolding(crate::specs::Complex::sum))]
    fn add(self, y: C64) -> C64
        ensures { result ≡ sum self y }
    {
        C64 {
            re: self.re + y.re,
            im: self.im + y.im,
        }
    }
}

impl Sub for C64 {
    type Output = C64;

    #[tactic(auto, unfolding(crate::specs::Complex::difference))]
    fn sub(self, y: C64) -> C64
        ensures { result ≡ difference self y }
    {
        C64 {
            re: self.re - y.re,
            im: self.im - y.im,
        }
    }
}

impl Mul for C64 {
    type Output = C64;

    #[tactic(auto, unfolding(crate::specs::Complex::product))]
    fn mul(self, y: C64) -> C64
        ensures { result ≡ product self y }
    {
        C64 {
            re: self.re * y.re - self.im * y.im,
            im: self.re * y.im + self.im * y.re,
        }
    }
}

impl Div for C64 {
    type Output = C64;

    #[tactic(auto, unfolding(crate::specs::Complex::quotient))]
    fn div(self, y: C64) -> C64
        ensures { result ≡ quotient self y }
    {
        let n = y.norm_sqr();
        C64 {
            re: (self.re * y.re + self.im * y.im) / n,
            im: (self.im * y.re - self.re * y.im) / n,
        }
    }
}

impl Neg for C64 {
    type Output = C64;

    #[tactic(auto, unfolding(crate::specs::Complex::negation))]
    fn neg(self) -> C64
        ensures { result ≡ negation self }
    {
        C64 {
            re: -self.re,
            im: -self.im,
        }
    }
}

// A real times a number.
impl Mul<C64> for f64 {
    type Output = C64;

    #[tactic(auto, unfolding(crate::specs::Complex::real_times))]
    fn mul(self, y: C64) -> C64
        ensures { result ≡ real_times self y }
    {
        C64 {
            re: self * y.re,
            im: self * y.im,
        }
    }
}

// A real over a number.
impl Div<C64> for f64 {
    type Output = C64;

    #[tactic(auto, unfolding(crate::specs::Complex::real_over))]
    fn div(self, y: C64) -> C64
        ensures { result ≡ real_over self y }
    {
        let n = y.norm_sqr();
        C64 {
            re: self * y.re / n,
            im: 0.0 - self * y.im / n,
        }
    }
}

// A number over a real.
impl Div<f64> for C64 {
    type Output = C64;

    #[tactic(auto, unfolding(crate::specs::Complex::over_real))]
    fn div(self, y: f64) -> C64
        ensures { result ≡ over_real self y }
    {
        C64 {
            re: self.re / y,
            im: self.im / y,
        }
    }
}

// Number k of a list. `requires`: the layers above show that the list has it.
pub fn get(xs: &[f64], k: usize) -> C64
    requires { 2 * k + 1 < length xs.now }
    ensures { result ≡ number_at xs.now k }
{
    C64 {
        re: xs[2 * k],
        im: xs[2 * k + 1],
    }
}

// The list with v as its number k, unchanged where it has no such place.
pub fn put(xs: &mut [f64], k: usize, v: C64)
    ensures { xs.new ≡ set_number xs.old k v }
{
    if k < xs.len() / 2 {
        xs[2 * k] = v.re;
        xs[2 * k + 1] = v.im;
    }
}

// Number k of a list, and one that is no number where the list has no such place.
pub fn find(xs: &[f64], k: usize) -> C64
    ensures { result ≡ found_at xs.now k }
{
    if k < xs.len() / 2 {
        return get(xs, k);
    }
    let nan = 0.0 / 0.0;
    C64 { re: nan, im: nan }
}
