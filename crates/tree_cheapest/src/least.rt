//! Prices and sums in numbers of any width.

ghost use Rattle.std.specs.Prelude.{◌≡◌, ◌≤ℤ◌, ◌+ℤ◌, ◌+◌, ◌^◌, pos, IfSome, IfNone, None, Some};
ghost use Rattle.model_rosters.specs.Sums.{plus, Within};
ghost use Rattle.tree_cheapest.specs.Numbers.{sum_but, IsBetter};

use crate::number::Number;
use std::alloc::AllocError;
use std::marker::Model;

/// A price.
#[derive(Copy, Drop)]
pub struct Price<N: Number> {
    number: N,
}

impl<N: Number> Model for Price<N> {
    ghost use Rattle.std.specs.Prelude.{ℤ};
    ghost use Rattle.std.proofs.Common.{ap};

    ghost Value = { ℤ };

    ghost view = { λ c. N.value c.number };

    ghost inverse = { λ v. record { number = N.kept v } };

    ghost inverse_ok = { λ a h. ap (λ n. record { number = n }) (N.same a.number) };
}

impl<N: Number> Clone for Price<N> {
    ghost is_clone = { λ a b. b ≡ a };

    ghost is_infallible = { λ a. Unit {0} };

    // Returns the same price.
    fn clone(&self) -> Result<Price<N>, AllocError> {
        Ok(*self)
    }
}

impl<N: Number> Price<N> {
    /// Returns a price; `None` exactly where it is beyond the limits.
    pub fn new(price: i128) -> Option<Price<N>>
        ensures same { IfSome result (λ z. z ≡ price) }
        ensures within { IfSome result (Within N.limits.price) }
        ensures beyond { IfNone result (Within N.limits.price price → ⊥) }
    {
        let number = N::price(price)?;
        Some(Price { number })
    }

    /// Returns the price of what costs nothing.
    pub fn zero() -> Price<N>
        ensures { result ≡ pos 0 }
    {
        Price { number: N::zero() }
    }

    /// Returns the sum of two prices.
    pub fn plus(self, price: Price<N>) -> Price<N>
        requires one { Within N.limits.price self }
        requires two { Within N.limits.price price }
        ensures { result ≡ self +ℤ price }
    {
        Price {
            number: self.number.plus(price.number),
        }
    }

    /// Returns the sum of two prices; `None` where it is beyond the limits.
    pub fn raised(self, price: Price<N>) -> Option<Price<N>>
        requires one { Within N.limits.price self }
        requires two { Within N.limits.price price }
        ensures same { IfSome result (λ z. z ≡ self +ℤ price) }
        ensures within { IfSome result (Within N.limits.price) }
    {
        let sum = self.number.plus(price.number);
        Price::new(sum.widened())
    }
}

/// A sum that may not be there. One number stands for none.
#[derive(Copy, Drop)]
pub struct Sum<N: Number> {
    number: N,
}

impl<N: Number> Model for Sum<N> {
    ghost use Rattle.std.specs.Prelude.{ℤ, Option};
    ghost use Rattle.std.proofs.Common.{ap, ◌∙◌};
    ghost use Rattle.tree_cheapest.specs.Numbers.{sum_but, number_but, number_but-sum_but};

    ghost Value = { Option ℤ };

    ghost view = { λ c. sum_but N.limits.none (N.value c.number) };

    ghost inverse = { λ v. record { number = N.kept (number_but N.limits.none v) } };

    ghost inverse_ok = { λ a h. ap (λ n. record { number = n })
        (ap N.kept (number_but-sum_but N.limits.none (N.value a.number)) ∙ N.same a.number) };
}

impl<N: Number> Clone for Sum<N> {
    ghost is_clone = { λ a b. b ≡ a };

    ghost is_infallible = { λ a. Unit {0} };

    // Returns the same sum.
    fn clone(&self) -> Result<Sum<N>, AllocError> {
        Ok(*self)
    }
}

impl<N: Number> Sum<N> {
    /// Returns no sum.
    pub fn none() -> Sum<N>
        ensures { result ≡ None }
    {
        Sum { number: N::none() }
    }

    /// Returns a price as a sum.
    pub fn new(price: Price<N>) -> Sum<N>
        requires { Within N.limits.price price }
        ensures { result ≡ Some price }
    {
        Sum {
            number: price.number,
        }
    }

    /// Returns the sum.
    pub fn sum(&self) -> Option<i128>
        ensures { result ≡ self.now }
    {
        if self.number.is_same(N::none()) {
            None
        } else {
            Some(self.number.widened())
        }
    }
}

/// A least sum so far, and an arc that has it.
#[derive(Copy, Drop)]
pub struct Least<N: Number> {
    /// The number of the sum. One number stands for no sum so far.
    pub number: N,
    /// The place of the first arc that has it, any number where none has.
    pub arc: u32,
}

impl<N: Number> Clone for Least<N> {
    ghost is_clone = { λ a b. b ≡ a };

    ghost is_infallible = { λ a. Unit {0} };

    // Returns the same least sum.
    fn clone(&self) -> Result<Least<N>, AllocError> {
        Ok(*self)
    }
}

impl<N: Number> Least<N> {
    /// Returns no sum.
    pub fn none() -> Least<N>
        ensures number { N.value result.number ≡ pos N.limits.least }
    {
        Least {
            number: N::no_least(),
            arc: 0,
        }
    }

    /// Returns the better of this and the sum of an arc of its first part, its prices and what follows;
    /// where they are equal, this.
    pub fn or(self, first: Sum<N>, prices: Price<N>, rest: Sum<N>, arc: u32) -> Least<N>
        requires most { N.value self.number ≤ℤ pos N.limits.least }
        requires first { IfSome first (Within N.limits.sum) }
        requires prices { Within (N.limits.price + N.limits.price) prices }
        requires rest { IfSome rest (Within N.limits.sum) }
        ensures most { N.value result.number ≤ℤ pos N.limits.least }
        ensures better { IsBetter (sum_but N.limits.least (N.value self.number)) self.arc
            (plus first (plus (Some prices) rest)) arc
            (sum_but N.limits.least (N.value result.number)) result.arc }
    {
        let number = N::add(first.number, prices.number, rest.number);
        if number.is_less(self.number) {
            Least { number, arc }
        } else {
            self
        }
    }

    /// Returns the sum; `None` exactly where it is beyond the limits.
    pub fn sum(self) -> Option<Sum<N>>
        ensures sum { IfSome result (λ n. n ≡ sum_but N.limits.least (N.value self.number)) }
        ensures small { IfSome result (λ n. IfSome n (Within N.limits.sum)) }
        ensures beyond { IfNone result (IfSome (sum_but N.limits.least (N.value self.number))
            (Within N.limits.sum) → ⊥) }
    {
        if self.number.is_same(N::no_least()) {
            return Some(Sum::none());
        }
        if !self.number.is_sum() {
            return None;
        }
        Some(Sum {
            number: self.number,
        })
    }
}
