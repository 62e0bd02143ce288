//! The laws on a word with two trees.

ghost use Rattle.model_sample_days.specs.TwoReadings.{PriceOfTwoReadings, LeastSumOfTwoReadings};

/// The word `aa` has two trees; its price is the cost of the cheaper one.
pub fn price_of_two_readings()
    ensures { PriceOfTwoReadings }
{}

/// The least sum of that day's trees, where rules are priced at their costs.
pub fn least_sum_of_two_readings()
    ensures { LeastSumOfTwoReadings }
{}
