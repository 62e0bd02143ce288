//! What is answered to questions about the days of a grammar: the first days in order, the codes that may
//! come next, and the shifts that fit a pattern.
#![tactic(auto)]

mod cost_prices;
mod day_answer;
mod fits;
mod front;
mod laws;
mod least;
mod lines;
mod longest;
mod miss_prices;
mod next;
mod pattern_prices;
mod periods;
mod ranking;
mod word;

pub use cost_prices::CostPrices;
pub use day_answer::DayAnswer;
pub use fits::fits_answer;
pub use laws::{
    least_sums, marginal_prices, one_fits_answer, one_next_answer, one_ranked_answer, pattern_sums,
};
pub use next::next_answer;
pub use pattern_prices::PatternPrices;
pub use ranking::ranked_answer;
