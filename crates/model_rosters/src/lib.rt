//! The shared model of a staffing day: grammars, derivation trees and the prices on them.
//!
//! Its modules of laws hold what follows from that alone: `tree_laws` on trees and least sums, `arc_laws` on
//! the arcs of an instance and how often trees have them, `word_prices` on prices that single out one word.
//!
//! The formulation is the grammar-based one of Côté, Gendron and Rousseau, "Grammar-Based Integer
//! Programming Models for Multiactivity Shift Scheduling", Management Science 57 (2011); the graph
//! of all parses that the arcs belong to is that of Quimper and Walsh.
//!
//! How an arc's price is found: each arc has one of 16,384 marks, which it may share with others; where its
//! mark is not set, no cut is on the arc, and the price is 0 at once. Else the arc is searched among the arcs
//! with cuts, which stand in their order, each once. That this is fast is measured and not proved.
#![tactic(auto)]

pub mod arc_laws;
mod arc_prices;
mod bounds;
mod coverage;
mod cuts;
mod demands;
mod fill;
mod grammar;
mod groups;
mod instance;
mod list;
mod memory;
mod names;
mod price_laws;
mod price_room;
mod prices;
mod room;
mod rules;
mod sound;
mod sound_instance;
pub mod tree_laws;
mod unit_rules;
pub mod word_prices;

pub use arc_laws::{
    arc_once, arcs_pay, arcs_pay_over, leaves_count, leaves_count_over, list_holds_once, made_once,
    one_list, path_bounds, root_counts, root_counts_over, trees_balanced, trees_balanced_over,
};
pub use arc_prices::ArcPrice;
pub use bounds::{greatest_cost, rounding_loss};
pub use coverage::{covered, penalty};
pub use cuts::{MOST_BASE_CUTS, base_cut_count, group_arc};
pub use grammar::{ArcKey, CodeDef, Grammar, Rule, Step, Sym, Tree, Window};
pub use groups::{least_heads, most_heads};
pub use instance::{Cell, Cut, Done, Group, Instance, Mult, Prices, Shift, Side};
pub use list::{List, first_and_rest};
pub use memory::Memory;
pub use names::{is_code_byte, is_name};
pub use price_laws::agreeing_sums;
pub use price_room::PriceRoom;
pub use prices::LetterPrice;
pub use room::TreeRoom;
pub use rules::rule_of;
pub use sound::{is_plain, is_sound};
pub use sound_instance::is_sound_instance;
pub use tree_laws::{
    few_uses, one_least_parts, one_least_tree, small_sums, split_by_first, split_by_rule,
};
pub use unit_rules::{MOST_NAMES, ranked_has_no_cycle, unit_ranks};
pub use word_prices::{WordPrices, least_tree, shift_length, word_sums};
