//! A node whose prices stand elsewhere.

ghost use Rattle.std.specs.Prelude.{◌≡◌};
ghost use Rattle.check_proofs.specs.Views.{prices_of, node_of};

use check_certificates::Node;
use model_rosters::{ArcKey, Mult, Prices};

/// The prices of a node in parts that stand elsewhere.
#[derive(Clone, Copy, Drop)]
pub(crate) struct PricesView<'a> {
    /// The denominator, 1 to 2^30.
    pub d: u64,
    /// The price of each cell in units of `1 / d`, within plus or minus 2^80.
    pub cell: &'a [i128],
    /// The multipliers, by rising numbers of cuts.
    pub mult: &'a [Mult],
}

/// A node of a certificate whose prices stand elsewhere.
#[derive(Clone, Copy, Drop)]
pub(crate) enum NodeView<'a> {
    /// A split.
    Split {
        arc: ArcKey,
        /// 0 to 63.
        b: u32,
        prices: Option<PricesView<'a>>,
    },
    /// A leaf with prices.
    Priced {
        prices: PricesView<'a>,
    },
    /// A leaf whose cuts leave each arc one count.
    Pinned,
    /// A leaf that shows nothing.
    Bare,
}

/// Returns the parts of prices.
fn view_prices(prices: &Prices) -> PricesView<'_>
    ensures { prices_of result ≡ prices.now }
{
    PricesView {
        d: prices.d,
        cell: prices.cell.as_slice(),
        mult: prices.mult.as_slice(),
    }
}

/// Returns the node with its prices in parts.
pub(crate) fn view_node(node: &Node) -> NodeView<'_>
    ensures { node_of result ≡ node.now }
{
    match node {
        Node::Split { arc, b, prices } => NodeView::Split {
            arc: *arc,
            b: *b,
            prices: match prices {
                Some(prices) => Some(view_prices(prices)),
                None => None,
            },
        },
        Node::Priced { prices } => NodeView::Priced {
            prices: view_prices(prices),
        },
        Node::Pinned => NodeView::Pinned,
        Node::Bare => NodeView::Bare,
    }
}
