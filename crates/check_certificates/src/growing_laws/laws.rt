//! The laws on the tree of a search while it grows.

ghost use Rattle.check_certificates.specs.growing_laws.Laws.{GrownShows, LeastBound, PutRises, PutTimes, PutBusy, PutMissed, GrownCounts, FewNodes};
ghost use Rattle.check_certificates.specs.growing_laws.Opens.{PutOpens, OpensSound, OpensLeast};
ghost use Rattle.check_certificates.specs.growing_laws.Seats.{SeatedPut, PutNumbers, SeatsLeadUp, SeatsGiveNodes};
ghost use Rattle.check_certificates.specs.growing_laws.States.{GrowingPut, GrowingRaised, GrowingProves, GrowingClosed, GrowingFew};

/// A tree with right values shows what it says.
pub fn grown_shows()
    ensures { GrownShows }
{}

/// What a tree shows is the least bound that a leaf leaves.
pub fn least_bound()
    ensures { LeastBound }
{}

/// A tree shows no less once a leaf has a tree in its place that shows no less.
pub fn put_rises()
    ensures { PutRises }
{}

/// How often a number stands at a leaf once a tree stands in place of a leaf.
pub fn put_times()
    ensures { PutTimes }
{}

/// How many nodes are processed then.
pub fn put_busy()
    ensures { PutBusy }
{}

/// How many splits have no prices then.
pub fn put_missed()
    ensures { PutMissed }
{}

/// The certificate's nodes that are processed, and its splits without prices, are those of the tree.
pub fn grown_counts()
    ensures { GrownCounts }
{}

/// A tree processes fewer nodes than twice the points of its box.
pub fn few_nodes()
    ensures { FewNodes }
{}

/// A tree that stands in place of a leaf keeps what the search knows, with its own numbers.
pub fn growing_put()
    ensures { GrowingPut }
{}

/// What the search knows holds for lesser limits, and for the least bound that a leaf leaves.
pub fn growing_raised()
    ensures { GrowingRaised }
{}

/// What the search knows is what the certificate needs: right nodes, the shown value, and no split whose
/// own prices show more.
pub fn growing_proves()
    ensures { GrowingProves }
{}

/// Where no open leaf leaves a bound below the limit, the tree shows the limit.
pub fn growing_closed()
    ensures { GrowingClosed }
{}

/// Where some leaf is open, fewer nodes are processed than twice the points less one.
pub fn growing_few()
    ensures { GrowingFew }
{}

/// The seats of a tree in which another one stands in place of a leaf.
pub fn seated_put()
    ensures { SeatedPut }
{}

/// How often a number stands in such a tree.
pub fn put_numbers()
    ensures { PutNumbers }
{}

/// Each node's seat but the root's leads to the split above it.
pub fn seats_lead_up()
    ensures { SeatsLeadUp }
{}

/// The nodes of a tree are that of its seat and those of its halves.
pub fn seats_give_nodes()
    ensures { SeatsGiveNodes }
{}

/// How many open leaves pass a test once a tree stands in place of a leaf.
pub fn put_opens()
    ensures { PutOpens }
{}

/// Each entry is an open leaf.
pub fn opens_sound()
    ensures { OpensSound }
{}

/// Where no entry has a lesser bound, no open leaf leaves one.
pub fn opens_least()
    ensures { OpensLeast }
{}
