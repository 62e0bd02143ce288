//! The laws on what a certificate shows, and why a yes is right.

ghost use Rattle.check_certificates.specs.certificate_laws.Laws.{YesIsSound, OneShownValue, CausesRefuse, OneFirstCause};
ghost use Rattle.check_certificates.specs.certificate_laws.Worked.{WorkedNodes};

/// A yes is sound: the stated words of an accepted certificate are an allowed roster of exactly the
/// stated cost, every allowed roster costs at least the stated bound, and where the certificate says
/// that no roster is allowed, none is.
pub fn yes_is_sound()
    ensures { YesIsSound }
{}

/// A tree of nodes shows one value.
pub fn one_shown_value()
    ensures { OneShownValue }
{}

/// A certificate that is accepted has no cause to be refused.
pub fn causes_refuse()
    ensures { CausesRefuse }
{}

/// A certificate has one first cause to be refused, with the values that it names.
pub fn one_first_cause()
    ensures { OneFirstCause }
{}

/// Splits of nodes with prices and the paths of a day of two groups, computed: a split shows the
/// greater of what its own prices show and the lesser of its halves, each path begins with the base
/// cuts, and one more than the greatest cost is stated as none.
pub fn worked_nodes()
    ensures { WorkedNodes }
{}
