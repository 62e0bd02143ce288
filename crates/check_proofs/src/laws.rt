//! The law that a yes is an accepted certificate.

ghost use Rattle.check_proofs.specs.YesOrNo.{YesIsAccepted};

/// A verdict on a certificate is a yes if and only if the certificate is accepted.
pub fn yes_is_accepted()
    ensures { YesIsAccepted }
{}
