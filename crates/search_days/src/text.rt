//! The text of a certificate that was found.

ghost use Rattle.std.specs.Prelude.{IfOk};
ghost use Rattle.check_certificates.specs.Sound.{IsSoundCert};
ghost use Rattle.model_rosters.specs.SoundInstance.{IsSoundInstance};
ghost use Rattle.search_days.specs.Texts.{HasFewValues, IsTextOf};

use check_certificates::Cert;
use model_rosters::{Instance, List, Memory};
use std::alloc::Global;
use text_certificates::{write_cert, written_again};

/// Writes the text of a sound certificate of few prices and multipliers. By the law of written texts it
/// is read as that certificate.
///
/// # Errors
///
/// `Memory` where memory runs out; there is no text then.
pub(crate) fn cert_text(alloc: Global, instance: &Instance, cert: &Cert) -> Result<List<u8>, Memory>
    requires sound { IsSoundInstance instance.now }
    requires cert { IsSoundCert instance.now cert.now }
    requires few { HasFewValues cert.now }
    ensures { IfOk result (IsTextOf instance.now cert.now) }
{
    written_again();
    write_cert(alloc, instance, cert)
}
