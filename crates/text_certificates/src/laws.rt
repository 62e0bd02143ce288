//! The two laws on written certificates that are read.

ghost use Rattle.std.specs.Prelude.{◌≡◌, ◌≤◌, ◌↔◌, ℕ, List, Ok, length};
ghost use Rattle.model_rosters.specs.declared.instance.Instance.{Instance};
ghost use Rattle.model_rosters.specs.SoundInstance.{IsSoundInstance};
ghost use Rattle.check_certificates.specs.declared.cert.Cert.{Cert};
ghost use Rattle.check_certificates.specs.Sound.{IsSoundCert};
ghost use Rattle.text_proof_pieces.specs.CertOf.{proof_of};
ghost use Rattle.text_certificates.specs.SaidLines.{Says};
ghost use Rattle.text_certificates.specs.Written.{cert_text};

/// States a law: the text that is written of a sound certificate is read as that certificate, where
/// it is no longer than a text may be.
pub fn written_again()
    ensures { (i : Instance) (c : Cert) → IsSoundInstance i → IsSoundCert i c
        → length (cert_text i c) ≤ 1073741824 → proof_of i (cert_text i c) ≡ Ok c }
{}

/// States a law: a text says a certificate exactly where it is no longer than a text may be, the
/// certificate is sound, and the text's lines of words are those that are written of the certificate,
/// however the words are spaced, whatever the comments, and whether or not lines without words stand
/// between. So each certificate has one text but for spaces, comments and empty lines.
pub fn said_by_lines()
    ensures { (i : Instance) (text : List ℕ) (c : Cert) → IsSoundInstance i
        → (proof_of i text ≡ Ok c) ↔ Says i text c }
{}
