//! The laws on a proof text and its pieces.

ghost use Rattle.std.specs.Prelude.{ℕ, ◌≡◌, List, Ok, Err};
ghost use Rattle.model_rosters.specs.declared.instance.Instance.{Instance};
ghost use Rattle.model_rosters.specs.SoundInstance.{IsSoundInstance};
ghost use Rattle.check_certificates.specs.declared.cert.Cert.{Cert};
ghost use Rattle.check_certificates.specs.Sound.{IsSoundCert};
ghost use Rattle.text_proof_pieces.specs.declared.fault.ProofFault.{ProofFault};
ghost use Rattle.text_proof_pieces.specs.CertOf.{proof_of, cert_pieces};
ghost use Rattle.text_proof_pieces.specs.PieceList.{no_place, pieces_of};
ghost use Rattle.text_proof_pieces.specs.Refused.{TellsFault, TellsFront};
ghost use Rattle.text_proof_pieces.specs.ToldSound.{AreToldSound};

/// States a law: where a text says a certificate, its pieces are the certificate's cost, bound,
/// shifts and nodes in order, and then the end, and the certificate is sound.
pub fn accepted_pieces()
    ensures pieces { (i : Instance) (text : List ℕ) (c : Cert) → IsSoundInstance i → proof_of i text ≡ Ok c
        → pieces_of i text ≡ cert_pieces c }
    ensures sound { (i : Instance) (text : List ℕ) (c : Cert) → IsSoundInstance i → proof_of i text ≡ Ok c
        → IsSoundCert i c }
{}

/// States a law: where a text is refused, its pieces have no end, and the last of them is the fault.
pub fn refused_pieces()
    ensures { (i : Instance) (text : List ℕ) (e : ProofFault) → proof_of i text ≡ Err e
        → TellsFault (pieces_of i text) e }
{}

/// States a law: what a refused text tells before its fault is a front of what some certificate
/// tells: its cost, its bound, its first shifts or all, and then its first nodes. On a sound day that
/// certificate is sound where the nodes that are told and the halves that are still open are at most
/// 20,001; where no node is told, the whole tree is one open half.
pub fn told_before_a_fault()
    ensures { (i : Instance) (text : List ℕ) (e : ProofFault) → proof_of i text ≡ Err e
        → TellsFront i (pieces_of i text) }
{}

/// States a law, of texts that end well and of others: each shift that a text tells is sound and one
/// of 64, and each node is due in the tree, one of 20,001, sound on each path with as many cuts as
/// there are base cuts and open splits, and lists no multiplier of 0.
pub fn told_pieces_are_sound()
    ensures { (i : Instance) (text : List ℕ) → IsSoundInstance i
        → AreToldSound i 0 no_place (pieces_of i text) }
{}
