//! The open splits, and the path of cuts.

ghost use Rattle.std.specs.Prelude.{◌≡◌, ◌≤◌, ◌<◌, ℕ, min, List as Items, [], ◌∷◌, length, IfOk, MatchOption};
ghost use Rattle.model_rosters.specs.declared.instance.Instance.{Instance as Day};
ghost use Rattle.check_certificates.specs.declared.cert.Node.{Node as ProofNode};
ghost use Rattle.check_certificates.specs.Nodes.{Visit, low_cut, high_cut};
ghost use Rattle.model_rosters.specs.Cuts.{base_cuts};
ghost use Rattle.model_rosters.specs.SoundInstance.{IsSoundInstance};
ghost use Rattle.check_proofs.specs.declared.frame.Frame.{Frame as OpenSplit};
ghost use Rattle.check_certificates.specs.certificate_laws.Shown.{joined};
ghost use Rattle.check_proofs.specs.OpenSplits.{path, ValueAfter, VisitsAfter, ValueNext, VisitsNext};
ghost use Rattle.text_proof_pieces.specs.PieceList.{after_leaf};
ghost use Rattle.check_proofs.specs.Stacks.{AreSmall, halves_of};

use crate::frame::Frame;
use law_base_cuts::push_base_cuts;
use model_rosters::{ArcKey, Cut, Instance, MOST_BASE_CUTS, Memory, Side};
use std::alloc::Global;
use std::marker::Model;

/// The open splits on the way to a node, and the path of cuts that they leave. A contract sees the
/// cuts with which each path begins, the open splits, of which the innermost is the first, and how
/// many there may be.
#[derive(Drop)]
pub(crate) struct Stack {
    base: usize,
    most: usize,
    frames: Vec<Frame>,
    path: Vec<Cut>,
}

impl Model for Stack {
    ghost use Rattle.std.specs.Prelude.{reverse, take, vec_capacity};
    ghost use Rattle.check_proofs.specs.Stacks.{StackView, IsStack};

    ghost Value = { StackView };

    ghost view = { λ s. record
        { base = take s.base s.path.items; splits = reverse s.frames.items; most = s.most } };

    ghost invariant = { λ s. IsStack s.base s.most s.frames.items s.path.items (vec_capacity s.frames)
        (vec_capacity s.path) };
}

/// Returns what a split shows whose halves show this at least.
fn joined(own: Option<u64>, lesser: u64) -> u64
    ensures { result ≡ joined own lesser }
{
    match own {
        Some(own) => own.max(lesser),
        None => lesser,
    }
}

/// Opens the High half of a split whose Low half shows this.
fn high_half(frame: Frame, low: u64) -> Frame
    ensures { result ≡ record { cut = high_cut frame.cut.arc frame.cut.b; own = frame.own; low = low } }
{
    Frame {
        cut: Cut {
            side: Side::High,
            ..frame.cut
        },
        own: frame.own,
        low,
    }
}

impl Stack {
    /// Returns a stack for so many open splits of the instance, of which none is open. It takes all
    /// its memory here.
    ///
    /// # Errors
    ///
    /// `Memory` where memory runs out; nothing is kept then.
    pub(crate) fn for_splits(
        alloc: Global,
        instance: &Instance,
        most: usize,
    ) -> Result<Stack, Memory>
        requires sound { IsSoundInstance instance.now }
        requires few { most ≤ 20001 }
        ensures { IfOk result (λ s. s ≡ record { base = base_cuts instance.now; splits = []; most = most }) }
    {
        let frames = Vec::with_capacity(alloc, most)?;
        let mut path = Vec::with_capacity(alloc, MOST_BASE_CUTS + most)?;
        push_base_cuts(&mut path, instance);
        Ok(Stack {
            base: path.len(),
            most,
            frames,
            path,
        })
    }

    /// Returns the cuts on the way to the next node.
    pub(crate) fn path(&self) -> &[Cut]
        ensures { result.now ≡ path self.now.base self.now.splits }
    {
        self.path.as_slice()
    }

    // Opens a half. Takes no memory.
    fn push(&mut self, frame: Frame)
        requires { length self.old.splits < self.old.most }
        ensures { self.new ≡ record self.old { splits = frame ∷ self.old.splits } }
    {
        self.frames.push_reserved(frame);
        self.path.push_reserved(frame.cut);
    }

    // Closes the innermost half; `None` where none is open.
    fn pop(&mut self) -> Option<Frame>
        ensures { MatchOption result ((self.old.splits ≡ []) × (self.new ≡ self.old))
            (λ f. self.old ≡ record self.new { splits = f ∷ self.new.splits }) }
    {
        let frame = self.frames.pop()?;
        let _ = self.path.pop();
        Some(frame)
    }

    /// Leaves no split open. Takes no memory.
    pub(crate) fn clear(&mut self)
        ensures { self.new ≡ record self.old { splits = [] } }
    {
        self.frames.clear();
        self.path.truncate(self.base);
    }

    /// Opens the Low half of a split. Takes no memory.
    pub(crate) fn split(&mut self, arc: ArcKey, b: u32, own: Option<u64>)
        requires { length self.old.splits < self.old.most }
        ensures { self.new ≡ record self.old {
          splits = record { cut = low_cut arc b; own = own; low = 0 } ∷
              self.old.splits;
        } }
    {
        let side = Side::Low;
        self.push(Frame {
            cut: Cut { arc, side, b },
            own,
            low: 0,
        });
    }

    /// Gives the innermost half its value, and closes each split whose High half it completes.
    /// Returns the value of the whole tree, once no half is open.
    pub(crate) fn close(&mut self, value: u64) -> Option<u64>
        requires { length self.old.splits ≤ self.old.most }
        ensures base { self.new.base ≡ self.old.base }
        ensures most { self.new.most ≡ self.old.most }
        ensures fewer { length self.new.splits ≤ length self.old.splits }
        ensures halves { halves_of self.new.splits ≡ after_leaf (halves_of self.old.splits) }
        ensures small { AreSmall (path self.old.base self.old.splits)
            → AreSmall (path self.old.base self.new.splits) }
        ensures values { (i : Day) (rest : Items ProofNode) (v : ℕ)
            → ValueNext i self.old.base result self.new.splits rest v
            → ValueAfter i self.old.base self.old.splits value rest v }
        ensures visits { (rest : Items ProofNode) (vs : Items Visit)
            → VisitsAfter self.old.base self.old.splits rest vs
            → VisitsNext self.old.base result self.new.splits rest vs }
    {
        let mut shown = value;
        while let Some(frame) = self.pop() {
            match frame.cut.side {
                Side::Low => {
                    self.push(high_half(frame, shown));
                    return None;
                }
                Side::High => shown = joined(frame.own, frame.low.min(shown)),
            }
        }
        Some(shown)
    }
}
