//! What is asked, and by which texts.

ghost use Rattle.std.specs.Prelude.{◌≡◌, IfOk};
ghost use Rattle.std.specs.Option.{option_copied};
ghost use Rattle.model_rosters.specs.SoundInstance.{IsSoundInstance};
ghost use Rattle.page_command.specs.Check.{RequestAnswers, UnderAnswers, kind_by};
ghost use Rattle.page_command.specs.Requests.{request_of};

use crate::check::{answer_under, answer_with};
use crate::remarks::drawing_remark;
use command_answers::{Answer, MOST_PROOF, Question};
use model_rosters::{Instance, Memory};
use page_labels::no_labels;
use page_views::{FirstWord, Kind, kind_for, sums_of};
use std::alloc::Global;

/// What is asked, and the texts that are read before the demand text.
#[derive(Clone, Copy, Drop)]
pub(crate) struct Request<'rules, 'labels, 'old> {
    /// What the first word asks for.
    pub word: FirstWord,
    /// The rules text.
    pub rules: &'rules [u8],
    /// The labels text, where there is one.
    pub labels: Option<&'labels [u8]>,
    /// The old text, where there is one.
    pub old: Option<&'old [u8]>,
}

// Returns as what the roster of a proof text or a report is shown.
fn kind_by(request: Request<'_, '_, '_>, demand: &[u8], text: &[u8]) -> Kind
    ensures { result ≡ kind_by (request_of request.entry) demand.now text.now }
{
    let sums = sums_of(request.rules, demand, text, request.labels, request.old);
    kind_for(request.word, sums)
}

// What is answered to a proof text or a report, under a labels text and beside an old text where there is
// one.
fn answer_of(
    alloc: Global,
    kind: Kind,
    instance: &Instance,
    labels: Option<&[u8]>,
    old: Option<&[u8]>,
    text: &[u8],
) -> Result<Answer, Memory>
    requires { IsSoundInstance instance.now }
    ensures { IfOk result (λ a. UnderAnswers kind (option_copied labels.entry) (option_copied old.entry)
        instance.now text.now a.status a.output) }
{
    match labels {
        None => answer_with(alloc, kind, instance, &no_labels(alloc), old, text),
        Some(labels) => answer_under(alloc, kind, instance, labels, old, text),
    }
}

/// What is asked by a demand text.
#[derive(Drop)]
pub(crate) struct Drawing<'rules, 'labels, 'old, 'demand> {
    /// What is asked, and the texts before.
    pub request: Request<'rules, 'labels, 'old>,
    /// The demand text.
    pub demand: &'demand [u8],
}

// What is answered to a proof text or a report.
fn drawing_answer(
    alloc: Global,
    instance: &Instance,
    text: &[u8],
    drawing: &Drawing<'_, '_, '_, '_>,
) -> Result<Answer, Memory>
    requires { IsSoundInstance instance.now }
    ensures { IfOk result (λ a. RequestAnswers (request_of drawing.now.request) drawing.now.demand.now
        instance.now text.now a.status a.output) }
{
    let request = drawing.request;
    let kind = kind_by(request, drawing.demand, text);
    answer_of(alloc, kind, instance, request.labels, request.old, text)
}

impl<'rules, 'labels, 'old, 'demand> Question for Drawing<'rules, 'labels, 'old, 'demand> {
    ghost use Rattle.page_command.specs.Check.{RequestAnswers};
    ghost use Rattle.page_command.specs.Requests.{request_of};
    ghost use Rattle.page_command.specs.Statuses.{request-ends};
    ghost use Rattle.page_command.specs.Fronts.{request-fronts};

    ghost answers = { λ q. RequestAnswers (request_of q.request) q.demand.now };

    ghost limit = { λ _. 1073741824 };

    ghost ends = { λ q. request-ends (request_of q.request) q.demand.now };

    ghost fronts = { λ q. request-fronts (request_of q.request) q.demand.now };

    // A proof text has at most so many bytes, and a report has no more.
    fn most(&self) -> usize {
        MOST_PROOF
    }

    // Says what shows the roster, or why it is refused.
    fn answer(&self, alloc: Global, instance: &Instance, text: &[u8]) -> Result<Answer, Memory> {
        drawing_answer(alloc, instance, text, self)
    }

    // Tells what is wrong with a text that is refused.
    fn remark(
        &self,
        alloc: Global,
        instance: &Instance,
        text: &[u8],
        status: u8,
    ) -> Option<String> {
        let request = self.request;
        drawing_remark(alloc, instance, request.labels, request.old, text, status)
    }
}
