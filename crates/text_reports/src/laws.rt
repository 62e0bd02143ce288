//! The laws on reports that are written and read.

ghost use Rattle.std.specs.Prelude.{◌≡◌};
ghost use Rattle.model_rosters.specs.declared.instance.Instance.{Instance};
ghost use Rattle.model_rosters.specs.SoundInstance.{IsSoundInstance};
ghost use Rattle.text_lines.specs.Lines.{text_items};
ghost use Rattle.text_lines.specs.Written.{numbered};
ghost use Rattle.text_reports.specs.declared.report.Report.{Report as Said};
ghost use Rattle.text_reports.specs.Readable.{IsReadable, IsTextOf};
ghost use Rattle.text_reports.specs.ReportText.{report_lines, report_text};
ghost use Rattle.text_reports.specs.Writable.{IsWritable, HasSmallNumbers};

/// States a law: the lines of a written report, word by word, are those that were written, where
/// each number has 64 bits.
pub fn lines_again()
    ensures { (i : Instance) (r : Said) → IsSoundInstance i → IsWritable i r → HasSmallNumbers r
        → text_items (report_text i r) ≡ numbered 1 (report_lines i r) }
{}

/// States a law: the text of a report whose numbers fit their places is one of that report, so it is
/// read as that report.
pub fn read_again()
    ensures { (i : Instance) (r : Said) → IsSoundInstance i → IsReadable i r
        → IsTextOf i (report_text i r) r }
{}
