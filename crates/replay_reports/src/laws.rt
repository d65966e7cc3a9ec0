// What holds of reports. The function is a law: its body calls one that it follows from.
ghost use Rattle.std.specs.Prelude.{◌≡◌, ℕ, List};
ghost use Rattle.rp_lang.specs.Programs.{Prog};
ghost use Rattle.replay_reports.specs.Replayed.{IsReportOn, report_line, kind_of};
ghost use Rattle.replay_reports.specs.declared.report.Replayed.{Replayed as SpecReplayed};

use replay::first_limits_are_one;

/// Reports whose cause stands for one text have one line, and end in one way.
pub fn a_schedule_has_one_report()
    ensures line { (text : List ℕ) (p : Prog) (bytes : List ℕ) (a b : SpecReplayed)
        → IsReportOn p bytes a → IsReportOn p bytes b → report_line text p a ≡ report_line text p b }
    ensures kind { (p : Prog) (bytes : List ℕ) (a b : SpecReplayed)
        → IsReportOn p bytes a → IsReportOn p bytes b → kind_of a ≡ kind_of b }
{
    first_limits_are_one();
}
