// What is so of the reports of all texts. The functions do nothing; what they ensure is proved.
ghost use Rattle.std.specs.Prelude.{◌≡◌, ℕ, List};
ghost use Rattle.std.specs.declared.option.Option.{Option as Maybe};
ghost use Rattle.rp_io.specs.Files.{Contents};
ghost use Rattle.repliss_cli.specs.declared.report.Report.{Report};
ghost use Rattle.repliss_cli.specs.declared.report.Report.TheVariants.{NotYet};
ghost use Rattle.repliss_cli.specs.Words.{Words};
ghost use Rattle.repliss_cli.specs.Replays.{IsReplayOf};
ghost use Rattle.repliss_cli.specs.Answers.{AreTold, HasCause, IsReportOf};

use lawful_programs::texts_have_programs;
use replay_reports::a_schedule_has_one_report;

/// A text has exactly one report: the causes of two reports never stand together, and one always stands.
pub fn a_text_has_one_report()
    ensures one { (content : List ℕ) (r s : Report) → IsReportOf content r → IsReportOf content s
        → r ≡ s }
    ensures some { (content : List ℕ) → (r : Report) × IsReportOf content r }
{
    texts_have_programs();
}

/// So has a text with the bytes of a schedule, and it is never that it isn't taken yet.
pub fn a_replay_has_one_report()
    ensures one { (content bytes : List ℕ) (r s : Report) → IsReplayOf content bytes r
        → IsReplayOf content bytes s → r ≡ s }
    ensures some { (content bytes : List ℕ) → (r : Report) × IsReplayOf content bytes r }
    ensures taken { (content bytes : List ℕ) → IsReplayOf content bytes NotYet → ⊥ }
{
    a_text_has_one_report();
    a_schedule_has_one_report();
}

/// So have words, over files that tell what they hold.
pub fn words_have_one_report()
    ensures one { (words : Words) (told : Maybe Contents) (r s : Report) → AreTold words told
        → HasCause words told r → HasCause words told s → r ≡ s }
    ensures some { (words : Words) (told : Maybe Contents) → (r : Report) × HasCause words told r }
{
    a_text_has_one_report();
    a_replay_has_one_report();
}
