// What holds of texts of schedules. Each function is a law: its body is empty.
ghost use Rattle.std.specs.Prelude.{◌≡◌, ℕ, List};
ghost use Rattle.rp_lang.specs.Programs.{Prog};
ghost use Rattle.schedule_fmt.specs.Texts.{Sched, schedule_text};
ghost use Rattle.schedule_fmt.specs.Schedules.{HasScheduleText, LineTyped, Each, IsText, IsFaulty};

/// A text is that of one schedule at most.
pub fn a_text_has_one_schedule()
    ensures { (p : Prog) (s t : Sched) (bytes : List ℕ) → IsText p s bytes → IsText p t bytes → s ≡ t }
{}

/// A text has one faulty line at most, and none where it is that of a schedule.
pub fn a_text_has_one_fault()
    ensures one { (p : Prog) (bytes : List ℕ) (n m : ℕ) → IsFaulty p bytes n → IsFaulty p bytes m → n ≡ m }
    ensures no_schedule { (p : Prog) (bytes : List ℕ) (n : ℕ) (s : Sched) → IsFaulty p bytes n → IsText p s bytes → ⊥ }
{}

/// What is written for a schedule means that schedule, where each constructor in its arguments makes the type that its
/// place asks and each new value is an identifier. So `read` of what `write` gives is that schedule, within the limits.
pub fn written_schedules_are_read()
    ensures { (p : Prog) (s : Sched) → HasScheduleText p s → Each (LineTyped p) s.labels → IsText p s (schedule_text p s) }
{}
