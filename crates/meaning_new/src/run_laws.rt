// The laws of every run, each as the contract of a function that does nothing.

ghost use Rattle.meaning_new.specs.RunLaws.{GoesOn, BoundedGoesOn, DepthGrows, AnswersGrow, CapturesGrow, IsNeverFull, CountsCaptures, FullAfterAll, ReplaysTrace, ReplaysDepth, IsBoundedRun, IsCut, FitsUnderAnyAnswers};

/// With more turns a trace only goes on, no count falls, and no answer to a growth changes.
pub fn runs_go_on()
    ensures trace { GoesOn }
    ensures bounded { BoundedGoesOn }
    ensures depth { DepthGrows }
    ensures answers { AnswersGrow }
    ensures captures { CapturesGrow }
{}

/// No run without bounds shows a full store of captures: that is read from the events of a lowered module.
pub fn runs_are_never_full()
    ensures { IsNeverFull }
{}

/// Where there is room for so many captures no more are made, and a full store is shown after exactly as many.
pub fn captures_are_counted()
    ensures few { CountsCaptures }
    ensures full { FullAfterAll }
{}

/// A run is the same under its own answers to growths, whatever follows them.
pub fn runs_replay()
    ensures trace { ReplaysTrace }
    ensures depth { ReplaysDepth }
{}

/// A bounded run is the run without bounds under its own answers, or it stopped at a capture too many; and it has what the
/// run without bounds has before the first mark that the bounds refuse.
pub fn bounds_only_cut()
    ensures own { IsBoundedRun }
    ensures cut { IsCut }
{}

/// A script that fits does so whatever its answers to growths.
pub fn scripts_fit_under_any_answers()
    ensures { FitsUnderAnyAnswers }
{}
