// The laws of every run of a module of 1.0, each as the contract of a function that does nothing.

ghost use Rattle.meaning_core1.specs.RunLaws.{GoesOn1, DepthGrows1, AnswersGrow1, CapturesNothing1, IsNeverFull1, ReplaysTrace1, ReplaysDepth1, FitsUnderAnyAnswers1};

/// With more turns a trace only goes on, the depth does not fall, and no answer to a growth changes.
pub fn runs_go_on()
    ensures trace { GoesOn1 }
    ensures depth { DepthGrows1 }
    ensures answers { AnswersGrow1 }
{}

/// No run captures an exception, and none shows a full store of captures: that is read from the events of a lowered module.
pub fn runs_capture_nothing()
    ensures captures { CapturesNothing1 }
    ensures full { IsNeverFull1 }
{}

/// A run is the same under its own answers to growths, whatever follows them.
pub fn runs_replay()
    ensures trace { ReplaysTrace1 }
    ensures depth { ReplaysDepth1 }
{}

/// A script that fits does so whatever its answers to growths.
pub fn scripts_fit_under_any_answers()
    ensures { FitsUnderAnyAnswers1 }
{}
