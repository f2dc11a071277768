//! The names of the kinds of step.
use art_step::StepKind;
use std::test::*;

#[test]
fn kinds_of_step_have_names(rt: HostRuntime) {
    let names = [
        (StepKind::Begin, "begin"),
        (StepKind::Read, "read"),
        (StepKind::Check, "check"),
        (StepKind::Upgrade, "upgrade"),
        (StepKind::Write, "write"),
        (StepKind::Commit, "commit"),
        (StepKind::Release, "release"),
        (StepKind::Claim, "claim"),
        (StepKind::Take, "take"),
        (StepKind::Give, "give"),
        (StepKind::Epoch, "epoch"),
        (StepKind::Pin, "pin"),
        (StepKind::Advance, "advance"),
        (StepKind::Watch, "watch"),
        (StepKind::Anchor, "anchor"),
    ];
    for (kind, name) in names {
        let shown = format!(in rt.alloc(); "{kind}").expect(&rt, "memory");
        assert_eq!(rt; shown.as_str(), name);
    }
}
