//! The names of refusals, and spans exchanged.
use super::expect_eq;
use patch_model::{PatchNo, RefusalKind, Refuses};
use patch_view::{PutBackRefusal, TakeRefusal, swap_span};
use std::alloc::{AllocError, Global};
use std::fmt::Display;
use std::process::Abort;
use std::test::Fail;

type Names<'a> = (RefusalKind, u8, &'a str);

fn expect_names(rt: &impl Abort, refusal: impl Refuses + Copy, want: Names) {
    let names = (refusal.kind(), refusal.code(), refusal.name());
    expect_eq(rt, &names, &want);
}

fn expect_text(
    rt: &impl Abort,
    alloc: Global,
    refusal: &impl Display,
    text: &str,
) -> Result<(), AllocError> {
    let told = format!(in alloc; "{refusal}")?;
    expect_eq(rt, &told.as_str(), &text);
    Ok(())
}

const TEXTS_OF_TAKES: [(TakeRefusal, &'static str); 5] = [
    (TakeRefusal::Unknown, "Unknown"),
    (TakeRefusal::InFlight, "InFlight"),
    (TakeRefusal::Hard, "Hard"),
    (TakeRefusal::AlreadyTaken, "AlreadyTaken"),
    (
        TakeRefusal::DependentApplied(PatchNo(3)),
        "DependentApplied 3",
    ),
];

const TEXTS_OF_PUT_BACKS: [(PutBackRefusal, &'static str); 2] = [
    (PutBackRefusal::NotTaken, "NotTaken"),
    (
        PutBackRefusal::DependencyTaken(PatchNo(70_000)),
        "DependencyTaken 70000",
    ),
];

#[test]
fn refusals_have_their_texts(rt: HostRuntime) -> Result<(), Fail> {
    for (refusal, text) in TEXTS_OF_TAKES {
        expect_text(&rt, rt.alloc(), &refusal, text)?;
    }
    for (refusal, text) in TEXTS_OF_PUT_BACKS {
        expect_text(&rt, rt.alloc(), &refusal, text)?;
    }
    Ok(())
}

#[test]
fn refusals_of_takes_have_their_names(rt: HostRuntime) {
    let applied = TakeRefusal::DependentApplied(PatchNo(3));
    expect_names(
        &rt,
        TakeRefusal::Unknown,
        (RefusalKind::Unknown, 6, "Unknown"),
    );
    expect_names(
        &rt,
        TakeRefusal::InFlight,
        (RefusalKind::InFlight, 8, "InFlight"),
    );
    expect_names(&rt, TakeRefusal::Hard, (RefusalKind::Hard, 9, "Hard"));
    expect_names(
        &rt,
        TakeRefusal::AlreadyTaken,
        (RefusalKind::AlreadyTaken, 10, "AlreadyTaken"),
    );
    expect_names(
        &rt,
        applied,
        (RefusalKind::DependentApplied, 11, "DependentApplied"),
    );
}

#[test]
fn refusals_of_put_backs_have_their_names(rt: HostRuntime) {
    let below = PutBackRefusal::DependencyTaken(PatchNo(3));
    expect_names(
        &rt,
        PutBackRefusal::NotTaken,
        (RefusalKind::NotTaken, 12, "NotTaken"),
    );
    expect_names(
        &rt,
        below,
        (RefusalKind::DependencyTaken, 13, "DependencyTaken"),
    );
}

#[test]
fn spans_are_exchanged(rt: HostRuntime) {
    let mut buffer = [1, 2, 3, 4];
    let mut saved = [8, 9];
    swap_span(&mut buffer, 1, &mut saved);
    expect_eq(&rt, &(buffer, saved), &([1, 8, 9, 4], [2, 3]));
}
