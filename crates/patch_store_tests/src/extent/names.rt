//! The texts and codes of refusals.
use super::*;
use patch_model::Refuses;
use std::alloc::AllocError;
use std::fmt::Display;

const TOLD: &str = "\
BadPointer: 48 BadPointer
OutOfMemory: 1 OutOfMemory
NoSuchExtent: 34 NoSuchExtent
ExtentFull: 35 ExtentFull
UnknownDependency: 16 UnknownDependency
NumbersSpent: 17 NumbersSpent
TooManyLive: 18 TooManyLive
OutOfMemory: 1 OutOfMemory
NoSuchExtent: 34 NoSuchExtent
OldGeneration: 37 OldGeneration
PastPointer: 36 PastPointer
OutOfMemory: 1 OutOfMemory
NoSuchExtent: 34 NoSuchExtent
GenerationSpent: 38 GenerationSpent
UnknownDependency: 16 UnknownDependency
NumbersSpent: 17 NumbersSpent
TooManyLive: 18 TooManyLive
OutOfMemory: 1 OutOfMemory
";

const FAULTS: [ExtentsFault; 2] = [ExtentsFault::BadPointer, ExtentsFault::OutOfMemory];

const APPENDS: [AppendRefusal; 6] = [
    AppendRefusal::NoSuchExtent,
    AppendRefusal::ExtentFull,
    AppendRefusal::UnknownDependency,
    AppendRefusal::NumbersSpent,
    AppendRefusal::TooManyLive,
    AppendRefusal::OutOfMemory,
];

const READS: [ReadRefusal; 4] = [
    ReadRefusal::NoSuchExtent,
    ReadRefusal::OldGeneration,
    ReadRefusal::PastPointer,
    ReadRefusal::OutOfMemory,
];

const RESETS: [ResetRefusal; 6] = [
    ResetRefusal::NoSuchExtent,
    ResetRefusal::GenerationSpent,
    ResetRefusal::UnknownDependency,
    ResetRefusal::NumbersSpent,
    ResetRefusal::TooManyLive,
    ResetRefusal::OutOfMemory,
];

// The refusal's text, and the number and the name of its kind.
fn tell<R: Refuses + Copy + Display>(told: &mut String, refusal: R) -> Result<(), AllocError> {
    let code = refusal.code();
    let name = refusal.name();
    writeln!(told, "{refusal}: {code} {name}")
}

fn tell_each<R>(told: &mut String, refusals: &[R]) -> Result<(), AllocError>
where
    R: Refuses + Copy + Display,
{
    for refusal in refusals {
        tell(told, *refusal)?;
    }
    Ok(())
}

fn tell_all(told: &mut String) -> Result<(), AllocError> {
    tell_each(told, &FAULTS)?;
    tell_each(told, &APPENDS)?;
    tell_each(told, &READS)?;
    tell_each(told, &RESETS)
}

#[test]
fn refusals_tell_what_they_are(rt: HostRuntime) -> Result<(), Fail> {
    let mut told = String::new(rt.alloc());
    tell_all(&mut told)?;
    expect_equal(&rt, "told", told.as_str(), TOLD);
    Ok(())
}
