//! The texts and codes of refusals.
use super::*;

const TOLD: &str = "\
Geometry: 46 Geometry
OutOfMemory: 1 OutOfMemory
BadSuper: 47 BadSuper
FileSize: 5 FileSize
BadPointer: 48 BadPointer
BadSlot 7: 49 BadSlot
BadFrame 8: 50 BadFrame
DuplicateKey 9: 51 DuplicateKey
OutOfMemory: 1 OutOfMemory
KeyLength: 39 KeyLength
ValueLength: 40 ValueLength
IndexFull: 42 IndexFull
NoSpace: 43 NoSpace
NumbersSpent: 17 NumbersSpent
TooManyLive: 18 TooManyLive
OutOfMemory: 1 OutOfMemory
KeyLength: 39 KeyLength
OutOfMemory: 1 OutOfMemory
KeyLength: 39 KeyLength
NoKey: 41 NoKey
NumbersSpent: 17 NumbersSpent
TooManyLive: 18 TooManyLive
OutOfMemory: 1 OutOfMemory
NoSuchExtent: 34 NoSuchExtent
EmptyExtent: 45 EmptyExtent
OpenExtent: 44 OpenExtent
GenerationSpent: 38 GenerationSpent
NoSpace: 43 NoSpace
NumbersSpent: 17 NumbersSpent
TooManyLive: 18 TooManyLive
OutOfMemory: 1 OutOfMemory
AlreadyVersion2: 61 AlreadyVersion2
NumbersSpent: 17 NumbersSpent
TooManyLive: 18 TooManyLive
OutOfMemory: 1 OutOfMemory
";

// The refusal's text, and the number and the name of its kind.
fn tell<R: Refuses + Copy + Display>(told: &mut String, refusal: R) -> Result<(), AllocError> {
    let code = refusal.code();
    let name = refusal.name();
    writeln!(told, "{refusal}: {code} {name}")
}

fn tell_opening(told: &mut String) -> Result<(), AllocError> {
    tell(told, MakeRefusal::Geometry)?;
    tell(told, MakeRefusal::OutOfMemory)?;
    for fault in [
        OpenFault::BadSuper,
        OpenFault::FileSize,
        OpenFault::BadPointer,
        OpenFault::BadSlot(7),
        OpenFault::BadFrame(8),
        OpenFault::DuplicateKey(9),
        OpenFault::OutOfMemory,
    ] {
        tell(told, fault)?;
    }
    Ok(())
}

fn tell_puts(told: &mut String) -> Result<(), AllocError> {
    for refusal in [
        PutRefusal::KeyLength,
        PutRefusal::ValueLength,
        PutRefusal::IndexFull,
        PutRefusal::NoSpace,
        PutRefusal::NumbersSpent,
        PutRefusal::TooManyLive,
        PutRefusal::OutOfMemory,
    ] {
        tell(told, refusal)?;
    }
    Ok(())
}

fn tell_keys(told: &mut String) -> Result<(), AllocError> {
    tell(told, GetRefusal::KeyLength)?;
    tell(told, GetRefusal::OutOfMemory)?;
    for refusal in [
        DeleteRefusal::KeyLength,
        DeleteRefusal::NoKey,
        DeleteRefusal::NumbersSpent,
        DeleteRefusal::TooManyLive,
        DeleteRefusal::OutOfMemory,
    ] {
        tell(told, refusal)?;
    }
    Ok(())
}

fn tell_reclaims(told: &mut String) -> Result<(), AllocError> {
    for refusal in [
        ReclaimRefusal::NoSuchExtent,
        ReclaimRefusal::EmptyExtent,
        ReclaimRefusal::OpenExtent,
        ReclaimRefusal::GenerationSpent,
        ReclaimRefusal::NoSpace,
        ReclaimRefusal::NumbersSpent,
        ReclaimRefusal::TooManyLive,
        ReclaimRefusal::OutOfMemory,
    ] {
        tell(told, refusal)?;
    }
    Ok(())
}

fn tell_upgrades(told: &mut String) -> Result<(), AllocError> {
    tell(told, UpgradeRefusal::AlreadyVersion2)?;
    tell(told, UpgradeRefusal::NumbersSpent)?;
    tell(told, UpgradeRefusal::TooManyLive)?;
    tell(told, UpgradeRefusal::OutOfMemory)
}

#[test]
fn refusals_tell_what_they_are(rt: HostRuntime) -> Result<(), Fail> {
    let mut told = String::new(rt.alloc());
    tell_opening(&mut told)?;
    tell_puts(&mut told)?;
    tell_keys(&mut told)?;
    tell_reclaims(&mut told)?;
    tell_upgrades(&mut told)?;
    expect_equal(&rt, "told", told.as_str(), TOLD);
    Ok(())
}
