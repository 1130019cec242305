//! The texts and codes of refusals.
use super::*;
use patch_model::Refuses;
use std::alloc::AllocError;

const TOLD: &str = "\
NoSuchGroup: 27 NoSuchGroup
SameGroup: 28 SameGroup
Started: 29 Started
Sealed: 30 Sealed
Engaged: 31 Engaged
NotEngaged: 32 NotEngaged
TooManyGroups: 33 TooManyGroups
OutOfMemory: 1 OutOfMemory
NoSuchGroup: 27 NoSuchGroup
DeviceGaveUp 5: 57 DeviceGaveUp
SyncFailed: 64 SyncFailed
OutOfMemory: 1 OutOfMemory
";

fn tell_call(told: &mut String, refusal: GroupRefusal) -> Result<(), AllocError> {
    let code = refusal.code();
    let name = refusal.name();
    writeln!(told, "{refusal}: {code} {name}")
}

fn tell_sync(told: &mut String, refusal: SyncRefusal) -> Result<(), AllocError> {
    let code = refusal.code();
    let name = refusal.name();
    writeln!(told, "{refusal}: {code} {name}")
}

fn tell_calls(told: &mut String) -> Result<(), AllocError> {
    for refusal in [
        GroupRefusal::NoSuchGroup,
        GroupRefusal::SameGroup,
        GroupRefusal::Started,
        GroupRefusal::Sealed,
        GroupRefusal::Engaged,
        GroupRefusal::NotEngaged,
        GroupRefusal::TooManyGroups,
        GroupRefusal::OutOfMemory,
    ] {
        tell_call(told, refusal)?;
    }
    Ok(())
}

fn tell_syncs(told: &mut String) -> Result<(), AllocError> {
    tell_sync(told, SyncRefusal::NoSuchGroup)?;
    tell_sync(told, SyncRefusal::DeviceGaveUp(BlockNo(5)))?;
    tell_sync(told, SyncRefusal::SyncFailed)?;
    tell_sync(told, SyncRefusal::OutOfMemory)
}

#[test]
fn refusals_tell_what_they_are(rt: HostRuntime) -> Result<(), Fail> {
    let mut told = String::new(rt.alloc());
    tell_calls(&mut told)?;
    tell_syncs(&mut told)?;
    expect_equal(&rt, "told", told.as_str(), TOLD);
    Ok(())
}
