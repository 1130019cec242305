//! The texts and names of refusals.
use super::*;
use std::fmt;

// Writes a line for each: the text of a refusal, and the code, the name and the number of what is answered in its place.
fn tell_each<R>(rt: &impl Abort, told: &mut String, refusals: &[R])
where
    R: Refuses + Copy + fmt::Display,
{
    for refusal in refusals {
        let Refusal { kind, number } = refusal.refusal();
        let number = number.unwrap_or(0);
        let line = writeln!(told, "{refusal}: {} {kind} {number}", kind.code());
        assert!(rt; line.is_ok());
    }
}

const CREATE: [CreateRefusal; 8] = [
    CreateRefusal::NoSuchBlock,
    CreateRefusal::NotResident(BlockNo(9)),
    CreateRefusal::EmptyPatch,
    CreateRefusal::OutOfBlock,
    CreateRefusal::UnknownDependency,
    CreateRefusal::NumbersSpent,
    CreateRefusal::TooManyLive,
    CreateRefusal::OutOfMemory,
];

const MERGE: [MergeRefusal; 8] = [
    MergeRefusal::Unknown,
    MergeRefusal::NotInMemory(PatchNo(3)),
    MergeRefusal::Same,
    MergeRefusal::OtherBlock,
    MergeRefusal::Hard(PatchNo(4)),
    MergeRefusal::Apart,
    MergeRefusal::WouldCycle(PatchNo(5)),
    MergeRefusal::OutOfMemory,
];

const SEND: [SendRefusal; 5] = [
    SendRefusal::NoSuchBlock,
    SendRefusal::NotResident(BlockNo(9)),
    SendRefusal::AlreadyInFlight,
    SendRefusal::NothingReady,
    SendRefusal::OutOfMemory,
];

const TAKE: [TakeRefusal; 6] = [
    TakeRefusal::Unknown,
    TakeRefusal::Durable,
    TakeRefusal::InFlight,
    TakeRefusal::Hard,
    TakeRefusal::AlreadyTaken,
    TakeRefusal::DependentApplied(PatchNo(6)),
];

const FLUSH: [FlushRefusal; 3] = [
    FlushRefusal::DeviceGaveUp(BlockNo(7)),
    FlushRefusal::SyncFailed,
    FlushRefusal::OutOfMemory,
];

const READ: [ReadRefusal; 3] = [
    ReadRefusal::NoSuchBlock,
    ReadRefusal::NotResident(BlockNo(9)),
    ReadRefusal::OutOfBlock,
];

const VIEW: [ViewRefusal; 2] = [
    ViewRefusal::NoSuchBlock,
    ViewRefusal::NotResident(BlockNo(9)),
];

const EVICT: [EvictRefusal; 3] = [
    EvictRefusal::NoSuchBlock,
    EvictRefusal::NotResident(BlockNo(9)),
    EvictRefusal::Live,
];

#[test]
fn texts_of_refusals(rt: HostRuntime) {
    let mut told = String::new(rt.alloc());
    tell_each(&rt, &mut told, &CREATE);
    tell_each(&rt, &mut told, &MERGE);
    tell_each(&rt, &mut told, &SEND);
    tell_each(&rt, &mut told, &TAKE);
    tell_each(&rt, &mut told, &FLUSH);
    tell_each(&rt, &mut told, &READ);
    tell_each(&rt, &mut told, &VIEW);
    tell_each(&rt, &mut told, &EVICT);
    tell_each(&rt, &mut told, &[Live]);
    let gave_up = DeviceGaveUp(BlockNo(8));
    let line = writeln!(
        &mut told,
        "{}, {Fault}, {gave_up}",
        AdmitRefusal::IsResident
    )
    .is_ok();
    expect_equal(&rt, "texts", (line, told.as_str()), (true, TEXTS));
    drop(told);
}

const TEXTS: &str = "\
NoSuchBlock: 2 NoSuchBlock 0
NotResident 9: 63 NotResident 9
EmptyPatch: 14 EmptyPatch 0
OutOfBlock: 15 OutOfBlock 0
UnknownDependency: 16 UnknownDependency 0
NumbersSpent: 17 NumbersSpent 0
TooManyLive: 18 TooManyLive 0
OutOfMemory: 1 OutOfMemory 0
Unknown: 6 Unknown 0
NotInMemory 3: 19 NotInMemory 3
Same: 20 Same 0
OtherBlock: 21 OtherBlock 0
Hard 4: 9 Hard 4
Apart: 22 Apart 0
WouldCycle 5: 23 WouldCycle 5
OutOfMemory: 1 OutOfMemory 0
NoSuchBlock: 2 NoSuchBlock 0
NotResident 9: 63 NotResident 9
AlreadyInFlight: 24 AlreadyInFlight 0
NothingReady: 25 NothingReady 0
OutOfMemory: 1 OutOfMemory 0
Unknown: 6 Unknown 0
Durable: 7 Durable 0
InFlight: 8 InFlight 0
Hard: 9 Hard 0
AlreadyTaken: 10 AlreadyTaken 0
DependentApplied 6: 11 DependentApplied 6
DeviceGaveUp 7: 57 DeviceGaveUp 7
SyncFailed: 64 SyncFailed 0
OutOfMemory: 1 OutOfMemory 0
NoSuchBlock: 2 NoSuchBlock 0
NotResident 9: 63 NotResident 9
OutOfBlock: 15 OutOfBlock 0
NoSuchBlock: 2 NoSuchBlock 0
NotResident 9: 63 NotResident 9
NoSuchBlock: 2 NoSuchBlock 0
NotResident 9: 63 NotResident 9
Live: 62 Live 0
Live: 62 Live 0
IsResident, Fault, DeviceGaveUp 8
";

// The codes and the names of refusals.
static NAMES: [(u8, &str); 9] = [
    (18, "TooManyLive"),
    (22, "Apart"),
    (25, "NothingReady"),
    (7, "Durable"),
    (15, "OutOfBlock"),
    (1, "OutOfMemory"),
    (57, "DeviceGaveUp"),
    (2, "NoSuchBlock"),
    (3, "Fault"),
];

#[test]
fn names_and_codes_of_refusals(rt: HostRuntime) {
    let create = (
        CreateRefusal::TooManyLive.code(),
        CreateRefusal::TooManyLive.name(),
    );
    let merge = (MergeRefusal::Apart.code(), MergeRefusal::Apart.name());
    let send = (
        SendRefusal::NothingReady.code(),
        SendRefusal::NothingReady.name(),
    );
    let take = (TakeRefusal::Durable.code(), TakeRefusal::Durable.name());
    let read = (
        ReadRefusal::OutOfBlock.code(),
        ReadRefusal::OutOfBlock.name(),
    );
    let flush = (
        FlushRefusal::OutOfMemory.code(),
        FlushRefusal::OutOfMemory.name(),
    );
    let gave_up = (
        DeviceGaveUp(BlockNo(1)).code(),
        DeviceGaveUp(BlockNo(1)).name(),
    );
    let no_block = (
        ViewRefusal::NoSuchBlock.code(),
        ViewRefusal::NoSuchBlock.name(),
    );
    let fault = (Fault.code(), Fault.name());
    let got = [
        create, merge, send, take, read, flush, gave_up, no_block, fault,
    ];
    expect_equal(&rt, "codes and names", got.as_slice(), NAMES.as_slice());
}
