//! Refusals, by their numbers and names.
ghost use Rattle.std.specs.Prelude.{◌≡◌, Some};
ghost use Rattle.patch_model.specs.declared.refusals.RefusalKind.TheVariants as kind;
ghost use Rattle.patch_model.specs.Refusal.{code_of, name_of};
ghost use Rattle.patch_model.specs.Refusing.{bare, with_number};

use crate::refuses::Refuses;
use std::alloc::{AllocError, AllocFailed};
use std::fmt;
use thiserror::Error;

/// Of what kind a refusal is. Each refusal of any crate has one of these.
#[derive(Clone, Copy, Debug, PartialEq, Eq)]
pub enum RefusalKind {
    OutOfMemory = 1,
    NoSuchBlock = 2,
    Fault = 3,
    Disk = 4,
    FileSize = 5,
    Unknown = 6,
    Durable = 7,
    InFlight = 8,
    Hard = 9,
    AlreadyTaken = 10,
    DependentApplied = 11,
    NotTaken = 12,
    DependencyTaken = 13,
    EmptyPatch = 14,
    OutOfBlock = 15,
    UnknownDependency = 16,
    NumbersSpent = 17,
    TooManyLive = 18,
    NotInMemory = 19,
    Same = 20,
    OtherBlock = 21,
    Apart = 22,
    WouldCycle = 23,
    AlreadyInFlight = 24,
    NothingReady = 25,
    Stranger = 26,
    NoSuchGroup = 27,
    SameGroup = 28,
    Started = 29,
    Sealed = 30,
    Engaged = 31,
    NotEngaged = 32,
    TooManyGroups = 33,
    NoSuchExtent = 34,
    ExtentFull = 35,
    PastPointer = 36,
    OldGeneration = 37,
    GenerationSpent = 38,
    KeyLength = 39,
    ValueLength = 40,
    NoKey = 41,
    IndexFull = 42,
    NoSpace = 43,
    OpenExtent = 44,
    EmptyExtent = 45,
    Geometry = 46,
    BadSuper = 47,
    BadPointer = 48,
    BadSlot = 49,
    BadFrame = 50,
    DuplicateKey = 51,
    BadMagic = 52,
    BadKey = 53,
    BadValue = 54,
    Short = 55,
    NotZero = 56,
    DeviceGaveUp = 57,
    Disagreed = 58,
    ReadBack = 59,
    NoThread = 60,
    AlreadyVersion2 = 61,
    Live = 62,
    NotResident = 63,
    SyncFailed = 64,
}

/// What any refusal comes to: its kind, and the number that goes with it.
#[derive(Clone, Copy, Debug, PartialEq, Eq)]
pub struct Refusal {
    pub kind: RefusalKind,
    pub number: Option<u32>,
}

impl RefusalKind {
    /// A refusal of this kind that carries no number.
    pub fn bare(self) -> Refusal
        ensures { result ≡ bare self }
    {
        Refusal {
            kind: self,
            number: None,
        }
    }

    /// A refusal of this kind that carries this number.
    pub fn with_number(self, number: u32) -> Refusal
        ensures { result ≡ with_number self number }
    {
        Refusal {
            kind: self,
            number: Some(number),
        }
    }

    /// The number of the refusal, from 1.
    pub fn code(self) -> u8
        ensures { result ≡ code_of self }
    {
        self as u8
    }

    /// The name of the refusal, as the program prints it.
    pub fn name(self) -> &'static str
        ensures { result.now ≡ name_of self }
    {
        match self {
            RefusalKind::OutOfMemory => "OutOfMemory",
            RefusalKind::NoSuchBlock => "NoSuchBlock",
            RefusalKind::Fault => "Fault",
            RefusalKind::Disk => "Disk",
            RefusalKind::FileSize => "FileSize",
            RefusalKind::Unknown => "Unknown",
            RefusalKind::Durable => "Durable",
            RefusalKind::InFlight => "InFlight",
            RefusalKind::Hard => "Hard",
            RefusalKind::AlreadyTaken => "AlreadyTaken",
            RefusalKind::DependentApplied => "DependentApplied",
            RefusalKind::NotTaken => "NotTaken",
            RefusalKind::DependencyTaken => "DependencyTaken",
            RefusalKind::EmptyPatch => "EmptyPatch",
            RefusalKind::OutOfBlock => "OutOfBlock",
            RefusalKind::UnknownDependency => "UnknownDependency",
            RefusalKind::NumbersSpent => "NumbersSpent",
            RefusalKind::TooManyLive => "TooManyLive",
            RefusalKind::NotInMemory => "NotInMemory",
            RefusalKind::Same => "Same",
            RefusalKind::OtherBlock => "OtherBlock",
            RefusalKind::Apart => "Apart",
            RefusalKind::WouldCycle => "WouldCycle",
            RefusalKind::AlreadyInFlight => "AlreadyInFlight",
            RefusalKind::NothingReady => "NothingReady",
            RefusalKind::Stranger => "Stranger",
            RefusalKind::NoSuchGroup => "NoSuchGroup",
            RefusalKind::SameGroup => "SameGroup",
            RefusalKind::Started => "Started",
            RefusalKind::Sealed => "Sealed",
            RefusalKind::Engaged => "Engaged",
            RefusalKind::NotEngaged => "NotEngaged",
            RefusalKind::TooManyGroups => "TooManyGroups",
            RefusalKind::NoSuchExtent => "NoSuchExtent",
            RefusalKind::ExtentFull => "ExtentFull",
            RefusalKind::PastPointer => "PastPointer",
            RefusalKind::OldGeneration => "OldGeneration",
            RefusalKind::GenerationSpent => "GenerationSpent",
            RefusalKind::KeyLength => "KeyLength",
            RefusalKind::ValueLength => "ValueLength",
            RefusalKind::NoKey => "NoKey",
            RefusalKind::IndexFull => "IndexFull",
            RefusalKind::NoSpace => "NoSpace",
            RefusalKind::OpenExtent => "OpenExtent",
            RefusalKind::EmptyExtent => "EmptyExtent",
            RefusalKind::Geometry => "Geometry",
            RefusalKind::BadSuper => "BadSuper",
            RefusalKind::BadPointer => "BadPointer",
            RefusalKind::BadSlot => "BadSlot",
            RefusalKind::BadFrame => "BadFrame",
            RefusalKind::DuplicateKey => "DuplicateKey",
            RefusalKind::BadMagic => "BadMagic",
            RefusalKind::BadKey => "BadKey",
            RefusalKind::BadValue => "BadValue",
            RefusalKind::Short => "Short",
            RefusalKind::NotZero => "NotZero",
            RefusalKind::DeviceGaveUp => "DeviceGaveUp",
            RefusalKind::Disagreed => "Disagreed",
            RefusalKind::ReadBack => "ReadBack",
            RefusalKind::NoThread => "NoThread",
            RefusalKind::AlreadyVersion2 => "AlreadyVersion2",
            RefusalKind::Live => "Live",
            RefusalKind::NotResident => "NotResident",
            RefusalKind::SyncFailed => "SyncFailed",
        }
    }
}

impl fmt::Display for RefusalKind {
    ghost output = { λ k. Some (name_of k) };

    fn fmt<W: fmt::Write>(&self, f: &mut fmt::Formatter<W>) -> fmt::Result {
        f.write_str(self.name())
    }
}

/// There was no memory.
#[derive(Clone, Copy, Debug, PartialEq, Eq, Error)]
#[error("OutOfMemory")]
pub struct OutOfMemory;

impl Refuses for OutOfMemory {
    ghost cause = { λ _. bare kind.OutOfMemory };

    fn refusal(self) -> Refusal {
        RefusalKind::OutOfMemory.bare()
    }
}

impl Refuses for Refusal {
    ghost cause = { λ refusal. refusal };

    fn refusal(self) -> Refusal {
        self
    }
}

impl From<AllocError> for OutOfMemory {
    fn from(_: AllocError) -> OutOfMemory {
        OutOfMemory
    }
}

impl<T: Drop> From<AllocFailed<T>> for OutOfMemory {
    fn from(_: AllocFailed<T>) -> OutOfMemory {
        OutOfMemory
    }
}
