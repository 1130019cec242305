//! Readers that fail in the middle, by an error of each kind: the replay ends there, and the error that is noted is the reader's own.
use super::{ANSWERS, End, SCRIPT, done, end_of, unread};
use crate::tests::expect_eq;
use patch_replay::{Sink, Source};
use std::alloc::Global;
use std::io;
use std::io::{Error, ErrorKind, Read};
use std::process::Abort;

/// All kinds of errors but that of a read which was interrupted.
static KINDS: [ErrorKind; 41] = [
    ErrorKind::NotFound,
    ErrorKind::PermissionDenied,
    ErrorKind::ConnectionRefused,
    ErrorKind::ConnectionReset,
    ErrorKind::HostUnreachable,
    ErrorKind::NetworkUnreachable,
    ErrorKind::ConnectionAborted,
    ErrorKind::NotConnected,
    ErrorKind::AddrInUse,
    ErrorKind::AddrNotAvailable,
    ErrorKind::NetworkDown,
    ErrorKind::BrokenPipe,
    ErrorKind::AlreadyExists,
    ErrorKind::WouldBlock,
    ErrorKind::NotADirectory,
    ErrorKind::IsADirectory,
    ErrorKind::DirectoryNotEmpty,
    ErrorKind::ReadOnlyFilesystem,
    ErrorKind::FilesystemLoop,
    ErrorKind::StaleNetworkFileHandle,
    ErrorKind::InvalidInput,
    ErrorKind::InvalidData,
    ErrorKind::TimedOut,
    ErrorKind::WriteZero,
    ErrorKind::StorageFull,
    ErrorKind::NotSeekable,
    ErrorKind::QuotaExceeded,
    ErrorKind::FileTooLarge,
    ErrorKind::ResourceBusy,
    ErrorKind::ExecutableFileBusy,
    ErrorKind::Deadlock,
    ErrorKind::CrossesDevices,
    ErrorKind::TooManyLinks,
    ErrorKind::InvalidFilename,
    ErrorKind::ArgumentListTooLong,
    ErrorKind::Unsupported,
    ErrorKind::UnexpectedEof,
    ErrorKind::OutOfMemory,
    ErrorKind::InProgress,
    ErrorKind::Other,
    ErrorKind::Uncategorized,
];

/// An error number of the system that says a read was interrupted, and the highest one that there is.
const INTERRUPTED: i32 = 4;

const LAST_NUMBER: i32 = 133;

/// Gives its bytes in pieces, and fails once, behind the first of them. Whoever reads on gets all of them.
#[derive(Drop)]
struct Torn {
    left: &'static [u8],
    error: Error,
    calls: u32,
}

impl Read for Torn {
    fn read(&mut self, buf: &mut [u8]) -> io::Result<usize> {
        self.calls = self.calls.saturating_add(1);
        if self.calls == 2 {
            return Err(self.error);
        }
        let count = 100.min(buf.len());
        self.left.read(&mut buf[..count])
    }
}

/// What an error tells.
fn told(rt: &impl Abort, alloc: Global, error: &Error) -> (ErrorKind, Option<i32>, String) {
    let words = format!(in alloc; "{error}").expect(rt, "memory for words");
    (error.kind(), error.raw_os_error(), words)
}

/// A replay from a reader that fails so ends so, and this is written. The note is the error, or there is none.
fn expect_torn(rt: &impl Abort, alloc: Global, error: Error, end: End, text: &str) {
    let own = told(rt, alloc, &error);
    let mut reader = Source::new(Torn {
        left: SCRIPT.as_bytes(),
        error,
        calls: 0,
    });
    let mut writer = Sink::new(Vec::new(alloc));
    let ended = end_of(alloc, &mut reader, &mut writer);
    expect_eq(rt, &(&own, &ended), &(&own, &end));
    expect_eq(rt, &writer.into_inner().as_slice(), &text.as_bytes());
    if let Some(noted) = reader.failure() {
        expect_eq(rt, &told(rt, alloc, noted), &own);
    }
}

fn expect_stopped(rt: &impl Abort, alloc: Global, error: Error) {
    expect_torn(rt, alloc, error, unread(2, true), "fault Read\n");
}

#[test]
fn an_error_of_each_kind_ends_the_replay_and_is_noted(rt: HostRuntime) {
    for kind in &KINDS {
        expect_stopped(&rt, rt.alloc(), Error::from(*kind));
        expect_stopped(&rt, rt.alloc(), Error::new(*kind, "the line is cut"));
    }
    for number in 0..LAST_NUMBER + 1 {
        if number != INTERRUPTED {
            expect_stopped(&rt, rt.alloc(), Error::from_raw_os_error(number));
        }
    }
}

// The script has two pieces, and then its end is read: three calls beside the one that was interrupted.
#[test]
fn a_read_that_was_interrupted_is_made_again(rt: HostRuntime) {
    for error in [
        Error::from(ErrorKind::Interrupted),
        Error::new(ErrorKind::Interrupted, "a signal came"),
        Error::from_raw_os_error(INTERRUPTED),
    ] {
        expect_torn(&rt, rt.alloc(), error, done(4), ANSWERS);
    }
}
