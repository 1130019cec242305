//! Commands on a file, one behind another: how each ends, and what the file holds.
use super::*;
use patch_files::{Barriers, Reclaims, check_file, make_file, run_file, serve_file, upgrade_file};
use std::fs;
use std::fs::OpenFile;
use std::os::unix::fs::FileExt;
use std::rt::Files;
use std::sync::Wait;
use std::thread::Threads;

/// What is done with a file.
#[derive(Clone, Copy)]
pub(super) enum Deed<'a> {
    Make(Geometry),
    Run(&'a str),
    /// The same with one sync behind all writes.
    RunLoose(&'a str),
    /// The lines of so many writers run on threads.
    Serve(u32, &'a str),
    ServeLoose(u32, &'a str),
    Check,
    Upgrade,
}

pub(super) type Turn<'a> = (Deed<'a>, End);

fn run_on<F: FileExt + OpenFile + Drop, H: Files<File = F>>(
    rt: &H,
    alloc: Global,
    path: &str,
    script: &str,
    barriers: Barriers,
    out: &mut Sink<Vec<u8>>,
) -> Status {
    let mut source = Source::new(script.as_bytes());
    run_file(
        rt,
        alloc,
        &mut source,
        out,
        path,
        barriers,
        Reclaims::ByHand,
        &mut Quiet,
    )
}

fn serve_on<
    F: FileExt + OpenFile + Drop + Send,
    H: Files<File = F> + Threads + Wait + Abort + Sync,
>(
    rt: &H,
    alloc: Global,
    path: &str,
    writers: u32,
    script: &str,
    barriers: Barriers,
    out: &mut Sink<Vec<u8>>,
) -> Status {
    assert!(rt; 0 < writers && writers <= 8);
    let mut source = Source::new(script.as_bytes());
    serve_file(rt, alloc, &mut source, out, path, barriers, writers)
}

// How the command ends on the file of this path.
fn end_of<F: FileExt + OpenFile + Drop + Send, H: Files<File = F> + Threads + Wait + Abort + Sync>(
    rt: &H,
    alloc: Global,
    path: &str,
    deed: &Deed<'_>,
    out: &mut Sink<Vec<u8>>,
) -> Status {
    match deed {
        Deed::Make(geometry) => make_file(rt, alloc, out, path, *geometry),
        Deed::Run(script) => run_on(rt, alloc, path, script, Barriers::On, out),
        Deed::RunLoose(script) => run_on(rt, alloc, path, script, Barriers::Off, out),
        Deed::Serve(writers, script) => {
            serve_on(rt, alloc, path, *writers, script, Barriers::On, out)
        }
        Deed::ServeLoose(writers, script) => {
            serve_on(rt, alloc, path, *writers, script, Barriers::Off, out)
        }
        Deed::Check => check_file(rt, alloc, out, path),
        Deed::Upgrade => upgrade_file(rt, alloc, out, path),
    }
}

/// The commands end so, one behind another.
pub(super) fn follow<
    F: FileExt + OpenFile + Drop + Send,
    H: Files<File = F> + Threads + Wait + Abort + Sync,
>(rt: &H, alloc: Global, path: &str, turns: &[Turn<'_>]) {
    for (deed, end) in turns {
        let mut out = Sink::new(Vec::new(alloc));
        let status = end_of(rt, alloc, path, deed, &mut out);
        expect_end(rt, status, out.into_inner().as_slice(), *end);
    }
}

/// The same on a file that isn't there at first, nor at last.
pub(super) fn follow_anew<
    F: FileExt + OpenFile + Drop + Send,
    H: Files<File = F> + Threads + Wait + Abort + Sync,
>(rt: &H, alloc: Global, path: &str, turns: &[Turn<'_>]) -> Result<(), Fail> {
    let _old = fs::remove_file(rt, path);
    follow(rt, alloc, path, turns);
    fs::remove_file(rt, path)?;
    Ok(())
}

/// Bytes, and where in the file they stand.
pub(super) type Piece<'a> = (usize, &'a [u8]);

/// Lays the bytes over those from this place on.
pub(super) fn lay(bytes: &mut [u8], from: usize, piece: &[u8]) {
    for (at, byte) in piece.iter().enumerate() {
        if let Some(place) = bytes.get_mut(from.saturating_add(at)) {
            *place = *byte;
        }
    }
}

/// The file has so many bytes, which are these pieces over zeros.
pub(super) fn expect_bytes(
    rt: &impl Abort,
    files: &HostRuntime,
    path: &str,
    length: usize,
    pieces: &[Piece<'_>],
) {
    let mut want = vec![in files.alloc(); 0; length].expect(rt, "memory for bytes");
    for (from, piece) in pieces {
        lay(&mut want, *from, piece);
    }
    let held = fs::read(files, path).expect(rt, "a file that is read");
    let same = held.as_slice() == want.as_slice();
    expect_eq(rt, &(path, held.len(), same), &(path, length, true));
    drop(held);
    drop(want);
}

/// How many bytes a file of [`SMALL`] has.
pub(super) const LENGTH: usize = 143_360;

pub(super) const MADE: End = End(Status::Done, 0, "made 35\n");

pub(super) const OK: End = End(Status::Done, 0, "ok\n");

pub(super) const UPGRADED: End = End(Status::Done, 0, "upgraded\n");

pub(super) const PUT: &str = r#"{"op":"put","key":"k","hex":"0102"}"#;

/// What a check writes behind that put.
pub(super) const HELD: End = End(
    Status::Done,
    0,
    "entry 6b 2\nextent 0 0 19 19\nextent 1 0 0 0\nclean\n",
);
