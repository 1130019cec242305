//! How far a long script is.
use super::weak::{ALL, WeakWriter, Well};
use super::*;
use patch_files::{Barriers, Progress, Reclaims, Ticker, make_file, run_file};
use std::fs;

// A ticker that was told of so many lines of 2,500 has shown this.
fn expect_shown(rt: &impl Abort, alloc: Global, lines: usize, want: &str) {
    let mut shown = Vec::new(alloc);
    tick(&mut Ticker::new(&mut shown), lines);
    expect_eq(rt, &shown.as_slice(), &want.as_bytes());
}

fn tick<P: Progress>(ticker: &mut P, lines: usize) {
    for line in 0..lines {
        ticker.answered(line.saturating_add(1), 2_500);
    }
    ticker.end(true);
    ticker.end(true);
}

#[test]
fn each_thousandth_line_is_shown_and_cleared(rt: HostRuntime) {
    expect_shown(&rt, rt.alloc(), 999, "");
    expect_shown(
        &rt,
        rt.alloc(),
        2_500,
        "\rfstch: line 1000 of 2500\rfstch: line 2000 of 2500\r\x1b[K",
    );
}

/// What somebody hears of a script.
#[derive(Clone, Copy, Debug, PartialEq, Eq)]
enum News {
    /// So many lines of all are answered.
    Answered(usize, usize),
    /// It is at its end, and all is saved.
    Saved,
    Stopped,
}

/// Somebody who notes what is heard.
#[derive(Drop)]
struct Listener {
    heard: Vec<News>,
    is_full: bool,
}

impl Listener {
    fn new(alloc: Global) -> Listener {
        Listener {
            heard: Vec::new(alloc),
            is_full: false,
        }
    }

    fn hear(&mut self, news: News) {
        if self.heard.push(news).is_err() {
            self.is_full = true;
        }
    }
}

impl Progress for Listener {
    fn answered(&mut self, lines: usize, all: usize) {
        self.hear(News::Answered(lines, all));
    }

    fn end(&mut self, is_saved: bool) {
        self.hear(if is_saved { News::Saved } else { News::Stopped });
    }
}

const THREE_LINES: &str = r#"{"op":"put","key":"a","hex":"01"}
{"op":"get","key":"a"}

{"op":"delete","key":"a"}"#;

// How many answers are taken, and what is heard: each line that was answered, and then the end.
static ROWS: [(u64, &[News]); 3] = [
    (
        u64::MAX,
        &[
            News::Answered(1, 3),
            News::Answered(2, 3),
            News::Answered(3, 3),
            News::Saved,
        ],
    ),
    (
        2,
        &[News::Answered(1, 3), News::Answered(2, 3), News::Stopped],
    ),
    (0, &[News::Stopped]),
];

// Whether the script runs on a device or on a file, the same is heard.
fn expect_heard(rt: &impl Abort, files: &HostRuntime, texts: u64, news: &[News]) {
    let alloc = files.alloc();
    let well = Well { texts, ..ALL };
    let (mut on_device, mut on_file) = (Listener::new(alloc), Listener::new(alloc));
    let mut device = new_device(rt, alloc);
    let mut out = Sink::new(WeakWriter::new(alloc, well));
    let mut source = Source::new(THREE_LINES.as_bytes());
    run_script(alloc, &mut source, &mut out, &mut device, &mut on_device);
    drop(device);
    run_listened(rt, files, well, &mut on_file);
    for listener in [&on_device, &on_file] {
        let heard = (listener.heard.as_slice(), listener.is_full);
        expect_eq(rt, &heard, &(news, false));
    }
}

fn run_listened(rt: &impl Abort, files: &HostRuntime, well: Well, listener: &mut Listener) {
    let path = "patch_files_heard";
    let _old = fs::remove_file(files, path);
    let mut made = Sink::new(Vec::new(files.alloc()));
    make_file(files, files.alloc(), &mut made, path, SMALL);
    let mut out = Sink::new(WeakWriter::new(files.alloc(), well));
    let mut source = Source::new(THREE_LINES.as_bytes());
    run_file(
        files,
        files.alloc(),
        &mut source,
        &mut out,
        path,
        Barriers::On,
        Reclaims::ByHand,
        listener,
    );
    fs::remove_file(files, path).expect(rt, "a file that is there");
}

#[test]
fn each_line_is_told_as_it_is_answered_and_then_the_end(rt: HostRuntime) {
    for (texts, news) in &ROWS {
        expect_heard(&rt, &rt, *texts, news);
    }
}
