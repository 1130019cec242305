//! How full an extent is, as a bar.
ghost use Rattle.std.specs.Prelude.{◌≡◌, ◌++◌, ◌<◌, IfOk, OnOk, length, decimal, string_bytes};
ghost use Rattle.patch_listing.specs.Pictures.{columns_of, percent_of, mark_at, marks, bar_text, right_aligned, extent_text};

use patch_store::ExtentReport;
use std::alloc::{AllocError, Global};

/// How many columns a bar has.
const COLUMNS: u32 = 40;

/// How many columns stand for so many bytes of an extent that has room for some: as many as they begin.
fn columns_of(bytes: u32, room: u32) -> u32
    requires { 0 < room }
    ensures { result ≡ columns_of bytes room }
{
    let columns = (u64::from(bytes) * u64::from(COLUMNS)).div_ceil(u64::from(room));
    columns.min(u64::from(COLUMNS)) as u32
}

/// How many hundredths of an extent's room so many bytes are.
fn percent_of(bytes: u32, room: u32) -> u32
    requires { 0 < room }
    ensures { result ≡ percent_of bytes room }
{
    let percent = u64::from(bytes) * 100 / u64::from(room);
    percent.min(100) as u32
}

/// What stands in a column, where so many first ones stand for what is live, and so many for what is written.
fn mark_at(live: u32, written: u32, column: u32) -> &'static str
    ensures { result.now ≡ mark_at live written column }
{
    if column < live {
        "#"
    } else if column < written {
        "-"
    } else {
        " "
    }
}

/// Writes what stands in so many columns.
fn push_marks(out: &mut String, live: u32, written: u32, columns: u32) -> Result<(), AllocError>
    ensures { OnOk result (string_bytes out.new ≡ string_bytes out.old ++ marks live written columns) }
{
    for column in 0..columns {
        out.push_str(mark_at(live, written, column))?;
    }
    Ok(())
}

/// Writes the bar of an extent that has room for so many bytes.
fn push_bar(out: &mut String, report: &ExtentReport, room: u32) -> Result<(), AllocError>
    requires { 0 < room }
    ensures { OnOk result (string_bytes out.new ≡ string_bytes out.old ++ bar_text report.now room) }
{
    let live = columns_of(report.live, room);
    let written = columns_of(report.pointer, room);
    push_marks(out, live, written, COLUMNS)
}

/// Writes a number behind blanks, so that with them it has so many columns.
fn push_right(alloc: Global, out: &mut String, width: usize, number: u32) -> Result<(), AllocError>
    ensures { OnOk result (string_bytes out.new ≡ string_bytes out.old ++ right_aligned width number) }
{
    let digits = format!(in alloc; "{number}")?;
    for _blank in 0..width.saturating_sub(digits.len()) {
        out.push_str(" ")?;
    }
    out.push_str(digits.as_str())
}

/// The line of an extent that has room for so many bytes, where the numbers of extents have so many columns.
pub(crate) fn extent_line(
    alloc: Global,
    width: usize,
    room: u32,
    extent: u32,
    report: &ExtentReport,
) -> Result<String, AllocError>
    requires { 0 < room }
    ensures { IfOk result (λ line. string_bytes line ≡ extent_text width room extent report.now) }
{
    let mut line = String::from_str(alloc, "extent ")?;
    push_right(alloc, &mut line, width, extent)?;
    line.push_str(" [")?;
    push_bar(&mut line, report, room)?;
    line.push_str("] ")?;
    push_right(alloc, &mut line, 3, percent_of(report.live, room))?;
    line.push_str("% live\n")?;
    Ok(line)
}
