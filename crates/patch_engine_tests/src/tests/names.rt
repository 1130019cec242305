//! The names of refusals.
use super::*;
use patch_model::{RefusalKind, Refuses};

#[test]
fn refusals_tell_their_names_and_kinds(rt: HostRuntime) {
    let text = format!(in rt.alloc(); "{}", OpenRefusal::FileSize).expect(&rt, "a text");
    expect_equal(&rt, "text", text.as_str(), "FileSize");
    let text = format!(in rt.alloc(); "{}", Stranger).expect(&rt, "a text");
    expect_equal(&rt, "text", text.as_str(), "Stranger");
    let unread = WithoutRefusal::Unread(ReadRefusal::NotResident(BlockNo(3)));
    let text = format!(in rt.alloc(); "{unread}").expect(&rt, "a text");
    expect_equal(&rt, "text", text.as_str(), "NotResident 3");
    expect_equal(&rt, "kind", unread.kind(), RefusalKind::NotResident);
    expect_equal(&rt, "number", unread.number(), Some(3));
    let untaken = WithoutRefusal::Untaken(TakeRefusal::Hard);
    expect_equal(&rt, "kind", untaken.kind(), RefusalKind::Hard);
    expect_equal(&rt, "kind", Stranger.kind(), RefusalKind::Stranger);
    let opened = OpenRefusal::FileSize;
    expect_equal(&rt, "kind", opened.kind(), RefusalKind::FileSize);
}
