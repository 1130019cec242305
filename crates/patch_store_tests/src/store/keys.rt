//! A store's keys in order.
use super::*;
use patch_store::EntryReport;

// A key, with the length of its value.
type Told = (&'static [u8], u32);

// Keys that come in another order than theirs; one gets another value, and one leaves.
const TURNS: &[Turn<'static>] = &[
    (Put(b"b", b"of b"), Ok(())),
    (Put(b"a", b"of a"), Ok(())),
    (Put(b"ac", b""), Ok(())),
    (Put(b"ab", b"of ab"), Ok(())),
    (Put(b"a", b"another"), Ok(())),
    (Delete(b"ac"), Ok(())),
];

const RISING: &[Told] = &[(b"a", 7), (b"ab", 5), (b"b", 4)];

// From which key, the next one, and the one before.
const BESIDE: &[(&'static [u8], Option<Told>, Option<Told>)] = &[
    (b"", Some((b"a", 7)), None),
    (b"a", Some((b"a", 7)), None),
    (b"aa", Some((b"ab", 5)), Some((b"a", 7))),
    (b"ac", Some((b"b", 4)), Some((b"ab", 5))),
    (b"b", Some((b"b", 4)), Some((b"ab", 5))),
    (&[0x62; 33], None, Some((b"b", 4))),
];

fn expect_key(rt: &impl Abort, got: &Option<EntryReport>, want: Option<Told>) {
    let got = got.as_ref().map(|it| (it.key.as_slice(), it.length));
    expect_eq(rt, &got, &want);
}

fn expect_beside(rt: &impl Abort, store: &Store) {
    for (key, next, previous) in BESIDE {
        expect_key(rt, &store.next_key(key), *next);
        expect_key(rt, &store.previous_key(Some(key)), *previous);
    }
}

// From the first to the last: no key lies between one and the one that has a zero behind it.
fn expect_rising(rt: &impl Abort, alloc: Global, store: &Store) -> Result<(), Fail> {
    let mut from = Vec::new(alloc);
    for (key, length) in RISING {
        expect_key(rt, &store.next_key(from.as_slice()), Some((*key, *length)));
        from = Vec::from_slice(alloc, key)?;
        from.push(0)?;
    }
    expect_key(rt, &store.next_key(from.as_slice()), None);
    Ok(())
}

// And from the last to the first.
fn expect_falling(rt: &impl Abort, store: &Store) {
    let mut before = None;
    for (key, length) in RISING.iter().rev() {
        expect_key(rt, &store.previous_key(before), Some((*key, *length)));
        before = Some(*key);
    }
    expect_key(rt, &store.previous_key(before), None);
}

#[test]
fn keys_come_in_order(rt: HostRuntime) -> Result<(), Fail> {
    let store = behind(&rt, rt.alloc(), OF_FOUR, &[], TURNS)?;
    expect_beside(&rt, &store);
    let risen = expect_rising(&rt, rt.alloc(), &store);
    expect_falling(&rt, &store);
    drop(store);
    risen
}
