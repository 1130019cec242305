//! Marks on keys.
ghost use Rattle.std.specs.Prelude.{◌≡◌, length, slice_set, true, false};
ghost use Rattle.patch_graph.specs.Marks.{is_marked, AreClear, HoldsMarked};

/// Whether a key is marked.
pub fn is_marked(marks: &[bool], key: usize) -> bool
    ensures { result ≡ is_marked marks.now key }
{
    match marks.get(key) {
        Some(marked) => *marked,
        None => false,
    }
}

/// Marks a key.
pub fn put_mark(marks: &mut [bool], key: usize)
    ensures { marks.new ≡ slice_set marks.old key true }
{
    if key < marks.len() {
        marks[key] = true;
    }
}

/// Takes the mark off a key.
pub fn take_mark(marks: &mut [bool], key: usize)
    ensures { marks.new ≡ slice_set marks.old key false }
{
    if key < marks.len() {
        marks[key] = false;
    }
}

/// Takes the marks off these keys.
pub fn clear(keys: &[usize], marks: &mut [bool])
    requires { HoldsMarked marks.old keys.now }
    ensures clear { AreClear marks.new }
    ensures length { length marks.new ≡ length marks.old }
{
    for key in keys {
        take_mark(marks, *key);
    }
}
