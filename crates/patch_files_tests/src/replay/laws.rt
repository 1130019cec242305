//! The law of texts: whatever two right replays of a script write, it is the same.
#[test]
fn a_script_has_one_text() {
    patch_replay::laws::texts_are_single();
}
