//! What the definitions say of small disks and short runs, on blocks of their whole length: facts that the prover
//! computes, as the contracts of functions that do nothing.
ghost use Rattle.std.specs.Prelude.{ℕ, ◌≡◌, ◌≤◌, ◌<◌, [], ◌∷◌, Ok, Err, take, filter, IsTrue, IsFalse};
ghost use Rattle.std.specs.List.{list_all, range_with_len};
ghost use Rattle.patch_recovery.specs.Change.{patches_of};
ghost use Rattle.patch_recovery.specs.Reading.{BadSuper, FileSize, BadPointer, BadSlot, BadFrame, DuplicateKey};
ghost use Rattle.patch_recovery.specs.Reading.{map_read};
ghost use Rattle.patch_recovery.specs.Store.{IsOfStore};
ghost use Rattle.patch_recovery.specs.Said.{AreMoves};
ghost use Rattle.patch_model.specs.Renewed.{cached_blocks};
ghost use Rattle.patch_recovery.specs.Rows.{small, wide, new_disk, content_k, pointer_to, one_put, one_put_wide};
ghost use Rattle.patch_recovery.specs.Rows.{twice_put, zeroed, spoilt, exchanged, pointers_read};
ghost use Rattle.patch_recovery.specs.Runs.{three, first_ledger, run_of, left_of, closed_of, content_a, content_b};
ghost use Rattle.patch_recovery.specs.Runs.{one_put_made, sets_of_three, first_ones_of_three, bytes_patch};
ghost use Rattle.patch_recovery.specs.Runs.{pointer_patch, slot_patch, put_delete_put, closed_sets, each_command};
ghost use Rattle.patch_recovery.specs.Runs.{is_the_move, all_but, slot_naming, pointer_naming, bytes_naming};
ghost use Rattle.patch_recovery.specs.Runs.{reset_naming, claim_naming, clear_naming, long_naming};

// Disks.

// A disk on which nothing was put is read as the empty map, in both versions.
fn nothing_put()
    ensures one { map_read (new_disk small) ≡ Ok [] }
    ensures two { map_read (new_disk wide) ≡ Ok [] }
{}

// One put, in both versions.
fn one_key()
    ensures one { map_read one_put ≡ Ok (content_k ∷ []) }
    ensures two { map_read one_put_wide ≡ Ok (content_k ∷ []) }
    ensures pointers { pointers_read one_put ≡ Ok (pointer_to 19 ∷ pointer_to 0 ∷ []) }
{}

// A damaged superblock, and a disk that is too short. A file of no block, or of a part of one, isn't read as blocks at
// all.
fn bad_disks()
    ensures no_super { map_read (zeroed 0 one_put) ≡ Err BadSuper }
    ensures super_elsewhere { map_read (exchanged 0 1 one_put) ≡ Err BadSuper }
    ensures short { map_read (take 34 one_put) ≡ Err FileSize }
    ensures no_block { map_read [] ≡ Err BadSuper }
{}

// Damaged pointer records and slots. An index of zeros names nothing.
fn bad_records()
    ensures index_as_pointers { map_read (exchanged 1 2 one_put) ≡ Err BadPointer }
    ensures frame_as_pointers { map_read (exchanged 2 3 one_put) ≡ Err BadPointer }
    ensures frame_as_index { map_read (exchanged 1 3 one_put) ≡ Err (BadSlot 0) }
    ensures no_index { map_read (zeroed 1 one_put) ≡ Ok [] }
    ensures pointers_left { pointers_read (zeroed 1 one_put) ≡ Ok (pointer_to 19 ∷ pointer_to 0 ∷ []) }
{}

// A frame that is missing, or in the wrong place, or past its pointer; a key in two slots.
fn bad_frames()
    ensures no_pointers { map_read (zeroed 2 one_put) ≡ Err (BadFrame 0) }
    ensures no_frame { map_read (zeroed 3 one_put) ≡ Err (BadFrame 0) }
    ensures frame_elsewhere { map_read (exchanged 3 4 one_put) ≡ Err (BadFrame 0) }
    ensures twice { map_read twice_put ≡ Err (DuplicateKey 1) }
{}

// What no slot names isn't looked at.
fn unnamed_blocks()
    ensures zeros { (n : ℕ) → 4 ≤ n → n < 35 → map_read (zeroed n one_put) ≡ Ok (content_k ∷ []) }
    ensures behind { map_read (spoilt 4 one_put) ≡ Ok (content_k ∷ []) }
    ensures last { map_read (spoilt 34 one_put) ≡ Ok (content_k ∷ []) }
{}

// Runs.

// The patches of one put: bytes, pointer, slot.
fn patches_of_a_put()
    ensures { patches_of three one_put_made ≡ bytes_patch ∷ pointer_patch ∷ slot_patch ∷ [] }
{}

// Which sets of them are closed, and what each of these leaves.
fn stops_of_a_put()
    ensures closed { filter (closed_of one_put_made) sets_of_three ≡ first_ones_of_three }
    ensures nothing { map_read (left_of one_put_made []) ≡ Ok [] }
    ensures bytes { map_read (left_of one_put_made (0 ∷ [])) ≡ Ok [] }
    ensures pointer { map_read (left_of one_put_made (0 ∷ 1 ∷ [])) ≡ Ok [] }
    ensures slot { map_read (left_of one_put_made (0 ∷ 1 ∷ 2 ∷ [])) ≡ Ok (content_a ∷ []) }
    ensures slot_alone { map_read (left_of one_put_made (2 ∷ [])) ≡ Err (BadFrame 0) }
{}

// Put a, delete a, put b: patches 0 to 2, 3, and 4 to 6. What each closed set of them leaves that has both pointers or
// none.
fn each_closed_set()
    ensures none { map_read (left_of put_delete_put []) ≡ Ok [] }
    ensures first_bytes { map_read (left_of put_delete_put (0 ∷ [])) ≡ Ok [] }
    ensures last_bytes { map_read (left_of put_delete_put (4 ∷ [])) ≡ Ok [] }
    ensures all_bytes { map_read (left_of put_delete_put (0 ∷ 4 ∷ [])) ≡ Ok [] }
    ensures pointers { map_read (left_of put_delete_put (0 ∷ 1 ∷ 4 ∷ 5 ∷ [])) ≡ Ok [] }
    ensures put { map_read (left_of put_delete_put (0 ∷ 1 ∷ 2 ∷ 4 ∷ 5 ∷ [])) ≡ Ok (content_a ∷ []) }
    ensures deleted { map_read (left_of put_delete_put (0 ∷ 1 ∷ 2 ∷ 3 ∷ 4 ∷ 5 ∷ [])) ≡ Ok [] }
    ensures all { map_read (left_of put_delete_put (range_with_len 0 7)) ≡ Ok (content_b ∷ []) }
    ensures closed { IsTrue (list_all (closed_of put_delete_put) closed_sets) }
    ensures not_closed { IsFalse (closed_of put_delete_put (0 ∷ 1 ∷ 4 ∷ 5 ∷ 6 ∷ [])) }
{}

// An upgrade, a put, a delete, a put and a reclaim are changes of a store, so that the laws say something of them.
fn each_command_is_of_a_store()
    ensures store { IsOfStore (run_of each_command) first_ledger each_command }
    ensures moves { AreMoves is_the_move first_ledger each_command }
    ensures cached { map_read (cached_blocks (run_of each_command)) ≡ Ok (content_b ∷ []) }
    ensures before_move { map_read (left_of each_command (range_with_len 0 8)) ≡ Ok (content_b ∷ []) }
    ensures before_move_closed { IsTrue (closed_of each_command (range_with_len 0 8)) }
{
    crate::laws::stores_grow();
    crate::laws::names_suffice();
    crate::laws::puts_are_well_made();
}

// The five orders. Where one is left out, a closed set leaves a disk that doesn't open; with it, the set isn't closed.

// A slot that names a frame comes after the frame's pointer.
fn slots_wait_for_pointers()
    ensures closed { IsTrue (closed_of (slot_naming []) (2 ∷ [])) }
    ensures refused { map_read (left_of (slot_naming []) (2 ∷ [])) ≡ Err (BadFrame 0) }
    ensures ordered { IsFalse (closed_of (slot_naming (1 ∷ [])) (2 ∷ [])) }
{}

// And, by the pointer, after its bytes.
fn slots_wait_for_bytes()
    ensures closed { IsTrue (closed_of (pointer_naming []) (1 ∷ 2 ∷ [])) }
    ensures refused { map_read (left_of (pointer_naming []) (1 ∷ 2 ∷ [])) ≡ Err (BadFrame 0) }
    ensures ordered { IsFalse (closed_of (pointer_naming (0 ∷ [])) (1 ∷ 2 ∷ [])) }
{}

// Bytes come after their extent was set back.
fn bytes_wait_for_resets()
    ensures closed { IsTrue (closed_of (bytes_naming []) (0 ∷ 1 ∷ 2 ∷ 5 ∷ [])) }
    ensures refused { map_read (left_of (bytes_naming []) (0 ∷ 1 ∷ 2 ∷ 5 ∷ [])) ≡ Err (BadFrame 0) }
    ensures ordered { IsFalse (closed_of (bytes_naming (4 ∷ [])) (0 ∷ 1 ∷ 2 ∷ 5 ∷ [])) }
{}

// An extent is set back after each slot that named it has moved on.
fn resets_wait_for_slots()
    ensures closed { IsTrue (closed_of (reset_naming []) (0 ∷ 1 ∷ 2 ∷ 6 ∷ [])) }
    ensures refused { map_read (left_of (reset_naming []) (0 ∷ 1 ∷ 2 ∷ 6 ∷ [])) ≡ Err (BadFrame 0) }
    ensures ordered { IsFalse (closed_of (reset_naming (5 ∷ [])) (0 ∷ 1 ∷ 2 ∷ 6 ∷ [])) }
{}

// An empty slot is filled after each slot that was cleared.
fn claims_wait_for_clears()
    ensures closed { IsTrue (closed_of (claim_naming []) (all_but 7)) }
    ensures refused { map_read (left_of (claim_naming []) (all_but 7)) ≡ Err (DuplicateKey 1) }
    ensures ordered { IsFalse (closed_of (claim_naming (7 ∷ [])) (all_but 7)) }
{}

// A slot is cleared after each that was before.
fn clears_wait_for_clears()
    ensures closed { IsTrue (closed_of (clear_naming []) (all_but 6)) }
    ensures refused { map_read (left_of (clear_naming []) (all_but 6)) ≡ Err (DuplicateKey 1) }
    ensures ordered { IsFalse (closed_of (clear_naming (6 ∷ [])) (all_but 6)) }
{}

// A slot that names a frame comes after the upgrade: no disk of version 1 names a long frame.
fn slots_wait_for_upgrades()
    ensures closed { IsTrue (closed_of (long_naming []) (range_with_len 1 12)) }
    ensures refused { map_read (left_of (long_naming []) (range_with_len 1 12)) ≡ Err (BadSlot 0) }
    ensures ordered { IsFalse (closed_of (long_naming (0 ∷ [])) (range_with_len 1 12)) }
{}
