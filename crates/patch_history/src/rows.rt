//! What the definitions say of short scripts on new disks: facts that the prover computes.
ghost use Rattle.std.specs.Prelude.{true, false, replicate, ◌≡◌, [], ◌∷◌, ◌++◌, map, take, flat_map, Some, None};
ghost use Rattle.patch_plans.specs.Groups.{before};
ghost use Rattle.patch_model.specs.declared.refusals.RefusalKind.TheVariants as kind;
ghost use Rattle.patch_model.specs.Refusing.{bare};
ghost use Rattle.patch_history.specs.Command.{Put, Get, Reclaim, Pending, Done, Value, Absent, GroupMade, Count, Refused};
ghost use Rattle.patch_history.specs.Shelf.{opened};
ghost use Rattle.patch_history.specs.StoreState.{at_opening};
ghost use Rattle.patch_history.specs.Rows.{new_disk, short_disk, replies, after_commands, extents_of, lengths_of, live_slots, calls_for, names_of, key, put_steps, read_with, refused, counts_of};
ghost use Rattle.patch_history.specs.Rows.{put_twice, deleted_twice, long_keys, long_values, three_keys, claimed_again, two_values, one_reclaimed, two_reclaimed, three_reclaimed, emptied, put_and_deleted, upgraded_twice, in_order, chained, refused_calls, deleted_in_order, put_sent_got};
ghost use Rattle.patch_history.specs.Chained.{order_in};
ghost use Rattle.patch_history.specs.Closed.{marks_from};
ghost use Rattle.patch_history.specs.History.{IsRight, Call};
ghost use Rattle.patch_history.specs.Refusing.{reply_of};

// Puts, gets and deletes.

// A value replaced.
fn one_key_twice()
    ensures replies { replies (new_disk 2 2) (put_twice ++ Get (key 107) ∷ []) ≡ Done ∷ Done ∷ Value (2 ∷ []) ∷ [] }
    ensures extents { extents_of (after_commands (new_disk 2 2) put_twice) ≡ (0, 36, 18) ∷ (0, 0, 0) ∷ [] }
    ensures entries { lengths_of (after_commands (new_disk 2 2) put_twice) ≡ (key 107, 1) ∷ [] }
{}

// Keys and values too long, and a key that is gone.
fn limits_and_deletes()
    ensures first { replies (new_disk 2 4) deleted_twice ≡ Done ∷ Value [] ∷ Done ∷ Absent ∷ refused kind.NoKey ∷ [] }
    ensures keys { replies (new_disk 2 4) long_keys ≡ Done ∷ replicate 3 (refused kind.KeyLength) }
    ensures values { replies (short_disk 2 4) long_values ≡ Done ∷ refused kind.ValueLength ∷ [] }
{}

// No slot is left for a new key, and one that stands is put anew.
fn index_full()
    ensures replies { replies (new_disk 2 2) three_keys ≡ Done ∷ Done ∷ refused kind.IndexFull ∷ Done ∷ [] }
    ensures extents { extents_of (after_commands (new_disk 2 2) three_keys) ≡ (0, 51, 34) ∷ (0, 0, 0) ∷ [] }
{}

// The lowest empty slot is claimed, behind the last delete, which comes after the one before.
fn claimed_slot()
    ensures names { names_of (after_commands (new_disk 2 2) claimed_again)
        ≡ [] ∷ (0 ∷ []) ∷ (1 ∷ []) ∷ [] ∷ (3 ∷ []) ∷ (4 ∷ []) ∷ [] ∷ (6 ∷ []) ∷ [] ∷ (8 ∷ []) ∷ (9 ∷ 7 ∷ []) ∷ [] }
    ensures extents { extents_of (after_commands (new_disk 2 2) claimed_again) ≡ (0, 51, 17) ∷ (0, 0, 0) ∷ [] }
{}

// Reclaims.

// The last empty extent is kept.
fn no_space()
    ensures replies { replies (short_disk 2 2) three_reclaimed
        ≡ Done ∷ map refused (kind.NoSpace ∷ kind.OpenExtent ∷ kind.EmptyExtent ∷ kind.NoSuchExtent ∷ []) }
    ensures extents { extents_of (after_commands (short_disk 2 2) two_values) ≡ (0, 2117, 2117) ∷ (0, 0, 0) ∷ [] }
{}

// An extent is won back; its frame moves to the empty one, and that is current then.
fn won_back()
    ensures replies { replies (short_disk 2 3) one_reclaimed ≡ Done ∷ Done ∷ Done ∷ [] }
    ensures extents { extents_of (after_commands (short_disk 2 3) one_reclaimed)
        ≡ (1, 0, 0) ∷ (0, 2117, 2117) ∷ (0, 2117, 2117) ∷ [] }
    ensures entries { lengths_of (after_commands (short_disk 2 3) one_reclaimed) ≡ (key 97, 2100) ∷ (key 98, 2100) ∷ [] }
    ensures names { names_of (after_commands (short_disk 2 3) one_reclaimed)
        ≡ [] ∷ (0 ∷ []) ∷ (1 ∷ []) ∷ [] ∷ (3 ∷ []) ∷ (4 ∷ []) ∷ [] ∷ (6 ∷ []) ∷ (7 ∷ []) ∷ (8 ∷ []) ∷ [] }
{}

// And the extent that puts appended to.
fn won_back_again()
    ensures extents { extents_of (after_commands (short_disk 2 3) two_reclaimed)
        ≡ (1, 2117, 2117) ∷ (1, 0, 0) ∷ (0, 2117, 2117) ∷ [] }
    ensures entries { lengths_of (after_commands (short_disk 2 3) two_reclaimed) ≡ (key 97, 2100) ∷ (key 98, 2100) ∷ [] }
{}

// A current extent without a live frame is reset, and none is current then.
fn a_current_one_is_reset()
    ensures replies { replies (new_disk 2 2) emptied ≡ Done ∷ Done ∷ Done ∷ refused kind.EmptyExtent ∷ Done ∷ [] }
    ensures extents { extents_of (after_commands (new_disk 2 2) emptied) ≡ (1, 18, 18) ∷ (0, 0, 0) ∷ [] }
    ensures names { names_of (after_commands (new_disk 2 2) emptied)
        ≡ [] ∷ (0 ∷ []) ∷ (1 ∷ []) ∷ [] ∷ (3 ∷ []) ∷ (4 ∷ []) ∷ (5 ∷ []) ∷ (6 ∷ 3 ∷ []) ∷ [] }
{}

// A shelf keeps what was deleted last and what left each extent, until it is reset.
fn what_left_an_extent()
    ensures left { (after_commands (new_disk 2 2) put_and_deleted).shelf.left ≡ (5 ∷ 6 ∷ []) ∷ [] ∷ [] }
    ensures none { (after_commands (new_disk 2 2) (put_and_deleted ++ Reclaim 0 ∷ [])).shelf.left ≡ [] ∷ [] ∷ [] }
    ensures deleted { (after_commands (new_disk 2 2) put_and_deleted).shelf.last_delete ≡ Some 6 }
{}

// Of the patches of two puts and a reclaim one is a move: the slot's of the reclaim.
fn moves_of_a_reclaim()
    ensures marks { marks_from (short_disk 2 3) (calls_for (short_disk 2 3) one_reclaimed)
        ≡ replicate 8 false ++ true ∷ false ∷ [] }
{}

// The live frames of an extent stand in order of their places, whatever slots name them.
fn frames_in_order()
    ensures slots { live_slots (after_commands (new_disk 2 2)
        (Put (key 97) [] ∷ Put (key 98) [] ∷ Put (key 97) [] ∷ [])) 0 ≡ 1 ∷ 0 ∷ [] }
{}

// Upgrades, groups, and the store as it is opened.

// After an upgrade each slot that is filled comes after it.
fn upgraded()
    ensures replies { replies (new_disk 2 2) upgraded_twice ≡ Done ∷ Done ∷ refused kind.AlreadyVersion2 ∷ Done ∷ [] }
    ensures names { names_of (after_commands (new_disk 2 2) upgraded_twice)
        ≡ [] ∷ (0 ∷ []) ∷ (1 ∷ []) ∷ [] ∷ [] ∷ (4 ∷ []) ∷ (5 ∷ 3 ∷ []) ∷ [] }
{}

// A writer's patches come after those of the groups before its own, and a reclaim's are of no group.
fn groups_in_order()
    ensures replies { replies (new_disk 2 2) in_order
        ≡ GroupMade 0 ∷ Done ∷ Done ∷ Done ∷ GroupMade 1 ∷ Done ∷ Done ∷ [] }
    ensures refused { replies (after_commands (new_disk 2 2) in_order) refused_calls
        ≡ refused kind.Sealed ∷ Count 0 ∷ refused kind.Engaged ∷ refused kind.NoSuchGroup ∷ [] }
    ensures names { names_of (after_commands (new_disk 2 2) deleted_in_order)
        ≡ [] ∷ (0 ∷ []) ∷ (1 ∷ []) ∷ (0 ∷ 1 ∷ 2 ∷ []) ∷ (3 ∷ []) ∷ [] }
{}

// What comes before a group is what a chain of accepted orders leads to; one that is refused makes none.
fn groups_in_a_chain()
    ensures replies { replies (new_disk 2 2) chained
        ≡ GroupMade 0 ∷ GroupMade 1 ∷ GroupMade 2 ∷ Done ∷ Done ∷ refused kind.Sealed ∷ [] }
    ensures orders { flat_map order_in (calls_for (new_disk 2 2) chained) ≡ (1, 0) ∷ (2, 1) ∷ [] }
    ensures first { before (after_commands (new_disk 2 2) chained).groups 2 ≡ 0 ∷ 1 ∷ [] }
{}

// The lowest extent that has something, and room for a frame, is current when a store is opened.
fn opened_with()
    ensures first { (opened (read_with 65519 18)).current ≡ Some 0 }
    ensures full { (opened (read_with 65520 18)).current ≡ Some 1 }
    ensures none { (opened (read_with 0 65520)).current ≡ None }
    ensures spent { reply_of (at_opening [] (read_with 18 65520)) 0 (Reclaim 1)
        ≡ refused kind.GenerationSpent }
{}

// What is right.

// A put is right with all its steps, and, where memory ran out, with some first ones; not with none, nor with a refusal
// that has no cause.
fn right_and_wrong()
    ensures done { IsRight (new_disk 2 2) (Call 0 (Put (key 107) []) Done put_steps) }
    ensures cut { IsRight (new_disk 2 2)
        (Call 0 (Put (key 107) []) (Refused (bare kind.OutOfMemory)) (take 2 put_steps)) }
    ensures not_for_nothing { IsRight (new_disk 2 2) (Call 0 (Put (key 107) []) Done []) → ⊥ }
    ensures no_cause { IsRight (new_disk 2 2) (Call 0 (Put (key 107) []) (Refused (bare kind.NoSpace)) []) → ⊥ }
    ensures no_value { IsRight (new_disk 2 2) (Call 0 (Get (key 107)) (Value []) []) → ⊥ }
    ensures always_granted { IsRight (new_disk 2 2) (Call 0 (Pending 0) (Refused (bare kind.OutOfMemory)) []) → ⊥ }
{}

// A book's entries tell where the steps of each call begin and end.
fn calls_kept()
    ensures counts { counts_of put_sent_got ≡ (1, 0, 3) ∷ (0, 4, 4) ∷ [] }
{}
