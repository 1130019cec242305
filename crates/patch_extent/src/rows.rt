//! What the definitions say of small runs: facts that the prover computes, as the contracts of functions that do nothing.
ghost use Rattle.std.specs.Prelude.{◌≡◌, [], ◌∷◌, Some, None};
ghost use Rattle.patch_model.specs.declared.refusals.RefusalKind.TheVariants as kind;
ghost use Rattle.patch_model.specs.Refusing.{bare};
ghost use Rattle.patch_model.specs.Step.{Merge};
ghost use Rattle.patch_frame.specs.declared.geometries.Format.TheVariants.{One, Two};
ghost use Rattle.patch_plans.specs.Planning.{append_plan};
ghost use Rattle.patch_extent.specs.Refusing.{why_not_appended, why_not_reset, why_not_read};
ghost use Rattle.patch_plans.specs.Writing.{written};
ghost use Rattle.patch_extent.specs.Rows.{at_first, first_plan, second, second_plan, third, third_plan, fourth, fourth_plan, fifth, sevens, outlines, merges, last_bytes};

// Two blocks touched, then the pointer record behind both.
fn over_two_blocks()
    ensures patches { outlines (written (at_first One) 0 (first_plan One)) ≡ (3 ∷ 0 ∷ 4096 ∷ []) ∷ (4 ∷ 0 ∷ 904 ∷ []) ∷ (2 ∷ 0 ∷ 8 ∷ 0 ∷ 1 ∷ []) ∷ [] }
    ensures record_is { last_bytes (written (at_first One) 0 (first_plan One)) ≡ 0 ∷ 0 ∷ 0 ∷ 0 ∷ 0 ∷ 0 ∷ 0x13 ∷ 0x88 ∷ [] }
    ensures alone { merges (written (at_first One) 0 (first_plan One)) ≡ None ∷ None ∷ None ∷ [] }
{}

// The next append goes behind it, and its pointer patch may become one with the last.
fn behind_the_first()
    ensures patches { outlines (written (second One) 3 (second_plan One)) ≡ (4 ∷ 904 ∷ 10 ∷ []) ∷ (2 ∷ 0 ∷ 8 ∷ 3 ∷ []) ∷ [] }
    ensures record_is { last_bytes (written (second One) 3 (second_plan One)) ≡ 0 ∷ 0 ∷ 0 ∷ 0 ∷ 0 ∷ 0 ∷ 0x13 ∷ 0x92 ∷ [] }
    ensures merged { merges (written (second One) 3 (second_plan One)) ≡ None ∷ Some (Merge 2 4) ∷ [] }
{}

// A reset is one patch, and what is appended then comes after it.
fn after_a_reset()
    ensures patches { outlines (written (third One) 5 (third_plan One)) ≡ (2 ∷ 0 ∷ 8 ∷ []) ∷ [] }
    ensures record_is { last_bytes (written (third One) 5 (third_plan One)) ≡ 0 ∷ 0 ∷ 0 ∷ 1 ∷ 0 ∷ 0 ∷ 0 ∷ 0 ∷ [] }
    ensures later { outlines (written (fourth One) 6 (fourth_plan One)) ≡ (3 ∷ 0 ∷ 1 ∷ 5 ∷ []) ∷ (2 ∷ 0 ∷ 8 ∷ 6 ∷ []) ∷ [] }
    ensures merged { merges (written (fourth One) 6 (fourth_plan One)) ≡ None ∷ Some (Merge 5 7) ∷ [] }
{}

// What is refused then.
fn refusals()
    ensures old { why_not_read (fifth One) (record { extent = 0; generation = 0; offset = 0; len = 5000 }) ≡ Some (bare kind.OldGeneration) }
    ensures past { why_not_read (fifth One) (record { extent = 0; generation = 1; offset = 0; len = 2 }) ≡ Some (bare kind.PastPointer) }
    ensures right { why_not_read (fifth One) (record { extent = 0; generation = 1; offset = 0; len = 1 }) ≡ None }
    ensures full { why_not_appended (fifth One) [] 0 65536 [] ≡ Some (bare kind.ExtentFull) }
    ensures unknown { why_not_appended (fifth One) [] 2 1 [] ≡ Some (bare kind.NoSuchExtent) }
{}

// In version 2 an extent has as many blocks as its length says, and the next one begins behind it.
fn in_longer_extents()
    ensures patches { outlines (written (at_first (Two 64)) 0 (first_plan (Two 64))) ≡ (3 ∷ 0 ∷ 4096 ∷ []) ∷ (4 ∷ 0 ∷ 904 ∷ []) ∷ (2 ∷ 0 ∷ 8 ∷ 0 ∷ 1 ∷ []) ∷ [] }
    ensures second { outlines (written (at_first (Two 64)) 0 (append_plan (at_first (Two 64)) 0 1 (sevens 1) [])) ≡ (67 ∷ 0 ∷ 1 ∷ []) ∷ (2 ∷ 8 ∷ 8 ∷ 0 ∷ []) ∷ [] }
    ensures fits { why_not_appended (fifth (Two 64)) [] 0 262143 [] ≡ None }
    ensures full { why_not_appended (fifth (Two 64)) [] 0 262144 [] ≡ Some (bare kind.ExtentFull) }
{}
