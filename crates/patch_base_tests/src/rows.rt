//! What the definitions say of small executions: facts that the prover computes, as the contracts of functions that do
//! nothing.
ghost use Rattle.std.specs.Prelude.{◌≡◌, List, [], ◌∷◌, IsTrue, IsFalse, true, false, map, take, drop};
ghost use Rattle.patch_model.specs.declared.patches.Mark.TheVariants.{Memory, Durable};
ghost use Rattle.patch_model.specs.Step.{Send, Complete};
ghost use Rattle.patch_model.specs.Execution.{followed_by};
ghost use Rattle.patch_model.specs.Dependency.{LiesBetween, class_depends};
ghost use Rattle.patch_model.specs.Ready.{ready};
ghost use Rattle.patch_model.specs.State.{entries_of, state_of};
ghost use Rattle.patch_model.specs.History.{history_of, Take, Back, IsPermitted, without, cached, image, holds_dependents};
ghost use Rattle.patch_model.specs.Crash.{disk_of, crash_set};
ghost use Rattle.patch_model.specs.Legal.{IsLegal, IsLegalCreate, IsLegalMerge, touch};
ghost use Rattle.patch_model.specs.Rows.{on_zeros, overlapping, apart, to_and_fro, late_durable, over_flight, merged_round, in_a_row};
ghost use Rattle.patch_model.specs.Rows.{beside, with_gap, by_other_blocks, dropping, whole_length, hard_ones, each_step};

// One patch over another: without the newer, without both; the older can't be taken alone.
fn one_over_another()
    ensures newer { without (history_of overlapping 0) (1 ∷ []) ≡ 0xa1 ∷ 0xa2 ∷ 0xa3 ∷ 0xa4 ∷ 0 ∷ 0 ∷ [] }
    ensures both { without (history_of overlapping 0) (1 ∷ 0 ∷ []) ≡ 0 ∷ 0 ∷ 0 ∷ 0 ∷ 0 ∷ 0 ∷ [] }
    ensures cached { cached (history_of overlapping 0) ≡ 0xa1 ∷ 0xa2 ∷ 0xb1 ∷ 0xb2 ∷ 0xb3 ∷ 0xb4 ∷ [] }
    ensures older_alone { IsFalse (holds_dependents (history_of overlapping 0) (0 ∷ [])) }
    ensures newer_alone { IsTrue (holds_dependents (history_of overlapping 0) (1 ∷ [])) }
{}

// Patches apart come back in any order.
fn three_apart()
    ensures without { without (history_of apart 0) (0 ∷ 2 ∷ []) ≡ 0 ∷ 0 ∷ 0 ∷ 0 ∷ 0xbb ∷ 0 ∷ 0 ∷ 0 ∷ 0 ∷ [] }
    ensures holds { IsTrue (holds_dependents (history_of apart 0) (0 ∷ 2 ∷ [])) }
{}

// A dependency in flight on another block isn't met.
fn two_blocks()
    ensures first { map (λ e. e.patch.no) (ready (entries_of (on_zeros 2 4 to_and_fro)) 0) ≡ 0 ∷ [] }
    ensures disk { disk_of (followed_by (on_zeros 2 4 to_and_fro) (Send 0 ∷ Complete 0 ∷ [])) (crash_set []) ≡ (0xaa ∷ 0 ∷ 0 ∷ 0 ∷ []) ∷ (0 ∷ 0 ∷ 0 ∷ 0 ∷ []) ∷ [] }
    ensures second { ready (entries_of (followed_by (on_zeros 2 4 to_and_fro) (Send 0 ∷ Complete 0 ∷ Send 1 ∷ []))) 0 ≡ [] }
    ensures third { map (λ e. e.patch.no) (ready (entries_of (followed_by (on_zeros 2 4 to_and_fro) (Send 0 ∷ Complete 0 ∷ Send 1 ∷ Complete 1 ∷ []))) 0) ≡ 2 ∷ [] }
{}

// A durable patch may be later than one that is taken back.
fn later_durable()
    ensures without { without (history_of late_durable 0) (1 ∷ []) ≡ 0 ∷ 0 ∷ 0 ∷ 0 ∷ 0xbb ∷ [] }
    ensures holds { IsTrue (holds_dependents (history_of late_durable 0) (1 ∷ [])) }
    ensures cached { cached (history_of late_durable 0) ≡ 0xaa ∷ 0 ∷ 0 ∷ 0 ∷ 0xbb ∷ [] }
{}

// A patch over one in flight.
fn over_one_in_flight()
    ensures without { without (history_of over_flight 0) (1 ∷ []) ≡ 0x11 ∷ [] }
    ensures image { image (history_of over_flight 0) ≡ 0x11 ∷ [] }
    ensures not_the_older { IsFalse (holds_dependents (history_of over_flight 0) (0 ∷ 1 ∷ [])) }
    ensures number { (state_of over_flight).flights ≡ (0, 0) ∷ [] }
{}

// A merged class with a patch between in number: it goes before the one of a smaller number.
fn merged_over()
    ensures alone { IsFalse (holds_dependents (history_of merged_round 0) (1 ∷ [])) }
    ensures whole_class { IsTrue (holds_dependents (history_of merged_round 0) (0 ∷ [])) }
    ensures without { without (history_of merged_round 0) (0 ∷ []) ≡ 0 ∷ 0 ∷ 0 ∷ 0 ∷ 0xbb ∷ 0xbb ∷ [] }
    ensures both { without (history_of merged_round 0) (0 ∷ 1 ∷ []) ≡ 0 ∷ 0 ∷ 0 ∷ 0 ∷ 0 ∷ 0 ∷ [] }
    ensures cached { cached (history_of merged_round 0) ≡ 0xaa ∷ 0xaa ∷ 0xcc ∷ 0xcc ∷ 0xcc ∷ 0xbb ∷ [] }
{}

// Two patches side by side are sent together.
fn side_by_side()
    ensures { map (λ e. e.patch.no) (ready (entries_of beside) 0) ≡ 0 ∷ 1 ∷ [] }
{}

// Which classes may be merged: touching, with none between.
fn merges()
    ensures touching { IsLegalMerge (entries_of beside) 0 1 }
    ensures apart { IsFalse (touch (entries_of with_gap) 0 1) }
    ensures between { LiesBetween (entries_of in_a_row) 2 0 1 }
    ensures far { LiesBetween (entries_of by_other_blocks) 3 0 1 }
{}

// A block as long as blocks are.
fn at_full_length()
    ensures front { take 6 (cached (history_of whole_length 0)) ≡ 0xa1 ∷ 0xa2 ∷ 0xa3 ∷ 0xa4 ∷ 0 ∷ 0 ∷ [] }
    ensures back { drop 4092 (cached (history_of whole_length 0)) ≡ 0 ∷ 0xb1 ∷ 0xb2 ∷ 0 ∷ [] }
{}

// Taking back and putting back, in one of the permitted orders: that the older can't be taken first is said above.
fn to_and_back()
    ensures permitted { IsPermitted (history_of overlapping 0) [] (Take 1 ∷ Take 0 ∷ Back 0 ∷ Back 1 ∷ []) }
{
    patch_model::laws::holding_is_tested();
}

// Which patches are hard: those that ask for it, over durable ones and hard ones of their block.
fn hard_patches()
    ensures hard { map (λ e. e.hard) (entries_of hard_ones) ≡ true ∷ true ∷ false ∷ false ∷ false ∷ true ∷ [] }
    ensures both { map (λ e. e.hard) (entries_of dropping) ≡ true ∷ true ∷ [] }
    ensures not_taken { IsFalse (holds_dependents (history_of dropping 0) (1 ∷ [])) }
    ensures ready { map (λ e. e.patch.no) (ready (entries_of dropping) 0) ≡ 0 ∷ 1 ∷ [] }
{}

// An execution with a step of each kind is legal. A completion makes durable what was sent, and not what was made since.
// A merged class doesn't depend on itself.
fn legal_steps()
    ensures legal { IsLegal each_step }
    ensures classes { map (λ e. e.class) (entries_of each_step) ≡ 0 ∷ 0 ∷ 2 ∷ [] }
    ensures not_itself { IsFalse (class_depends (entries_of each_step) 0 0) }
    ensures marks { map (λ e. e.mark) (entries_of each_step) ≡ Durable ∷ Durable ∷ Memory ∷ [] }
{}

// What a view refuses: a class that is taken already, one that isn't, one of another block. A dependent on another block is no matter.
fn view_rules()
    ensures twice { IsPermitted (history_of apart 0) [] (Take 1 ∷ Take 1 ∷ []) → ⊥ }
    ensures not_taken { IsPermitted (history_of apart 0) [] (Back 1 ∷ []) → ⊥ }
    ensures elsewhere { IsFalse (holds_dependents (history_of (on_zeros 2 4 to_and_fro) 0) (1 ∷ [])) }
    ensures other_block { IsTrue (holds_dependents (history_of (on_zeros 2 4 to_and_fro) 0) (0 ∷ [])) }
{}

// A patch may end at the block's last byte, and may name the newest patch.
fn last_places()
    ensures byte { IsLegalCreate 1 (entries_of beside) 0 4095 (0xee ∷ []) (1 ∷ []) }
    ensures not_beyond { IsLegalCreate 1 (entries_of beside) 0 4096 (0xee ∷ []) [] → ⊥ }
    ensures not_itself { IsLegalCreate 1 (entries_of beside) 0 0 (0xee ∷ []) (2 ∷ []) → ⊥ }
{}

#[test]
fn executions_are_as_worked_out() {
    one_over_another();
    three_apart();
    two_blocks();
    later_durable();
    over_one_in_flight();
    merged_over();
    side_by_side();
    merges();
    at_full_length();
    to_and_back();
    hard_patches();
    legal_steps();
    view_rules();
    last_places();
}
