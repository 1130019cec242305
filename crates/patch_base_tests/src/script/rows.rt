//! What the definitions read on worked lines: facts that the prover computes, as the contract of a function that does
//! nothing.
ghost use Rattle.std.specs.Prelude.{◌≡◌, ◌∷◌, [], Some, None, codes};
ghost use Rattle.patch_model.specs.declared.patches.Undo.TheVariants.{Keep, MayDrop};
ghost use Rattle.patch_script.specs.declared.forms.Line.TheVariants.{Patch, Merge, Send, Complete, View, Show, Disk, Group, Engage, Disengage, Depend, Close, Pending, Sync};
ghost use Rattle.patch_script.specs.Form.{line_of};

/// Lines of each form, and some that aren't readable.
fn worked_lines()
    ensures show { line_of (codes "{\"op\":\"show\",\"block\":0,\"start\":4,\"len\":6}")
        ≡ Some (Some (Show (record { block = 0; start = 4; len = 6 }))) }
    ensures patch { line_of (codes "{\"op\":\"patch\",\"block\":1,\"start\":2,\"hex\":\"aB0c\"}")
        ≡ Some (Some (Patch 1 2 (0xab ∷ 0x0c ∷ []) [] Keep 0)) }
    ensures hard { line_of
        (codes "{\"op\":\"patch\",\"block\":0,\"start\":0,\"hex\":\"aa\",\"after\":[3],\"drop\":true,\"writer\":7}")
        ≡ Some (Some (Patch 0 0 (0xaa ∷ []) (3 ∷ []) MayDrop 7)) }
    ensures view { line_of (codes "{\"op\":\"view\",\"block\":0,\"take\":[1,0],\"back\":[0],\"start\":0,\"len\":6}")
        ≡ Some (Some (View (1 ∷ 0 ∷ []) (0 ∷ []) (record { block = 0; start = 0; len = 6 }))) }
    ensures merge { line_of (codes "{\"op\":\"merge\",\"a\":2,\"b\":1}") ≡ Some (Some (Merge 2 1)) }
    ensures send { line_of (codes "{\"op\":\"send\",\"block\":3}") ≡ Some (Some (Send 3)) }
    ensures complete { line_of
        (codes "{\"op\":\"complete\",\"block\":4294967295}") ≡ Some (Some (Complete 4294967295)) }
    ensures disk { line_of (codes "{\"op\":\"disk\",\"block\":0,\"start\":4,\"len\":6}")
        ≡ Some (Some (Disk (record { block = 0; start = 4; len = 6 }))) }
    ensures blank { line_of (codes " \t\r") ≡ Some None }
    ensures fraction { line_of (codes "{\"op\":\"show\",\"block\":1.0,\"start\":4,\"len\":6}") ≡ None }
    ensures minus_zero { line_of (codes "{\"op\":\"show\",\"block\":-0,\"start\":4,\"len\":6}") ≡ None }
    ensures leading_zero { line_of (codes "{\"op\":\"show\",\"block\":01,\"start\":4,\"len\":6}") ≡ None }
    ensures no_byte { line_of (codes "{\"op\":\"show\",\"block\":0,\"start\":4,\"len\":0}") ≡ None }
    ensures ninth_writer { line_of
        (codes "{\"op\":\"patch\",\"block\":0,\"start\":0,\"hex\":\"aa\",\"writer\":8}") ≡ None }
    ensures merge_of_one { line_of (codes "{\"op\":\"merge\",\"a\":0}") ≡ None }
    ensures merge_of_text { line_of (codes "{\"op\":\"merge\",\"a\":0,\"b\":\"1\"}") ≡ None }
    ensures send_of_no_block { line_of (codes "{\"op\":\"send\",\"a\":0}") ≡ None }
    ensures send_of_a_large_block { line_of (codes "{\"op\":\"send\",\"block\":4294967296}") ≡ None }
    ensures complete_exponent { line_of (codes "{\"op\":\"complete\",\"block\":1e0}") ≡ None }
    ensures no_byte_on_disk { line_of (codes "{\"op\":\"disk\",\"block\":0,\"start\":4,\"len\":0}") ≡ None }
    ensures unknown { line_of (codes "{\"op\":\"fly\"}") ≡ None }
{}

/// Lines of groups, each form readable and not.
fn worked_lines_of_groups()
    ensures group { line_of (codes "{\"op\":\"group\"}") ≡ Some (Some Group) }
    ensures engage { line_of (codes "{\"op\":\"engage\",\"group\":4,\"writer\":7}") ≡ Some (Some (Engage 7 4)) }
    ensures engage_of_no_writer { line_of (codes "{\"op\":\"engage\",\"group\":4}") ≡ Some (Some (Engage 0 4)) }
    ensures disengage { line_of (codes "{\"op\":\"disengage\",\"group\":5,\"writer\":1}") ≡ Some (Some (Disengage 1 5)) }
    ensures depend { line_of (codes "{\"op\":\"depend\",\"group\":6,\"on\":2}") ≡ Some (Some (Depend 6 2)) }
    ensures close { line_of (codes "{\"op\":\"close\",\"group\":8}") ≡ Some (Some (Close 8)) }
    ensures pending { line_of (codes "{\"op\":\"pending\",\"group\":9}") ≡ Some (Some (Pending 9)) }
    ensures sync { line_of (codes "{\"op\":\"sync\",\"group\":4294967295}") ≡ Some (Some (Sync 4294967295)) }
    ensures engage_of_no_group { line_of (codes "{\"op\":\"engage\",\"writer\":7}") ≡ None }
    ensures ninth_writer { line_of (codes "{\"op\":\"disengage\",\"group\":5,\"writer\":8}") ≡ None }
    ensures depend_on_none { line_of (codes "{\"op\":\"depend\",\"group\":6}") ≡ None }
    ensures close_of_text { line_of (codes "{\"op\":\"close\",\"group\":\"8\"}") ≡ None }
    ensures pending_fraction { line_of (codes "{\"op\":\"pending\",\"group\":9.0}") ≡ None }
    ensures sync_of_a_large_group { line_of (codes "{\"op\":\"sync\",\"group\":4294967296}") ≡ None }
{}

#[test]
fn lines_read_as_worked_out() {
    worked_lines();
    worked_lines_of_groups();
}
