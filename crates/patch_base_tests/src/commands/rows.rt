//! What the definitions read on worked lines: facts that the prover computes, as the contract of a function that does
//! nothing.
ghost use Rattle.std.specs.Prelude.{◌≡◌, ◌∷◌, [], Some, None, codes};
ghost use Rattle.patch_history.specs.Command.{Done, Value, Absent, GroupMade, Count, Refused};
ghost use Rattle.patch_model.specs.declared.refusals.RefusalKind.TheVariants.{NoKey, BadSlot};
ghost use Rattle.patch_script.specs.Kind.{line_by};
ghost use Rattle.patch_commands.specs.Command.{command_of};
ghost use Rattle.patch_commands.specs.Reply.{reply_line};
ghost use Rattle.patch_commands.specs.declared.commands.CommandLine.TheVariants.{Put, Get, Delete, Reclaim, Group, Engage, Disengage, Depend, Close, Pending, Sync};

/// Lines of the store, and some that aren't readable.
fn worked_lines()
    ensures put { line_by command_of (codes "{\"op\":\"put\",\"key\":\"k\",\"hex\":\"aB0c\"}")
        ≡ Some (Some (Put 0 (codes "k") (0xab ∷ 0x0c ∷ []) 1)) }
    ensures repeated { line_by command_of (codes "{\"op\":\"put\",\"key\":\"k\",\"hex\":\"0102\",\"times\":3,\"writer\":7}")
        ≡ Some (Some (Put 7 (codes "k") (1 ∷ 2 ∷ []) 3)) }
    ensures no_times { line_by command_of (codes "{\"op\":\"put\",\"key\":\"\",\"hex\":\"01\",\"times\":0}")
        ≡ Some (Some (Put 0 [] (1 ∷ []) 0)) }
    ensures get { line_by command_of (codes "{\"op\":\"get\",\"key\":\"k\"}") ≡ Some (Some (Get 0 (codes "k"))) }
    ensures delete { line_by command_of (codes "{\"op\":\"delete\",\"key\":\"k\",\"writer\":1}")
        ≡ Some (Some (Delete 1 (codes "k"))) }
    ensures reclaim { line_by command_of (codes "{\"op\":\"reclaim\",\"extent\":4294967295}")
        ≡ Some (Some (Reclaim 0 4294967295)) }
    ensures blank { line_by command_of (codes " \t\r") ≡ Some None }
    ensures put_of_no_key { line_by command_of (codes "{\"op\":\"put\",\"hex\":\"01\"}") ≡ None }
    ensures put_of_no_bytes { line_by command_of (codes "{\"op\":\"put\",\"key\":\"k\"}") ≡ None }
    ensures half_a_byte { line_by command_of (codes "{\"op\":\"put\",\"key\":\"k\",\"hex\":\"012\"}") ≡ None }
    ensures times_of_text { line_by command_of (codes "{\"op\":\"put\",\"key\":\"k\",\"hex\":\"01\",\"times\":\"2\"}") ≡ None }
    ensures ninth_writer { line_by command_of (codes "{\"op\":\"get\",\"key\":\"k\",\"writer\":8}") ≡ None }
    ensures key_of_a_number { line_by command_of (codes "{\"op\":\"delete\",\"key\":7}") ≡ None }
    ensures large_extent { line_by command_of (codes "{\"op\":\"reclaim\",\"extent\":4294967296}") ≡ None }
    ensures replay { line_by command_of (codes "{\"op\":\"send\",\"block\":0}") ≡ None }
{}

/// Lines of groups, each form readable, and some that aren't.
fn worked_lines_of_groups()
    ensures group { line_by command_of (codes "{\"op\":\"group\"}") ≡ Some (Some (Group 0)) }
    ensures engage { line_by command_of (codes "{\"op\":\"engage\",\"group\":4,\"writer\":7}") ≡ Some (Some (Engage 7 4)) }
    ensures disengage { line_by command_of (codes "{\"op\":\"disengage\",\"group\":5,\"writer\":1}")
        ≡ Some (Some (Disengage 1 5)) }
    ensures depend { line_by command_of (codes "{\"op\":\"depend\",\"group\":6,\"on\":2}") ≡ Some (Some (Depend 0 6 2)) }
    ensures close { line_by command_of (codes "{\"op\":\"close\",\"group\":8,\"writer\":3}") ≡ Some (Some (Close 3 8)) }
    ensures pending { line_by command_of (codes "{\"op\":\"pending\",\"group\":9}") ≡ Some (Some (Pending 0 9)) }
    ensures sync { line_by command_of (codes "{\"op\":\"sync\",\"group\":4294967295}") ≡ Some (Some (Sync 0 (Some 4294967295))) }
    ensures sync_of_none { line_by command_of (codes "{\"op\":\"sync\",\"writer\":2}") ≡ Some (Some (Sync 2 None)) }
    ensures sync_of_null { line_by command_of (codes "{\"op\":\"sync\",\"group\":null}") ≡ None }
    ensures ninth_writer { line_by command_of (codes "{\"op\":\"group\",\"writer\":8}") ≡ None }
    ensures depend_on_none { line_by command_of (codes "{\"op\":\"depend\",\"group\":6}") ≡ None }
    ensures sync_of_a_large_group { line_by command_of (codes "{\"op\":\"sync\",\"group\":4294967296}") ≡ None }
{}

/// Replies of each form.
fn worked_replies()
    ensures done { reply_line Done ≡ codes "ok\n" }
    ensures value { reply_line (Value (1 ∷ 0xab ∷ [])) ≡ codes "value 01ab\n" }
    ensures no_bytes { reply_line (Value []) ≡ codes "value\n" }
    ensures absent { reply_line Absent ≡ codes "none\n" }
    ensures group { reply_line (GroupMade 12) ≡ codes "group 12\n" }
    ensures count { reply_line (Count 0) ≡ codes "pending 0\n" }
    ensures refused { reply_line (Refused (record { kind = NoKey; number = None })) ≡ codes "refused NoKey\n" }
    ensures numbered { reply_line (Refused (record { kind = BadSlot; number = Some 63 })) ≡ codes "refused BadSlot 63\n" }
{}

#[test]
fn lines_and_replies_are_as_worked_out() {
    worked_lines();
    worked_lines_of_groups();
    worked_replies();
}
