// What the machine does on a program over two sets. Each function is a law: its clauses compute.
ghost use Rattle.std.specs.Prelude.{◌≡◌, pos, [], ◌∷◌, ◌++◌};
ghost use Rattle.rp_value.specs.Values.{Int, Atom, Con, no_val};
ghost use Rattle.rp_lang.specs.rows.Samples.{removes_users};
ghost use Rattle.event_machine.specs.States.{Invoke, Begin, Op, Local, New, Commit, Return, Check};
ghost use Rattle.event_machine.specs.States.{ToBegin, ToOp, ToLocal, ToNew, ToCommit, ToReturn, Invariant};
ghost use Rattle.event_machine.specs.States.{NotRunning, WrongPoint, BadArgs, UnknownId, NotCommitted, NotClosed, StampUsed, StampLow, NotFresh, OutOfUniverse};
ghost use Rattle.event_machine.specs.Runs.{outcome, Clean, ViolatedAt, RefusedAt};
ghost use Rattle.event_machine.specs.rows.Worked.{id, making, made, two_begun, both_done, failed, pickers, nobody, user, opaque, picked};

/// A user is removed while a post of the user is made: each snapshot that has one of the two keeps the invariant, and
/// the one that has both breaks it.
pub fn post_beside_remove()
    ensures breaks { outcome removes_users 1 (both_done ++ Check (0 ∷ 1 ∷ []) ∷ Check (0 ∷ 1 ∷ 2 ∷ []) ∷ [])
        ≡ ViolatedAt 17 (Invariant 0) }
    ensures keeps { outcome removes_users 1 (both_done ++ Check (0 ∷ 1 ∷ []) ∷ []) ≡ Clean 16 }
    ensures keeps_other { outcome removes_users 1 (both_done ++ Check (0 ∷ 2 ∷ []) ∷ []) ≡ Clean 16 }
{}

/// The removed user isn't found by a post that sees the removal, so nothing is posted.
pub fn post_after_remove()
    ensures { outcome removes_users 1
        (both_done ++ Invoke 1 (id 0 ∷ []) ∷ Begin 3 6 (0 ∷ 2 ∷ []) ∷ Local 3 ∷ Op 3 7 ∷ [])
        ≡ RefusedAt 19 (WrongPoint ToCommit) }
{}

/// What is seen is committed, and closed: a transaction before one that is seen is seen too, and so is what the
/// invocation saw before.
pub fn what_is_seen()
    ensures cause_missing { outcome removes_users 1 (both_done ++ Check (1 ∷ []) ∷ []) ≡ RefusedAt 16 (NotClosed 0) }
    ensures begin_without_cause { outcome removes_users 1
        (both_done ++ Invoke 1 (id 0 ∷ []) ∷ Begin 3 6 (1 ∷ 2 ∷ []) ∷ [])
        ≡ RefusedAt 17 (NotClosed 0) }
    ensures still_open { outcome removes_users 1 (two_begun ++ Check (0 ∷ 1 ∷ 2 ∷ []) ∷ []) ≡ RefusedAt 12 (NotCommitted 1) }
    ensures none_such { outcome removes_users 1 (both_done ++ Check (0 ∷ 7 ∷ 5 ∷ []) ∷ []) ≡ RefusedAt 16 (NotCommitted 5) }
    ensures nothing { outcome removes_users 1 (both_done ++ Check [] ∷ []) ≡ Clean 16 }
{}

/// A stamp is new, and no call in the past has a greater one. A stamp that is used is refused as such.
pub fn stamps()
    ensures used { outcome removes_users 1 (two_begun ++ Op 1 3 ∷ []) ≡ RefusedAt 12 (StampUsed 3) }
    ensures low { outcome removes_users 1 (making 5 1) ≡ RefusedAt 4 (StampLow 5) }
    ensures used_and_low { outcome removes_users 1 (making 5 5) ≡ RefusedAt 4 (StampUsed 5) }
    ensures low_begin { outcome removes_users 1
        (making 1 4 ++ Commit 0 ∷ Return 0 ∷ Invoke 2 (id 0 ∷ []) ∷ Begin 1 2 (0 ∷ []) ∷ [])
        ≡ RefusedAt 8 (StampLow 4) }
    ensures lower_beside { outcome removes_users 1
        (making 1 4 ++ Commit 0 ∷ Return 0 ∷ Invoke 2 (id 0 ∷ []) ∷ Begin 1 2 [] ∷ [])
        ≡ Clean 8 }
{}

/// An identifier that is handed in stands in a result. It is generated once, and lies below the universe.
pub fn identifiers()
    ensures unknown { outcome removes_users 1 (Invoke 1 (id 0 ∷ []) ∷ []) ≡ RefusedAt 1 (UnknownId (id 0)) }
    ensures not_returned { outcome removes_users 1 (making 0 1 ++ Commit 0 ∷ Invoke 1 (id 0 ∷ []) ∷ [])
        ≡ RefusedAt 6 (UnknownId (id 0)) }
    ensures twice { outcome removes_users 2 (made ++ Invoke 0 [] ∷ Begin 1 2 [] ∷ New 1 (id 0) ∷ [])
        ≡ RefusedAt 9 (NotFresh (id 0)) }
    ensures another { outcome removes_users 2 (made ++ Invoke 0 [] ∷ Begin 1 2 [] ∷ New 1 (id 1) ∷ []) ≡ Clean 9 }
    ensures too_great { outcome removes_users 1 (made ++ Invoke 0 [] ∷ Begin 1 2 [] ∷ New 1 (id 1) ∷ [])
        ≡ RefusedAt 9 (OutOfUniverse (id 1)) }
    ensures of_another_type { outcome removes_users 1 (Invoke 0 [] ∷ Begin 0 0 [] ∷ New 0 (Atom 1 0) ∷ []) ≡ RefusedAt 3 BadArgs }
    ensures no_identifier { outcome removes_users 1 (Invoke 1 (Int (pos 0) ∷ []) ∷ []) ≡ RefusedAt 1 BadArgs }
{}

/// An invocation does what its statements say next.
pub fn next_actions()
    ensures begins { outcome removes_users 1 (Invoke 0 [] ∷ New 0 (id 0) ∷ []) ≡ RefusedAt 2 (WrongPoint ToBegin) }
    ensures makes { outcome removes_users 1 (Invoke 0 [] ∷ Begin 0 0 [] ∷ Op 0 1 ∷ []) ≡ RefusedAt 3 (WrongPoint ToNew) }
    ensures operates { outcome removes_users 1 (Invoke 0 [] ∷ Begin 0 0 [] ∷ New 0 (id 0) ∷ Commit 0 ∷ [])
        ≡ RefusedAt 4 (WrongPoint ToOp) }
    ensures commits { outcome removes_users 1 (making 0 1 ++ Return 0 ∷ []) ≡ RefusedAt 5 (WrongPoint ToCommit) }
    ensures returns { outcome removes_users 1 (making 0 1 ++ Commit 0 ∷ Commit 0 ∷ []) ≡ RefusedAt 6 (WrongPoint ToReturn) }
    ensures chooses { outcome removes_users 1 (made ++ Invoke 1 (id 0 ∷ []) ∷ Begin 1 2 (0 ∷ []) ∷ Op 1 3 ∷ [])
        ≡ RefusedAt 9 (WrongPoint ToLocal) }
{}

/// What an invocation that failed did isn't committed, and it does nothing more.
pub fn crashes()
    ensures checked { outcome removes_users 1 failed ≡ Clean 6 }
    ensures no_more { outcome removes_users 1 (failed ++ Commit 0 ∷ []) ≡ RefusedAt 7 (NotRunning 0) }
    ensures not_seen { outcome removes_users 1 (failed ++ Check (0 ∷ []) ∷ []) ≡ RefusedAt 7 (NotCommitted 0) }
{}

/// What an invocation saw before is seen again when it begins once more.
pub fn earlier_view()
    ensures missing { outcome pickers 1 (Invoke 0 [] ∷ Begin 0 0 [] ∷ Commit 0 ∷ Begin 0 1 [] ∷ []) ≡ RefusedAt 4 (NotClosed 0) }
    ensures seen { outcome pickers 1 (Invoke 0 [] ∷ Begin 0 0 [] ∷ Commit 0 ∷ Begin 0 1 (0 ∷ []) ∷ []) ≡ Clean 4 }
{}

/// A match takes the arm of the constructor, and puts the fields into slots. What is returned may be handed in, also
/// inside a value.
pub fn arms()
    ensures without_fields { outcome pickers 1 picked ≡ Clean 4 }
    ensures with_fields { outcome pickers 1
        (picked ++ Invoke 1 (user (id 0) ∷ opaque 0 ∷ []) ∷ Local 1 ∷ Local 1 ∷ Return 1 ∷ [])
        ≡ Clean 8 }
    ensures other_arm { outcome pickers 1
        (picked ++ Invoke 1 (user (id 0) ∷ opaque 0 ∷ []) ∷ Local 1 ∷ New 1 (id 1) ∷ [])
        ≡ RefusedAt 7 (WrongPoint ToLocal) }
{}

/// Identifiers and opaque values inside an argument: an opaque value needn't be known, and both lie below the universe.
pub fn inside_values()
    ensures unknown { outcome pickers 1 (Invoke 1 (user (id 0) ∷ opaque 0 ∷ []) ∷ []) ≡ RefusedAt 1 (UnknownId (id 0)) }
    ensures too_great { outcome pickers 1 (Invoke 1 (nobody ∷ opaque 1 ∷ []) ∷ []) ≡ RefusedAt 1 (OutOfUniverse (opaque 1)) }
    ensures in_two { outcome pickers 2 (Invoke 1 (nobody ∷ opaque 1 ∷ []) ∷ []) ≡ Clean 1 }
    ensures other_constructor { outcome pickers 1 (Invoke 1 (Con 0 no_val ∷ opaque 0 ∷ []) ∷ []) ≡ RefusedAt 1 BadArgs }
    ensures field_missing { outcome pickers 1 (Invoke 1 (Con 3 no_val ∷ opaque 0 ∷ []) ∷ []) ≡ RefusedAt 1 BadArgs }
    ensures field_of_another_type { outcome pickers 1 (Invoke 1 (user (opaque 0) ∷ opaque 0 ∷ []) ∷ []) ≡ RefusedAt 1 BadArgs }
{}
