ghost use Rattle.std.specs.Prelude.{◌≡◌, ◌++◌, List};
ghost use Rattle.sup_core.specs.declared.event.Event.{Event};
ghost use Rattle.sup_core.specs.History.{History, state_of};
ghost use Rattle.sup_core.specs.Runs.{after, reopened, replies_to};

/// States a law of histories: two that lead to one state of a machine continue alike. A history can therefore be cut
/// anywhere: the state of the machine at the cut shows all that matters of what came before.
pub fn histories_of_one_state()
    ensures state { (p q : History) (events : List Event) → state_of p ≡ state_of q →
        state_of (after p events) ≡ state_of (after q events) }
    ensures replies { (p q : History) (events : List Event) → state_of p ≡ state_of q →
        replies_to p events ≡ replies_to q events }
    ensures state_cut { (past : History) (xs ys : List Event) →
        state_of (after past (xs ++ ys)) ≡ state_of (after (reopened past xs) ys) }
    ensures replies_cut { (past : History) (xs ys : List Event) →
        replies_to past (xs ++ ys) ≡ replies_to past xs ++ replies_to (reopened past xs) ys }
{}
