//! The laws of steps and runs. Each function here does nothing: its contract is the law.
ghost use Rattle.std.specs.Prelude.{◌≡◌, ◌≢◌, ℤ, List, All};
ghost use Rattle.ivl_calculator.specs.Actions.{Action, Answer, refused};
ghost use Rattle.ivl_calculator.specs.Step.{MayStep, Run};
ghost use Rattle.ivl_calculator.specs.declared.reply.Refusal.TheVariants.{Memory};

/// An action has one answer and one next state, unless it runs out of memory.
pub fn steps_are_determined()
    ensures { (whole : ℤ × ℤ) (old : List (List (ℤ × ℤ))) (action : Action) (answer other : Answer) (new next : List (List (ℤ × ℤ)))
        → answer ≢ refused Memory → other ≢ refused Memory
        → MayStep whole old action answer new → MayStep whole old action other next → (answer ≡ other) × (new ≡ next) }
{}

/// A list of actions has one list of answers and one final state, unless one runs out of memory. So
/// these determine what [`Calc::run`](crate::Calc::run) returns.
pub fn runs_are_determined()
    ensures { (whole : ℤ × ℤ) (old : List (List (ℤ × ℤ))) (actions : List Action) (answers others : List Answer) (new next : List (List (ℤ × ℤ)))
        → All (λ a. a ≢ refused Memory) answers → All (λ a. a ≢ refused Memory) others
        → Run whole old actions answers new → Run whole old actions others next → (answers ≡ others) × (new ≡ next) }
{}
