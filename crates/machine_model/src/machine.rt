ghost use Rattle.std.specs.Prelude.{◌≡◌, ℕ, ◌+◌, ◌<◌, ◌≤◌, Bool, List, ◌++◌, length};
ghost use Rattle.machine_model.specs.Histories.{kept_of};

use std::marker::Send;

/// A step of a machine, with the answer that it had.
#[derive(Clone, Copy)]
pub struct Event<S, A> {
    pub step: S,
    pub answer: A,
}

/// A value that answers steps and keeps a history of them.
pub trait Machine: Send + Drop {
    ghost use Rattle.machine_model.specs.declared.machine.Event.{Event};

    type Step;

    type Answer;

    /// What a base says: all that the answers rest on beside the history.
    ghost Base: { Type 0 };

    /// The base. No step changes it.
    ghost base: { Self → Base };

    /// The events that were kept, oldest first.
    ghost history: { Self → List (Event Self.Step Self.Answer) };

    /// How many more events the history can take.
    ghost spare: { Self → ℕ };

    /// The lane that a step is of.
    ghost lane_of: { Self.Step → ℕ };

    /// Whether a step may be taken over a base.
    ghost fits: { Base → Self.Step → Type 0 };

    /// The answer to a step over a base, after a history.
    ghost reply: { Base → List (Event Self.Step Self.Answer) → Self.Step → Self.Answer };

    /// Whether a step with its answer joins the history.
    ghost keeps: { Self.Step → Self.Answer → Bool };

    /// Takes a step and answers it. Needs room for one event also where the step isn't kept. Takes no memory.
    fn apply(&mut self, step: Self::Step) -> Self::Answer
        requires fits { fits (base self.old) step }
        requires room { 0 < spare self.old }
        ensures answer { result ≡ reply (base self.old) (history self.old) step }
        ensures base { base self.new ≡ base self.old }
        ensures history { history self.new ≡ history self.old ++ kept_of keeps step result }
        ensures spare { spare self.old + length (history self.old) ≤ spare self.new + length (history self.new) };
}
