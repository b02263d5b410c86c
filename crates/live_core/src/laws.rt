//! What holds of every list of steps of every lane. These functions do nothing: their clauses are laws of the definitions that
//! a core's `apply` follows.
ghost use Rattle.std.specs.Prelude.{◌≡◌, ℕ, ◌+◌, ◌≤◌, Bool, true, false, not, ◌&&◌, ◌||◌, nat_lt, List, [], ◌∷◌, ◌++◌, Option, Some};
ghost use Rattle.std.specs.List.{AllByRecursion, list_all, list_any};
ghost use Rattle.ddt_entry.specs.declared.entry.Home.{Home};
ghost use Rattle.machine_model.specs.declared.machine.Event.{Event};
ghost use Rattle.machine_model.specs.Histories.{History, IsLegal, kept_of};
ghost use Rattle.live_core.specs.declared.steps.Step.{Step};
ghost use Rattle.live_core.specs.declared.steps.Step.TheVariants.{Claim, Loaded};
ghost use Rattle.live_core.specs.declared.steps.Answer.{Answer};
ghost use Rattle.live_core.specs.declared.steps.Answer.TheVariants as answers;
ghost use Rattle.live_core.specs.declared.steps.KeyState.TheVariants.{Led};
ghost use Rattle.live_core.specs.declared.steps.Terms.{Terms};
ghost use Rattle.live_core.specs.Bases.{Base, Fits, IsLoad};
ghost use Rattle.live_core.specs.Moves.{count_in, is_kept};
ghost use Rattle.live_core.specs.Cores.{first_core, core_at, answer_at};
ghost use Rattle.live_core.specs.Events.{is_known, gives_up, loads_key, is_stray, AreAnswered, loaded, gains, losses, how_many, is_told_live, IsHistory};
ghost use Rattle.live_core.specs.Runs.{core_of, history_of};
ghost use Rattle.live_core.specs.Views.{keeps, reply};

/// At most one lane leads a key.
pub(crate) fn one_lane_leads()
    // A lane leads until it loads the key or gives it up itself, whatever steps the others take.
    ensures stays { (terms : Terms) (before more : History Step Answer) (lane key : ℕ) → (core_at terms before).states key ≡ Led lane
        → list_any (λ (e : Event Step Answer). loads_key lane key e.step || gives_up lane key e.step) more ≡ false
        → (core_at terms (before ++ more)).states key ≡ Led lane }
    // Where two claims of a key are answered Lead, the first leader has given the key up in between.
    ensures second { (terms : Terms) (before between : History Step Answer) (lane other key : ℕ)
        → answer_at terms before (Claim lane key) ≡ answers.Lead
        → answer_at terms (before ++ record { step = Claim lane key; answer = answers.Lead } ∷ between) (Claim other key) ≡ answers.Lead
        → list_any (λ (e : Event Step Answer). gives_up lane key e.step) between ≡ true }
{}

/// A key is loaded once.
pub(crate) fn keys_are_loaded_once()
    // Once it is known it is known for ever: neither idle nor led.
    ensures known { (terms : Terms) (before more : History Step Answer) (key : ℕ) → is_known ((core_at terms before).states key) ≡ true
        → is_known ((core_at terms (before ++ more)).states key) ≡ true }
    // That a home was taken in makes its key known.
    ensures after { (terms : Terms) (before more : History Step Answer) (lane key : ℕ) (home : Option Home)
        → answer_at terms before (Loaded lane key home) ≡ answers.Done
        → is_known ((core_at terms (before ++ record { step = Loaded lane key home; answer = answers.Done } ∷ more)).states key) ≡ true }
    // Each later one is without a meaning.
    ensures once { (terms : Terms) (before between : History Step Answer) (lane other key : ℕ) (home late : Option Home)
        → answer_at terms before (Loaded lane key home) ≡ answers.Done
        → answer_at terms (before ++ record { step = Loaded lane key home; answer = answers.Done } ∷ between) (Loaded other key late)
        ≡ answers.Stray }
{}

/// The count of a key is what was loaded, with its News and Hits and without its Counteds. So there are never more of these
/// than of the others, and the count never falls below 0.
pub(crate) fn counts_add_up()
    ensures { (terms : Terms) (history : History Step Answer) (key : ℕ) → AreAnswered terms (first_core terms) history
        → count_in ((core_at terms history).states key) + losses key history ≡ loaded key history + gains key history }
{}

/// Where homes are told, each home that is loaded is the key's, and the first number is no smaller than that of the keys whose
/// homes have a count above 0: the number of homes is the first one, without the loaded keys whose homes had a count above 0, and
/// with the known keys whose homes have one now.
pub(crate) fn homes_add_up()
    ensures { (base : Base) (homes : List (Option Home)) (history : History Step Answer) → base.told.homes ≡ Some homes
        → how_many (is_told_live homes) base.terms.keys ≤ base.terms.homes
        → AllByRecursion (λ (e : Event Step Answer). IsLoad base e.step) history
        → (core_at base.terms history).homes
        + how_many (λ key. is_known ((core_at base.terms history).states key) && is_told_live homes key) base.terms.keys
        ≡ base.terms.homes + how_many (λ key. nat_lt 0 (count_in ((core_at base.terms history).states key))) base.terms.keys }
{}

/// The history is all that counts: it has the steps that were kept, each with its answer, and those that weren't kept have
/// changed nothing.
pub(crate) fn history_is_what_was_kept()
    // The state after the steps is that after their history.
    ensures state { (terms : Terms) (steps : List Step) → core_at terms (history_of terms steps) ≡ core_of terms steps }
    // Each event has the answer that its step has after the events before it.
    ensures answers { (terms : Terms) (steps : List Step) → AreAnswered terms (first_core terms) (history_of terms steps) }
    // A step more adds its event, where it is kept.
    ensures next { (terms : Terms) (steps : List Step) (step : Step) → history_of terms (steps ++ step ∷ [])
        ≡ history_of terms steps ++ kept_of keeps step (answer_at terms (history_of terms steps) step) }
    // So where each step fits and none is answered Stray, the history is one that a group may have.
    ensures legal { (base : Base) (steps : List Step) → AllByRecursion (Fits base) steps
        → list_all (λ (e : Event Step Answer). not (is_stray e.answer)) (history_of base.terms steps) ≡ true
        → IsHistory base (history_of base.terms steps) }
{}

/// What a lock tells of a core's history is what these laws ask for.
pub(crate) fn legal_histories_meet_the_laws()
    ensures answered { (base : Base) (history : History Step Answer) → IsLegal Fits reply base [] history
        → AreAnswered base.terms (first_core base.terms) history }
    ensures loads { (base : Base) (history : History Step Answer) → IsLegal Fits reply base [] history
        → AllByRecursion (λ (e : Event Step Answer). IsLoad base e.step) history }
{}
