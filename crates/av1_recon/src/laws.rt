//! Theorems about outcomes. Each function does nothing: its contract is the theorem.
ghost use Rattle.std.specs.Prelude.{◌≡◌, ℕ, ◌<◌, ◌^◌, List, All};
ghost use Rattle.av1_recon.specs.Outcomes.{HasOutcome, Outcome};

/// Every list of bytes has exactly one outcome.
pub fn outcome_laws()
    ensures some { (bytes : List ℕ) → All (λ byte. byte < 2 ^ 8) bytes → (outcome : Outcome) × HasOutcome bytes outcome }
    ensures one { (bytes : List ℕ) (a b : Outcome) → HasOutcome bytes a → HasOutcome bytes b → a ≡ b }
{}
