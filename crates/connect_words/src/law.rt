ghost use Rattle.std.specs.Prelude.{◌≡◌, ℕ, List};
ghost use Rattle.connect_words.specs.Commands.{Writes};
ghost use Rattle.connect_words.specs.Places.{IsFirstBadPlace};
ghost use Rattle.connect_words.specs.declared.command.Command.{Command};

/// Words write at most one command and have at most one first bad place, and not both.
pub fn words_have_one_meaning()
    ensures command { (words : List (List ℕ)) (one other : Command) → Writes one words → Writes other words → one ≡ other }
    ensures place { (words : List (List ℕ)) (one other : ℕ) → IsFirstBadPlace words one → IsFirstBadPlace words other → one ≡ other }
    ensures not_both { (words : List (List ℕ)) (command : Command) (place : ℕ) → Writes command words → IsFirstBadPlace words place → ⊥ }
{}
