//! Laws: statements that hold for every list of words. A call does nothing; its contract is the
//! law.

ghost use Rattle.std.specs.Prelude.{◌≡◌, ◌⊎◌, ◌↔◌, ℕ, List, Some, None};
ghost use Rattle.crush_grammar.specs.Words.{Word};
ghost use Rattle.crush_grammar.specs.Automaton.{text};
ghost use Rattle.crush_grammar.specs.Fronts.{Breaks, IsWhole, LeavesAt};
ghost use Rattle.crush_grammar.specs.Syntax.{Declares};
ghost use Rattle.crush_grammar.specs.declared.code.TextFault.{TextFault};
ghost use Rattle.crush_grammar.specs.declared.declaration.Declaration.{Declaration};

/// Words of the grammar declare one list of declarations, and no other.
pub fn words_declare_once()
    ensures { (ws : List Word) (ds es : List Declaration) → Declares ws ds → Declares ws es → ds ≡ es }
{}

/// Words are of the grammar or break, and never both; they leave the grammar at one place at most.
pub fn words_are_whole_or_break()
    ensures either { (ws : List Word) → IsWhole ws ⊎ ((ds : List Declaration) × (f : TextFault) × Breaks ws ds f) }
    ensures not_both { (ws : List Word) (ds : List Declaration) (f : TextFault) → Breaks ws ds f → ¬ (IsWhole ws) }
    ensures one_place { (ws : List Word) (i j : ℕ) → LeavesAt ws i → LeavesAt ws j → i ≡ j }
{}

/// Words break in one way only: with one fault, after the same declarations.
pub fn words_break_once()
    ensures { (ws : List Word) (ds es : List Declaration) (f g : TextFault) → Breaks ws ds f → Breaks ws es g → (ds ≡ es) × (f ≡ g) }
{}

/// The automaton reads words as the grammar says: what whole words declare, and how others break.
pub fn words_are_read_as_they_say()
    ensures whole { (ws : List Word) (ds : List Declaration) → Declares ws ds ↔ (text ws ≡ record { decls = ds; fault = None }) }
    ensures broken { (ws : List Word) (ds : List Declaration) (f : TextFault) → Breaks ws ds f ↔ (text ws ≡ record { decls = ds; fault = Some f }) }
{}
