//! Laws of the words, as the contracts of functions that do nothing.

ghost use Rattle.std.specs.Prelude.{◌≡◌, ◌↔◌, ℕ, List, None, Some, IfSome, IsSome};
ghost use Rattle.command_words.specs.Commands.{Command, HasItsShown};
ghost use Rattle.command_words.specs.Grammar.{IsCommandLine};
ghost use Rattle.command_words.specs.declared.faults.WordsFault.{WordsFault};
ghost use Rattle.command_words.specs.declared.questions.Question.{Question};
ghost use Rattle.command_words.specs.Questions.{question_of};
ghost use Rattle.command_words.specs.WordFaults.{words_fault};
ghost use Rattle.command_words.specs.Words.{command_of};

/// The words are read by the grammar: they are a line of one command at most, which is the one that is read,
/// and none is read exactly where they are a line of no command.
pub fn words_are_of_one_command()
    ensures of { (words : List (List ℕ)) (command : Command)
        → command_of words ≡ Some command → IsCommandLine words command }
    ensures read { (words : List (List ℕ)) (command : Command)
        → IsCommandLine words command → command_of words ≡ Some command }
    ensures one { (words : List (List ℕ)) (a b : Command)
        → IsCommandLine words a → IsCommandLine words b → a ≡ b }
    ensures none { (words : List (List ℕ))
        → (command_of words ≡ None) ↔ ((command : Command) → ¬ (IsCommandLine words command)) }
{}

/// Nothing is wrong with the words exactly where they name a command.
pub fn words_are_wrong_or_name_a_command()
    ensures right { (words : List (List ℕ)) → (words_fault words ≡ None) ↔ IsSome (command_of words) }
    ensures wrong { (words : List (List ℕ)) (fault : WordsFault)
        → words_fault words ≡ Some fault → command_of words ≡ None }
{}

/// What words ask to be shown of a run can be shown of it: a summary and a trace are of a run by a script alone.
pub(crate) fn words_ask_for_what_can_be_shown()
    ensures { (words : List (List ℕ)) → IfSome (command_of words) HasItsShown }
{}

/// Words that ask for help or for the version are no command. So what commands do doesn't hang on how these are answered.
pub fn questions_are_no_commands()
    ensures { (words : List (List ℕ)) (question : Question) → question_of words ≡ Some question → command_of words ≡ None }
{}
