//! The word of a form.

ghost use Rattle.std.specs.Prelude.{◌≡◌, ◌++◌, OnOk};
ghost use Rattle.place_text.specs.Fields.{behind};
ghost use Rattle.run_texts.specs.Summary.{form_fields};

use block_view::{Form, SeqEnd, form_word};
use place_text::fields::{push_value, push_word};
use std::alloc::AllocError;

/// Appends the word of a form; behind `cut` where the thread goes on.
pub fn push_form(text: &mut Vec<u8>, form: Form) -> Result<(), AllocError>
    ensures { OnOk result (text.new.items ≡ text.old.items ++ behind (form_fields form)) }
{
    push_word(text, form_word(form))?;
    if let Form::Sequence(SeqEnd::Cut(at)) = form {
        push_value(text, at)?;
    }
    Ok(())
}
