//! What a command answers.

use call_reasons::OtherEnd;
use run_texts::Output;

/// An output, and the first outcome of it that ended otherwise than was expected.
pub type Judged = (Output, Option<OtherEnd>);
