//! What a command gives.

/// What is to be written, where a command is done.
#[derive(Drop)]
pub struct Reply {
    /// The new text of the state file, where the command writes it.
    pub state: Option<Vec<u8>>,
    /// The bytes of another file, where the command writes one.
    pub file: Option<Vec<u8>>,
    /// The text of standard output.
    pub text: Vec<u8>,
}

impl Reply {
    ghost use Rattle.std.specs.Prelude.{◌≡◌};
    ghost use Rattle.census_state.specs.Replies.{answer_of, text_alone};

    /// The reply of a text alone: no file is to be written.
    pub fn text_alone(text: Vec<u8>) -> Reply
        ensures { answer_of result ≡ text_alone text.items }
    {
        Reply {
            state: None,
            file: None,
            text,
        }
    }
}
