//! The forms of a session, and the arguments that ask for them.
ghost use Rattle.std.specs.Prelude.{◌≡◌};

/// The forms of a session.
#[derive(Clone, Copy, Debug, PartialEq, Eq)]
pub struct Options {
    /// A bad line is answered and passed over. Otherwise it ends the session.
    pub passes_over: bool,
    /// A person is at a terminal: there are prompts, and `help` is answered.
    pub has_prompts: bool,
}

/// Returns the form of the session that the arguments ask for, or `None` if they ask for none. They are `live` alone, `live -k`
/// to pass over bad lines, or `live -t` for a person at a terminal.
pub fn options_of(arguments: &[String]) -> Option<Options> {
    match arguments {
        [word] if word.as_str() == "live" => Some(form_of(false, false)),
        [word, form] if word.as_str() == "live" && form.as_str() == "-k" => Some(form_of(
            true, false,
        )),
        [word, form] if word.as_str() == "live" && form.as_str() == "-t" => Some(form_of(
            true, true,
        )),
        _ => None,
    }
}

// Returns the form with these two choices.
fn form_of(passes_over: bool, has_prompts: bool) -> Options {
    Options {
        passes_over,
        has_prompts,
    }
}
