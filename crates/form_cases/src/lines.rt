//! What is read from text.

/// What is read from text.
#[derive(Clone, Copy, PartialEq, Eq)]
pub enum Form {
    Tokens,
    Expression,
    Row,
    Script,
    Plan,
    /// A script that is performed.
    Run,
}

/// The form with this word.
pub fn form_of(word: &str) -> Option<Form> {
    match word {
        "tokens" => Some(Form::Tokens),
        "expression" => Some(Form::Expression),
        "row" => Some(Form::Row),
        "script" => Some(Form::Script),
        "plan" => Some(Form::Plan),
        "run" => Some(Form::Run),
        _ => None,
    }
}
