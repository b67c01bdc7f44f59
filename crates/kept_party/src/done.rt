use kept_journal::KeptText;

/// What a party did: its reply, and the record of it for the party's journal, unless nothing changed.
#[derive(Drop)]
pub struct Done<R> {
    /// What it replies.
    pub reply: R,
    /// What its journal is to have of it; `None` where the party is as it was.
    pub text: Option<KeptText>,
}
