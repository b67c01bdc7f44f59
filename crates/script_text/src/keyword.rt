ghost use Rattle.std.specs.Prelude.{◌≡◌, None, IfSome, false};
ghost use Rattle.script_text.specs.Rows.{setup_rows, owners_rows, drafts_rows, orders_rows, messages_rows, bytes_rows, has_word, row_of, table};

/// The first word of a line.
#[derive(Clone, Copy, Debug)]
pub(crate) enum Keyword {
    Secret,
    Keys,
    Logs,
    Authorities,
    Dishonest,
    Owner,
    Teach,
    Forget,
    Retire,
    Register,
    Update,
    Revoke,
    Handover,
    Object,
    Submit,
    Propose,
    Pass,
    Roll,
    Learn,
    Ask,
    Deliver,
    Flush,
    Judge,
    Sign,
    Inject,
    Burst,
    End,
}

/// A first word of the lines of the setup.
fn setup_word(word: &[u8]) -> Option<Keyword>
    ensures some { IfSome result (λ keyword. word.now ≡ (row_of keyword).word) }
    ensures none { result ≡ None → has_word setup_rows word.now ≡ false }
{
    if word == b"secret".as_slice() {
        return Some(Keyword::Secret);
    }
    if word == b"keys".as_slice() {
        return Some(Keyword::Keys);
    }
    if word == b"logs".as_slice() {
        return Some(Keyword::Logs);
    }
    if word == b"authorities".as_slice() {
        return Some(Keyword::Authorities);
    }
    if word == b"dishonest".as_slice() {
        return Some(Keyword::Dishonest);
    }
    None
}

/// A first word of the lines of owners, and of what authorities know of them.
fn owners_word(word: &[u8]) -> Option<Keyword>
    ensures some { IfSome result (λ keyword. word.now ≡ (row_of keyword).word) }
    ensures none { result ≡ None → has_word owners_rows word.now ≡ false }
{
    if word == b"owner".as_slice() {
        return Some(Keyword::Owner);
    }
    if word == b"teach".as_slice() {
        return Some(Keyword::Teach);
    }
    if word == b"forget".as_slice() {
        return Some(Keyword::Forget);
    }
    if word == b"retire".as_slice() {
        return Some(Keyword::Retire);
    }
    None
}

/// A first word of the lines of drafts of certificates.
fn drafts_word(word: &[u8]) -> Option<Keyword>
    ensures some { IfSome result (λ keyword. word.now ≡ (row_of keyword).word) }
    ensures none { result ≡ None → has_word drafts_rows word.now ≡ false }
{
    if word == b"register".as_slice() {
        return Some(Keyword::Register);
    }
    if word == b"update".as_slice() {
        return Some(Keyword::Update);
    }
    if word == b"revoke".as_slice() {
        return Some(Keyword::Revoke);
    }
    if word == b"handover".as_slice() {
        return Some(Keyword::Handover);
    }
    if word == b"object".as_slice() {
        return Some(Keyword::Object);
    }
    if word == b"submit".as_slice() {
        return Some(Keyword::Submit);
    }
    None
}

/// A first word of the lines of orders to logs and authorities.
fn orders_word(word: &[u8]) -> Option<Keyword>
    ensures some { IfSome result (λ keyword. word.now ≡ (row_of keyword).word) }
    ensures none { result ≡ None → has_word orders_rows word.now ≡ false }
{
    if word == b"propose".as_slice() {
        return Some(Keyword::Propose);
    }
    if word == b"pass".as_slice() {
        return Some(Keyword::Pass);
    }
    if word == b"roll".as_slice() {
        return Some(Keyword::Roll);
    }
    None
}

/// A first word of the lines of messages and clients.
fn messages_word(word: &[u8]) -> Option<Keyword>
    ensures some { IfSome result (λ keyword. word.now ≡ (row_of keyword).word) }
    ensures none { result ≡ None → has_word messages_rows word.now ≡ false }
{
    if word == b"learn".as_slice() {
        return Some(Keyword::Learn);
    }
    if word == b"ask".as_slice() {
        return Some(Keyword::Ask);
    }
    if word == b"deliver".as_slice() {
        return Some(Keyword::Deliver);
    }
    if word == b"flush".as_slice() {
        return Some(Keyword::Flush);
    }
    if word == b"judge".as_slice() {
        return Some(Keyword::Judge);
    }
    None
}

/// A first word of the lines of bytes that are composed, and of bursts.
fn bytes_word(word: &[u8]) -> Option<Keyword>
    ensures some { IfSome result (λ keyword. word.now ≡ (row_of keyword).word) }
    ensures none { result ≡ None → has_word bytes_rows word.now ≡ false }
{
    if word == b"sign".as_slice() {
        return Some(Keyword::Sign);
    }
    if word == b"inject".as_slice() {
        return Some(Keyword::Inject);
    }
    if word == b"burst".as_slice() {
        return Some(Keyword::Burst);
    }
    if word == b"end".as_slice() {
        return Some(Keyword::End);
    }
    None
}

impl Keyword {
    /// The first word that this is.
    pub(crate) fn of(word: &[u8]) -> Option<Keyword>
        ensures some { IfSome result (λ keyword. word.now ≡ (row_of keyword).word) }
        ensures none { result ≡ None → has_word table word.now ≡ false }
    {
        if let Some(keyword) = setup_word(word) {
            return Some(keyword);
        }
        if let Some(keyword) = owners_word(word) {
            return Some(keyword);
        }
        if let Some(keyword) = drafts_word(word) {
            return Some(keyword);
        }
        if let Some(keyword) = orders_word(word) {
            return Some(keyword);
        }
        if let Some(keyword) = messages_word(word) {
            return Some(keyword);
        }
        bytes_word(word)
    }
}
