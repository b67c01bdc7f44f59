ghost use Rattle.std.specs.Prelude.{◌≡◌, IfSome};
ghost use Rattle.crowd_run.specs.Program.{HasWorkers, request_of, texts, workers_of};

use ar_lines::number_in;

/// What the words ask for: a command, and how many workers, from 1 to 16.
#[derive(Clone, Copy, Debug, PartialEq, Eq)]
pub enum Request {
    /// `crowd`: a script with bursts.
    Crowd(u16),
    /// `serve`: challenges to a server.
    Serve(u16),
}

/// How many workers a word says.
#[tactic(auto, unfolding(ar_lines::specs::Forms::number_in))]
fn workers_of(word: &[u8]) -> Option<u16>
    ensures { result ≡ workers_of word.now }
{
    let workers = number_in(1, 16, word)?;
    Some(workers as u16)
}

impl Request {
    /// What the words behind the program's name ask for.
    fn asked(words: &[String]) -> Option<Request>
        ensures { result ≡ request_of (texts words.now) }
    {
        match words {
            [name, number] if name.as_str() == "crowd" => {
                workers_of(number.as_bytes()).map(Request::Crowd)
            }
            [name, number] if name.as_str() == "serve" => {
                workers_of(number.as_bytes()).map(Request::Serve)
            }
            _ => None,
        }
    }

    /// What the words behind the program's name ask for; `None` where they are of no form.
    #[tactic(auto, using(crate::proofs::Words::words_within))]
    pub(crate) fn read(words: &[String]) -> Option<Request>
        ensures asked { result ≡ request_of (texts words.now) }
        ensures within { IfSome result HasWorkers }
    {
        Request::asked(words)
    }
}
