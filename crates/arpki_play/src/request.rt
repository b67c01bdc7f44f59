ghost use Rattle.std.specs.Prelude.{◌≡◌, ◌≤◌, IfOk};
ghost use Rattle.arpki_play.specs.Words.{domains_of, request_named, request_of, texts};
ghost use Rattle.script_make.specs.Script.{script};

use ar_lines::number_of;
use arpki_ask::Command;
use review::Review;
use run_restart::Restart;
use script_make::make;
use std::alloc::{AllocError, Global};
use std::marker::Model;

/// How many domains a script is for: 1 to 400.
#[derive(Debug, Drop)]
pub struct Domains {
    number: u32,
}

// Clauses see the number.
impl Model for Domains {
    ghost use Rattle.std.specs.Prelude.{ℕ, ◌≤◌};

    ghost Value = { ℕ };

    ghost view = { λ d. d.number };

    ghost invariant = { λ d. (1 ≤ d.number) × (d.number ≤ 400) };
}

impl Domains {
    /// The number that a word says.
    #[tactic(auto, unfolding(ar_lines::specs::Forms::number_in))]
    fn of(word: &[u8]) -> Option<Domains>
        ensures { result ≡ domains_of word.now }
    {
        let number = number_of(word)?;
        if number < 1 || number > 400 {
            return None;
        }
        Some(Domains {
            number: number as u32,
        })
    }

    /// The number.
    pub fn number(&self) -> u32
        ensures value { result ≡ self.now }
        ensures few { (1 ≤ result) × (result ≤ 400) }
    {
        self.number
    }

    /// The script.
    pub fn script(&self, alloc: Global) -> Result<Vec<u8>, AllocError>
        ensures { IfOk result (λ text. text.items ≡ script self.now) }
    {
        let mut text = Vec::new(alloc);
        make(alloc, self.number, &mut text)?;
        Ok(text)
    }
}

/// What the words of the program ask for.
#[derive(Debug, Drop)]
pub enum Request {
    /// The answer of a command to the input.
    Answer(Command),
    /// `make <number>`: the script for so many domains. No input is read.
    Make(Domains),
    /// `play`: what happens where the input is played as a script.
    Play,
    /// `restart <log> <k>`: one of the script's logs, twice, with a journal on a disk that fails behind so many calls.
    Restart(Restart),
    /// What a command that judges without a script, as `audit`, makes of the input.
    Review(Review),
    /// `make <number> run`: that script played, and a summary of it. No input is read.
    Run(Domains),
}

impl Request {
    /// What one word asks for; `None` where it is of no form.
    #[tactic(auto, unfolding(crate::specs::Words::request_named))]
    fn named(name: &str) -> Option<Request>
        ensures { result ≡ request_named name.now }
    {
        if name == "play" {
            return Some(Request::Play);
        }
        match Command::of(name) {
            Some(command) => Some(Request::Answer(command)),
            None => Review::of(name).map(Request::Review),
        }
    }

    /// What the words that follow the program's name ask for; `None` where they are of no form.
    pub fn read(words: &[String]) -> Option<Request>
        ensures { result ≡ request_of (texts words.now) }
    {
        match words {
            [name] => Request::named(name.as_str()),
            [name, number] if name.as_str() == "make" => {
                Domains::of(number.as_bytes()).map(Request::Make)
            }
            [name, log, calls] if name.as_str() == "restart" => {
                Restart::of(log.as_bytes(), calls.as_bytes()).map(Request::Restart)
            }
            [name, number, last] if name.as_str() == "make" && last.as_str() == "run" => {
                Domains::of(number.as_bytes()).map(Request::Run)
            }
            _ => None,
        }
    }
}
