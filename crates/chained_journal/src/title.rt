ghost use Rattle.std.specs.Prelude.{◌≡◌, ◌++◌};
ghost use Rattle.chained_journal.specs.Journal.{start};

use crate::chain::start;

/// Whose journal a file is: with what it begins, and from what its chain starts.
#[derive(Clone, Copy, Debug)]
pub struct Title {
    /// The mark of a kind of party, in 8 bytes, and in 32 bytes whose of that kind it is.
    pub header: [u8; 40],
    /// What the chain is sealed with: a digest that only the party's secret gives, or a fixed value.
    pub seal: [u8; 32],
}

impl Title {
    /// The title with this mark, of whom these 32 bytes tell, and with this seal.
    pub fn new(mark: &[u8; 8], whose: &[u8; 32], seal: &[u8; 32]) -> Title
        ensures header { result.header ≡ mark.now ++ whose.now }
        ensures seal { result.seal ≡ seal.now }
    {
        let mut header = [0u8; 40];
        header[8..].copy_from_slice(whose);
        header[..8].copy_from_slice(mark);
        Title {
            header,
            seal: *seal,
        }
    }
}

/// How many texts a journal had, and their chain: what was noted of it elsewhere.
#[derive(Clone, Copy, Debug)]
pub struct Witness {
    /// How many texts there were.
    pub count: u64,
    /// The chain of these.
    pub chain: [u8; 32],
}

impl Witness {
    /// The witness of a journal with no texts, which each journal with this title bears out.
    pub fn of_nothing(title: &Title) -> Witness
        ensures count { result.count ≡ 0 }
        ensures chain { result.chain ≡ start title.now }
    {
        Witness {
            count: 0,
            chain: start(title),
        }
    }
}
