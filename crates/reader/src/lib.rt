// A file and an offset in it, carried from word to word.
#![tactic(auto)]

ghost use Rattle.std.specs.Prelude.{◌≡◌};
ghost use Rattle.words.specs.Steps.{Next};
ghost use Rattle.reader.specs.Pair.{past_word, Paired};

use words::Word;

#[derive(Clone, Copy)]
pub struct Reader<'a> {
    pub file: &'a [u8],
    pub at: usize,
}

impl<'a> Reader<'a> {
    // A reader at an offset of a file.
    pub fn new(file: &'a [u8], at: usize) -> Reader<'a>
        ensures { (result.file ≡ file.entry) × (result.at ≡ at) }
    {
        Reader { file, at }
    }

    // The next word: reading goes on past it.
    pub fn next(&mut self) -> Option<Word>
        ensures word { Next self.old.file.now self.old.at result }
        ensures moved { (self.new.file ≡ self.old.file) × (self.new.at ≡ past_word result self.old.at) }
    {
        let word = words::word_at(self.file, self.at);
        if let Some(w) = word {
            self.at = w.stop;
        }
        word
    }
}

// The next word from an offset of a file, for callers that hold both by themselves.
pub fn word_from(file: &[u8], at: usize) -> Option<Word>
    ensures { Next file.now at result }
{
    let mut reader = Reader::new(file, at);
    reader.next()
}

// A word and the one after it.
#[derive(Clone, Copy)]
pub struct Pair {
    pub first: Option<Word>,
    pub second: Option<Word>,
}

// The next two words from an offset of a file.
pub fn pair_from(file: &[u8], at: usize) -> Pair
    ensures { Paired file.now at result }
{
    let mut reader = Reader::new(file, at);
    let first = reader.next();
    let second = reader.next();
    Pair {
        first: first,
        second: second,
    }
}
