ghost use Rattle.std.specs.Prelude.{◌≡◌, map, string_bytes};
ghost use Rattle.session.specs.Words.{running_word, running_words, looking_word, looking_words};

/// What a session that runs a command file begins with.
#[derive(Clone, Copy, Debug, PartialEq, Eq)]
pub enum Word {
    /// The pool that is on the disk.
    Run,
    /// A new pool.
    Make,
}

/// What a session does that runs no command file.
#[derive(Clone, Copy, Debug, PartialEq, Eq)]
pub enum Look {
    /// Creates a pool.
    Create,
    /// Tells of the pool that is on the disk.
    Stat,
}

/// What these words begin a session with; `None` exactly where they are none of `run`'s.
pub fn running_words(words: &[String]) -> Option<Word>
    ensures { result ≡ running_words (map string_bytes words.now) }
{
    let [word] = words else {
        return None;
    };
    running_word(word.as_str())
}

/// What these words ask for; `None` exactly where they are none of `inspect`'s.
pub fn looking_words(words: &[String]) -> Option<Look>
    ensures { result ≡ looking_words (map string_bytes words.now) }
{
    let [word] = words else {
        return None;
    };
    looking_word(word.as_str())
}

/// What a word begins a session with.
fn running_word(word: &str) -> Option<Word>
    ensures { result ≡ running_word word.now }
{
    if word == "run" {
        return Some(Word::Run);
    }
    if word == "make" {
        return Some(Word::Make);
    }
    None
}

/// What a word asks for.
fn looking_word(word: &str) -> Option<Look>
    ensures { result ≡ looking_word word.now }
{
    if word == "create" {
        return Some(Look::Create);
    }
    if word == "stat" {
        return Some(Look::Stat);
    }
    None
}
