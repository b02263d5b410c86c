ghost use Rattle.std.specs.Prelude.{◌≡◌, ◌≤◌, ◌<◌, ◌+◌, ◌++◌, [], ◌∷◌, length, IsTrue};
ghost use Rattle.report.specs.Words.{FitsLine, joined_text, is_short, word_text};
ghost use Rattle.report.specs.Writes.{Wrote};

use arrayvec::ArrayString;
use io_model::{Failed, Sink, write_whole};
use itoa::Buffer;

/// How many bytes a line has at the most: 10 words of 20 bytes, each with a space or the end behind it.
const LINE: usize = 210;

/// A word of a line.
#[derive(Clone, Copy)]
pub(crate) enum Word {
    Text(&'static str),
    Number(u64),
}

/// Appends a word to a line.
fn push_word(line: &mut ArrayString<LINE>, word: &Word)
    requires short { IsTrue (is_short word.now) }
    requires room { length line.old.bytes + 20 ≤ LINE }
    ensures text { line.new.bytes ≡ line.old.bytes ++ word_text word.now }
    ensures within { length line.new.bytes ≤ length line.old.bytes + 20 }
{
    match word {
        Word::Text(text) => line.push_str(text),
        Word::Number(number) => {
            let mut digits = Buffer::new();
            line.push_str(digits.format(*number));
        }
    }
}

/// Words with a space between two.
fn joined(words: &[Word]) -> ArrayString<LINE>
    requires { FitsLine words.now }
    ensures text { result.bytes ≡ joined_text words.now }
    ensures fits { length result.bytes < LINE }
{
    let mut line = ArrayString::<LINE>::new();
    let [first, others @ ..] = words else {
        return line;
    };
    push_word(&mut line, first);
    'words: for word in others {
        line.push_str(" ");
        push_word(&mut line, word);
    }
    line
}

/// Writes words with a space between two and an end behind them, in one piece.
pub(crate) fn write_words<W: Sink>(
    out: &mut W,
    words: &[Word],
    end: &'static str,
) -> Result<(), Failed>
    requires words { FitsLine words.now }
    requires end { length end.now ≤ 1 }
    ensures { Wrote (W.written out.old) (W.written out.new) (W.faults out.old) (W.faults out.new)
        (joined_text words.now ++ end.now) result }
{
    let mut line = joined(words);
    line.push_str(end);
    write_whole(out, line.as_str().as_bytes())
}

/// Writes words as a line, in one piece.
pub(crate) fn write_line<W: Sink>(out: &mut W, words: &[Word]) -> Result<(), Failed>
    requires { FitsLine words.now }
    ensures { Wrote (W.written out.old) (W.written out.new) (W.faults out.old) (W.faults out.new)
        (joined_text words.now ++ 10 ∷ []) result }
{
    write_words(out, words, "\n")
}
