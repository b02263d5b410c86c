ghost use Rattle.std.specs.Prelude.{◌≡◌, ◌<◌, ◌==◌, ◌∷◌, length, IfSome, IfNone, option_copied};
ghost use Rattle.std.specs.List.{slice_split};
ghost use Rattle.pool_model.specs.File.{is_line_feed, is_space, lines_of};
ghost use Rattle.cmd_file.specs.Cuts.{pieces_left, IsWords};

/// What stands before the first `at`, and what stands behind it if there is one.
fn cut(bytes: &[u8], at: u8) -> (&[u8], Option<&[u8]>)
    ensures pieces { slice_split (λ byte. byte == at) bytes.now
        ≡ result.0.now ∷ pieces_left (λ byte. byte == at) (option_copied result.1) }
    ensures shorter { IfSome result.1 (λ rest. length rest.now < length bytes.now) }
    ensures whole { IfNone result.1 (result.0.now ≡ bytes.now) }
{
    match bytes.iter().position(|&byte| byte == at) {
        Some(i) => (&bytes[..i], Some(&bytes[i + 1..])),
        None => (bytes, None),
    }
}

/// The first line of a text that isn't empty, and what stands behind its line feed.
pub fn split_line(text: &[u8]) -> (&[u8], &[u8])
    requires some { 0 < length text.now }
    ensures lines { lines_of (slice_split is_line_feed text.now) ≡ result.0.now ∷ lines_of (slice_split is_line_feed result.1.now) }
    ensures shorter { length result.1.now < length text.now }
{
    let (line, more) = cut(text, b'\n');
    match more {
        Some(more) => (line, more),
        None => (text, &text[text.len()..]),
    }
}

/// The words of a line, each one space from the next. No line of a file has more than four.
#[derive(Clone, Copy)]
pub enum Words<'a> {
    One(&'a [u8]),
    Two(&'a [u8], &'a [u8]),
    Three(&'a [u8], &'a [u8], &'a [u8]),
    Four(&'a [u8], &'a [u8], &'a [u8], &'a [u8]),
    More,
}

/// The words of a line.
pub fn words_of(line: &[u8]) -> Words<'_>
    ensures { IsWords result (slice_split is_space line.now) }
{
    let (first, rest) = cut(line, b' ');
    let Some(rest) = rest else {
        return Words::One(first);
    };
    let (second, rest) = cut(rest, b' ');
    let Some(rest) = rest else {
        return Words::Two(first, second);
    };
    let (third, rest) = cut(rest, b' ');
    let Some(rest) = rest else {
        return Words::Three(first, second, third);
    };
    let (fourth, rest) = cut(rest, b' ');
    let Some(_fifth) = rest else {
        return Words::Four(first, second, third, fourth);
    };
    Words::More
}
