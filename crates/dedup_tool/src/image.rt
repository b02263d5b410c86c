ghost use Rattle.std.specs.Prelude.{◌≡◌, ◌++◌, ◌<◌, ℕ, List, codes, MatchOption};
ghost use Rattle.dedup_tool.specs.Image.{IsNumberOf, IsSizedPath, Names};

use itoa::Buffer;

/// How many sectors a disk has at the least.
const LEAST: u64 = 2048;

/// How many sectors a disk in memory has at the most.
const MOST_IN_MEMORY: u64 = 65536;

/// How many sectors a disk in a new file has at the most.
const MOST_IN_FILE: u64 = 1_000_000;

/// The disk that an image names.
#[derive(Clone, Copy, Debug, PartialEq, Eq)]
pub enum Image<'a> {
    /// A disk in memory, of so many sectors.
    Memory(u64),
    /// A disk in a file that is made, of so many sectors, and the file's path.
    New(u64, &'a str),
    /// A disk in the file at this path.
    Path(&'a str),
}

/// The disk that IMAGE names (docs/COMMANDS.md, "The command line").
pub fn image_of(image: &str) -> Option<Image<'_>>
    ensures { Names image.now result }
{
    if let Some(digits) = image.strip_prefix("mem:") {
        let sectors = number_of(digits, LEAST, MOST_IN_MEMORY)?;
        return Some(Image::Memory(sectors));
    }
    if let Some(rest) = image.strip_prefix("new:") {
        let (sectors, path) = sized_path(rest)?;
        return Some(Image::New(sectors, path));
    }
    Some(Image::Path(image))
}

/// The number of sectors and the path that stand behind `new:`.
fn sized_path(rest: &str) -> Option<(u64, &str)>
    ensures { MatchOption result ((n : ℕ) (path : List ℕ) → ¬ IsSizedPath rest.now n path) (λ sized. IsSizedPath rest.now sized.0 sized.1.now) }
{
    let Some((digits, path)) = rest.split_once(':') else {
        return None;
    };
    let Some(sectors) = number_of(digits, LEAST, MOST_IN_FILE) else {
        return None;
    };
    Some((sectors, path))
}

/// The number that these digits spell without leading zeros, if it lies in this range.
fn number_of(digits: &str, least: u64, most: u64) -> Option<u64>
    ensures { MatchOption result ((n : ℕ) → ¬ IsNumberOf digits.now least most n) (IsNumberOf digits.now least most) }
{
    let Ok(number) = digits.parse::<u64>() else {
        return None;
    };
    if number < least {
        return None;
    }
    if most < number {
        return None;
    }
    let mut buffer = Buffer::new();
    if buffer.format(number) != digits {
        return None;
    }
    Some(number)
}
