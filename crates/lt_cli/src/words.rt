//! What the words of the command line ask for.

ghost use Rattle.std.specs.Prelude.{◌≡◌, ℕ, ◌<◌, ◌≤◌, ◌^◌, ◌↔◌, Some, IsTrue};
ghost use Rattle.std.specs.Fmt.{decimal};
ghost use Rattle.lt_format.specs.Layout.{is_geometry};
ghost use Rattle.lt_cli.specs.Promise.{AreSizes, MeansSome};

use itoa::Buffer;

/// What the program is asked for.
#[derive(Clone, Copy, Debug, PartialEq, Eq)]
pub enum Task {
    Run,
    Init {
        extents: u32,
        levels: u8,
        slots: u16,
    },
}

/// What a list of words asks for; `None` where it is none of those that there are.
pub fn task_of(words: &[String]) -> Option<Task>
    ensures { MeansSome words.now result }
{
    match words {
        [word] if word.as_str() == "run" => Some(Task::Run),
        [word, extents, levels, slots] if word.as_str() == "init" => init_of(
            number(extents.as_str())?,
            number(levels.as_str())?,
            number(slots.as_str())?,
        ),
        _ => None,
    }
}

/// The making of a store of these sizes, where they are within the limits.
fn init_of(extents: u32, levels: u32, slots: u32) -> Option<Task>
    ensures some { (task : Task) → result ≡ Some task → AreSizes extents levels slots
        × (task ≡ Task.Init extents levels slots) }
    ensures none { AreSizes extents levels slots → result ≡ Some (Task.Init extents levels slots) }
{
    if 1 <= extents
        && extents <= 65_536
        && 2 <= levels
        && levels <= 5
        && 1 <= slots
        && slots <= 512
    {
        Some(Task::Init {
            extents,
            levels: levels as u8,
            slots: slots as u16,
        })
    } else {
        None
    }
}

/// The number that a word spells in decimals without a sign or a leading zero.
fn number(word: &str) -> Option<u32>
    ensures { (n : ℕ) → n < 2 ^ 32 → (result ≡ Some n) ↔ (word.now ≡ decimal n) }
{
    let number: u32 = word.parse().ok()?;
    let mut buffer = Buffer::new();
    if buffer.format(number).as_bytes() == word.as_bytes() {
        Some(number)
    } else {
        None
    }
}
