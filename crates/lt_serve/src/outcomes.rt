//! The text of replies.

ghost use Rattle.std.specs.Prelude.{◌≡◌, ◌≤◌, [], length};
ghost use Rattle.lt_language.specs.Replies as replies;
ghost use Rattle.lt_language.specs.Replies.{spaced, text};
ghost use Rattle.lt_line.specs.Waiting.{with_text};
ghost use Rattle.lt_serve.specs.Outcomes.{Adds, HasValue, most_text, outcome_text};

use itoa::Buffer;
use lt_line::{Bad, Replies};
use lt_store::{Outcome, Stat, Taken};

/// Adds the reply that an outcome is; nothing of a commit. The value is that of a get that found one.
pub fn add_outcome(out: &mut Replies, outcome: &Outcome, value: &[u8])
    requires room { most_text ≤ out.old.room }
    requires value { HasValue outcome.now value.now }
    ensures { Adds out.old out.new (outcome_text outcome.now value.now) }
{
    match outcome {
        Outcome::Taken(taken) => add_taken(out, taken),
        Outcome::Value(_) => add_value(out, value),
        Outcome::Missing => out.add(b"NONE\n"),
        Outcome::Stat(stat) => add_stat(out, stat),
        Outcome::Committed => {}
    }
}

fn add_taken(out: &mut Replies, taken: &Taken)
    requires room { most_text ≤ out.old.room }
    ensures { Adds out.old out.new (outcome_text (Outcome.Taken taken.now) []) }
{
    match taken {
        Taken::Ok => out.add(b"OK\n"),
        Taken::Full { needed, free } => {
            out.add(b"FULL");
            add_number(out, u64::from(*needed));
            add_number(out, u64::from(*free));
            out.add(b"\n");
        }
        Taken::Limit => out.add(b"LIMIT\n"),
    }
}

fn add_value(out: &mut Replies, value: &[u8])
    requires room { most_text ≤ out.old.room }
    requires value { length value.now ≤ 3000 }
    ensures { Adds out.old out.new (text (replies.value value.now)) }
{
    out.add(b"VALUE ");
    out.add(value);
    out.add(b"\n");
}

fn add_stat(out: &mut Replies, stat: &Stat)
    requires room { most_text ≤ out.old.room }
    ensures { Adds out.old out.new
        (text (replies.stat stat.now.writes stat.now.reads stat.now.tables stat.now.free)) }
{
    out.add(b"STAT");
    add_number(out, stat.writes);
    add_number(out, stat.reads);
    add_number(out, u64::from(stat.tables));
    add_number(out, u64::from(stat.free));
    out.add(b"\n");
}

/// Adds a space and the number.
fn add_number(out: &mut Replies, number: u64)
    requires room { 41 ≤ out.old.room }
    ensures text { out.new ≡ with_text out.old (spaced number) }
    ensures short { length (spaced number) ≤ 41 }
{
    let mut buffer = Buffer::new();
    out.add(b" ");
    out.add(buffer.format(number).as_bytes());
}

/// Adds the refusal of a line.
pub(super) fn add_bad(out: &mut Replies, kind: Bad)
    requires room { most_text ≤ out.old.room }
    ensures { Adds out.old out.new (text (replies.bad kind)) }
{
    out.add(match kind {
        Bad::Long => b"BAD long\n",
        Bad::Syntax => b"BAD syntax\n",
        Bad::Key => b"BAD key\n",
        Bad::Value => b"BAD value\n",
        Bad::End => b"BAD end\n",
    });
}
