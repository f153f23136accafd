ghost use Rattle.std.specs.Prelude.{◌≡◌, ◌<◌, ◌≤◌, length, drop, position, IfSome, IsTrue};
ghost use Rattle.lt_terms.specs.Items.{is_key};
ghost use Rattle.lt_language.specs.Commands.{command_of, put_command, get_command, delete_command, valued};
ghost use Rattle.lt_language.specs.Commands.{begins_put, begins_get, begins_delete, is_stat, is_word_key, is_space};
ghost use Rattle.lt_language.specs.Commands.{has_space};
ghost use Rattle.lt_line.specs.View.{view_of};

use lt_language::Bad;

const LONGEST_LINE: usize = 3260;

const LONGEST_KEY: usize = 255;

const LONGEST_VALUE: usize = 3000;

/// What a line asks for.
#[derive(Clone, Copy, Debug, PartialEq, Eq)]
pub enum Command<'a> {
    Put { key: &'a [u8], value: &'a [u8] },
    Delete { key: &'a [u8] },
    Get { key: &'a [u8] },
    Stat,
    /// The line is refused.
    Bad(Bad),
}

/// The command that a line without its line feed is.
#[tactic(auto, unfolding(lt_language::specs::Commands::command_of))]
pub fn read_command(line: &[u8]) -> Command<'_>
    ensures { view_of result ≡ command_of line.now }
{
    if line.len() > LONGEST_LINE {
        Command::Bad(Bad::Long)
    } else if begins_put(line) {
        read_put(after(line, 4))
    } else if begins_get(line) {
        read_get(after(line, 4))
    } else if begins_delete(line) {
        read_delete(after(line, 7))
    } else if is_stat(line) {
        Command::Stat
    } else {
        Command::Bad(Bad::Syntax)
    }
}

// What follows `put `: the key up to the first space, and then the value.
fn read_put(words: &[u8]) -> Command<'_>
    ensures { view_of result ≡ put_command words.now }
{
    match first_space(words) {
        None => Command::Bad(Bad::Syntax),
        Some(at) => {
            let (key, _) = words.split_at(at);
            if is_word_key(key) {
                valued(key, after(words, at + 1))
            } else {
                Command::Bad(Bad::Key)
            }
        }
    }
}

fn valued<'a>(key: &'a [u8], value: &'a [u8]) -> Command<'a>
    ensures { view_of result ≡ valued key.now value.now }
{
    if value.len() <= LONGEST_VALUE {
        Command::Put { key, value }
    } else {
        Command::Bad(Bad::Value)
    }
}

fn read_get(key: &[u8]) -> Command<'_>
    ensures { view_of result ≡ get_command key.now }
{
    if is_word_key(key) {
        Command::Get { key }
    } else {
        Command::Bad(Bad::Key)
    }
}

fn read_delete(key: &[u8]) -> Command<'_>
    ensures { view_of result ≡ delete_command key.now }
{
    if is_word_key(key) {
        Command::Delete { key }
    } else {
        Command::Bad(Bad::Key)
    }
}

fn is_word_key(key: &[u8]) -> bool
    ensures { result ≡ is_word_key key.now }
{
    is_key(key) && !has_space(key)
}

fn is_key(key: &[u8]) -> bool
    ensures { result ≡ is_key key.now }
{
    1 <= key.len() && key.len() <= LONGEST_KEY
}

fn first_space(bytes: &[u8]) -> Option<usize>
    ensures place { result ≡ position is_space bytes.now }
    ensures within { IfSome result (λ at. at < length bytes.now) }
{
    bytes.iter().position(|b| *b == b' ')
}

fn has_space(bytes: &[u8]) -> bool
    ensures { result ≡ has_space bytes.now }
{
    bytes.iter().any(|b| *b == b' ')
}

#[tactic(auto, unfolding(lt_language::specs::Commands::begins_put))]
fn begins_put(line: &[u8]) -> bool
    ensures value { result ≡ begins_put line.now }
    ensures long { IsTrue result → 4 ≤ length line.now }
{
    line.starts_with(b"put ")
}

#[tactic(auto, unfolding(lt_language::specs::Commands::begins_get))]
fn begins_get(line: &[u8]) -> bool
    ensures value { result ≡ begins_get line.now }
    ensures long { IsTrue result → 4 ≤ length line.now }
{
    line.starts_with(b"get ")
}

#[tactic(auto, unfolding(lt_language::specs::Commands::begins_delete))]
fn begins_delete(line: &[u8]) -> bool
    ensures value { result ≡ begins_delete line.now }
    ensures long { IsTrue result → 7 ≤ length line.now }
{
    line.starts_with(b"delete ")
}

#[tactic(auto, unfolding(lt_language::specs::Commands::is_stat))]
fn is_stat(line: &[u8]) -> bool
    ensures { result ≡ is_stat line.now }
{
    line == b"stat".as_slice()
}

fn after(bytes: &[u8], n: usize) -> &[u8]
    requires { n ≤ length bytes.now }
    ensures { result.now ≡ drop n bytes.now }
{
    bytes.split_at(n).1
}
