//! The stream of a large run, made of a seed and a count.

ghost use Rattle.std.specs.Prelude.{◌≡◌, ◌<◌, ◌≤◌, ◌+◌, ◌∷◌, ◌++◌, [], ℕ, IfSome, IfNone, length};
ghost use Rattle.arrayvec.specs.ArrayVec.{array_vec_len};
ghost use Rattle.lt_language.specs.Commands.{line_feed};
ghost use Rattle.lt_language.specs.Generator.{digit_of, draw, get_line, get_lines, key_count, key_text, value_text};
ghost use Rattle.lt_language.specs.Generator.{write_line, write_lines};
ghost use Rattle.lt_line.specs.Drawing.{IsNextLine};

use arrayvec::ArrayVec;
use std::marker::Model;

// A line with its line feed. The longest is a put of 15 bytes, 140 bytes of a value and the line feed.
pub(super) type Line = ArrayVec<u8, 156>;

fn draw(x: u32) -> u32
    ensures { result ≡ draw x }
{
    ((1_664_525 * (x as u64) + 1_013_904_223) % (1 << 32)) as u32
}

fn digit_of(n: u32, power: u32) -> u8
    requires { 0 < power }
    ensures { result ≡ digit_of n power }
{
    b'0' + (n / power % 10) as u8
}

fn key_text(n: u32) -> [u8; 10]
    ensures { result ≡ key_text n }
{
    [
        b'k',
        b'e',
        b'y',
        digit_of(n, 1_000_000),
        digit_of(n, 100_000),
        digit_of(n, 10_000),
        digit_of(n, 1_000),
        digit_of(n, 100),
        digit_of(n, 10),
        digit_of(n, 1),
    ]
}

fn add(line: &mut Line, text: &[u8])
    requires { array_vec_len line.old + length text.now ≤ 156 }
    ensures items { line.new.items ≡ line.old.items ++ text.now }
    ensures len { array_vec_len line.new ≡ array_vec_len line.old + length text.now }
{
    line.try_extend_from_slice(text).unwrap();
}

fn add_value(line: &mut Line, c: u32)
    requires { array_vec_len line.old ≤ 15 }
    ensures items { line.new.items ≡ line.old.items ++ value_text c }
    ensures len { array_vec_len line.new ≤ array_vec_len line.old + 140 }
{
    let letters = [b'a' + ((c >> 24) % 26) as u8; 140];
    add(line, &letters[..40 + ((c >> 16) % 101) as usize]);
}

fn write_line(keys: u32, a: u32, b: u32, c: u32) -> Line
    requires { 0 < keys }
    ensures { result.items ≡ write_line keys a b c ++ line_feed ∷ [] }
{
    let key = key_text((a >> 8) % keys);
    let mut line = Line::new();
    if (b >> 16) % 10 == 0 {
        add(&mut line, b"delete ");
        add(&mut line, &key);
    } else {
        add(&mut line, b"put ");
        add(&mut line, &key);
        add(&mut line, b" ");
        add_value(&mut line, c);
    }
    add(&mut line, b"\n");
    line
}

fn get_line(n: u32) -> Line
    ensures { result.items ≡ get_line n ++ line_feed ∷ [] }
{
    let mut line = Line::new();
    add(&mut line, b"get ");
    add(&mut line, &key_text(n));
    add(&mut line, b"\n");
    line
}

// The lines of the stream that were not drawn yet: no line stands in memory before its turn.
#[derive(Drop)]
pub(super) struct LoadLines {
    keys: u32,
    drawn: u32,
    writes: u32,
    next_get: u32,
}

impl Model for LoadLines {
    ghost use Rattle.std.specs.Prelude.{List, ℕ};

    ghost Value = { List (List ℕ) };

    ghost use Rattle.lt_line.specs.Undrawn.{lines_left, HasKeys};

    ghost view = { lines_left };

    ghost invariant = { HasKeys };
}

impl LoadLines {
    pub(super) fn new(seed: u32, count: u32) -> LoadLines
        requires some { 1 ≤ count }
        requires bounded { count ≤ 1000000 }
        ensures { result ≡ write_lines (key_count count) seed count ++ get_lines 0 (key_count count) }
    {
        LoadLines {
            keys: (count + 1) / 2,
            drawn: seed,
            writes: count,
            next_get: 0,
        }
    }

    pub(super) fn next(&mut self) -> Option<Line>
        ensures some { IfSome result (λ line. IsNextLine line.items self.old self.new) }
        ensures none { IfNone result (self.old ≡ []) }
        ensures stays { IfNone result (self.new ≡ []) }
    {
        if self.writes > 0 {
            let a = draw(self.drawn);
            let b = draw(a);
            let c = draw(b);
            self.drawn = c;
            self.writes -= 1;
            Some(write_line(self.keys, a, b, c))
        } else if self.next_get < self.keys {
            let n = self.next_get;
            self.next_get += 1;
            Some(get_line(n))
        } else {
            None
        }
    }
}
